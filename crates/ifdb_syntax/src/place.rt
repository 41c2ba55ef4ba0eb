// The rules of the grammar in whose place a tree stands: they tell where its text has parentheses.
ghost use Rattle.std.specs.Prelude.{◌≡◌};

/// The rule in whose place an expression stands, from the loosest to the tightest.
#[derive(Clone, Copy)]
pub enum ExprPlace {
    /// A whole expression, or the left operand of `+` and `-`.
    Expr,
    /// The right operand of `+` and `-`, or the left one of `*`.
    Term,
    /// The right operand of `*`.
    Factor,
}

impl ExprPlace {
    ghost use Rattle.ifdb_syntax.specs.canonical.Expressions.{sum_enclosed, product_enclosed};

    /// Whether a sum or a difference has parentheses here.
    pub(crate) fn encloses_sum(self) -> bool
        ensures { result ≡ sum_enclosed self }
    {
        matches!(self, ExprPlace::Term | ExprPlace::Factor)
    }

    /// Whether a product has parentheses here.
    pub(crate) fn encloses_product(self) -> bool
        ensures { result ≡ product_enclosed self }
    {
        matches!(self, ExprPlace::Factor)
    }
}

/// The rule in whose place a condition stands, from the loosest to the tightest.
#[derive(Clone, Copy)]
pub enum CondPlace {
    /// A whole condition.
    Cond,
    /// A member of OR.
    Conj,
    /// A member of AND, or what is negated.
    Prim,
}

impl CondPlace {
    ghost use Rattle.ifdb_syntax.specs.canonical.Conditions.{or_enclosed, and_enclosed};

    /// Whether an OR node has parentheses here.
    pub(crate) fn encloses_or(self) -> bool
        ensures { result ≡ or_enclosed self }
    {
        matches!(self, CondPlace::Conj | CondPlace::Prim)
    }

    /// Whether an AND node has parentheses here.
    pub(crate) fn encloses_and(self) -> bool
        ensures { result ≡ and_enclosed self }
    {
        matches!(self, CondPlace::Prim)
    }
}
