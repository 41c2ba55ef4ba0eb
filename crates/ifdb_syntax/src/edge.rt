// What stands between two neighbours of the canonical text.
ghost use Rattle.std.specs.Prelude.{◌≡◌, ◌↔◌, [], ◌∷◌, IsTrue, if◌then◌else◌};

use crate::lexeme::Lexeme;

/// What the last lexeme that was written leaves to the next one.
#[derive(Clone, Copy)]
pub enum Edge {
    /// Nothing stands behind it: the start of a line, `(`, `.`, or the `-` of a literal.
    Tight,
    /// COUNT, SUM, MIN or MAX: `(` follows without a space.
    Call,
    /// A name, a number, a text, NULL or `)`: a `-` behind it subtracts, and a space stands before most lexemes.
    Operand,
    /// Any other: a `-` behind it is a literal's, and a space stands before most lexemes.
    Wide,
}

impl Edge {
    ghost use Rattle.ifdb_syntax.specs.canonical.Text.{edge_after, gap};

    /// What a lexeme behind this edge leaves to the next one.
    pub(crate) fn behind(self, lexeme: &Lexeme) -> Edge
        ensures { result ≡ edge_after self lexeme.now }
    {
        match lexeme {
            Lexeme::Open | Lexeme::Dot => Edge::Tight,
            Lexeme::Minus => match self {
                Edge::Operand => Edge::Wide,
                Edge::Tight | Edge::Call | Edge::Wide => Edge::Tight,
            },
            Lexeme::Count | Lexeme::Sum | Lexeme::Min | Lexeme::Max => Edge::Call,
            Lexeme::Close
            | Lexeme::Name(_)
            | Lexeme::Number(_)
            | Lexeme::Quoted(_)
            | Lexeme::Null => Edge::Operand,
            _ => Edge::Wide,
        }
    }

    /// Whether a space stands between this edge and a lexeme.
    pub(crate) fn has_space_before(self, lexeme: &Lexeme) -> bool
        ensures { gap self lexeme.now ≡ (if result then 32 ∷ [] else []) }
    {
        match lexeme {
            Lexeme::Close | Lexeme::Comma | Lexeme::Dot => false,
            Lexeme::Open => !matches!(self, Edge::Tight | Edge::Call),
            _ => !matches!(self, Edge::Tight),
        }
    }
}
