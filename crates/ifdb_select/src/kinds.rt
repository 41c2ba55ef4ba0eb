// Kinds: whether bound trees fit the kinds of their sources' columns.
ghost use Rattle.std.specs.Prelude.{◌≡◌, Some, None, length, nat_lt, option_map, if◌then◌else◌};
ghost use Rattle.std.specs.List.{list_all};
ghost use Rattle.ifdb_value.specs.declared.value.ValueKind.TheVariants as kind;
ghost use Rattle.ifdb_value.specs.declared.value.TermKind.TheVariants as term;
ghost use Rattle.ifdb_bound.specs.Kinds.{accepts, agree, arithmetic_kind, both_meet, column_kind, cond_fits, expr_kind, has_one, item_kind, meet, of_numbers, operand_kind, same_kind, takes, where_fits};
ghost use Rattle.ifdb_catalog.specs.Scope.{kinds_in};

use crate::scope::ScopeSource;
use ifdb_bound::{BoundColumn, BoundCond, BoundConds, BoundExpr, BoundItem, BoundOperand};
use ifdb_value::{TermKind, ValueKind};

/// Whether both kinds are there, and are one.
pub fn agree(left: Option<ValueKind>, right: Option<ValueKind>) -> bool
    ensures { result ≡ agree left right }
{
    match (left, right) {
        (Some(left), Some(right)) => same_kind(left, right),
        _ => false,
    }
}

/// Whether two kinds are one.
fn same_kind(left: ValueKind, right: ValueKind) -> bool
    ensures { result ≡ same_kind left right }
{
    match (left, right) {
        (ValueKind::Int, ValueKind::Int) | (ValueKind::Text, ValueKind::Text) => true,
        _ => false,
    }
}

/// Whether a column of a kind takes what stands for these kinds: NULL, or what is of its kind.
pub fn takes(kind: ValueKind, term: TermKind) -> bool
    ensures { result ≡ takes kind term }
{
    match term {
        TermKind::Any => true,
        TermKind::Of(other) => same_kind(kind, other),
    }
}

/// Whether a column is there, and takes what stands for these kinds.
pub fn accepts(column: Option<ValueKind>, term: Option<TermKind>) -> bool
    ensures { result ≡ accepts column term }
{
    match (column, term) {
        (Some(kind), Some(term)) => takes(kind, term),
        _ => false,
    }
}

/// Whether two terms may be of one kind.
fn meet(left: TermKind, right: TermKind) -> bool
    ensures { result ≡ meet left right }
{
    match left {
        TermKind::Any => true,
        TermKind::Of(kind) => takes(kind, right),
    }
}

/// Whether both terms fit, and may be of one kind.
fn both_meet(left: Option<TermKind>, right: Option<TermKind>) -> bool
    ensures { result ≡ both_meet left right }
{
    match (left, right) {
        (Some(left), Some(right)) => meet(left, right),
        _ => false,
    }
}

/// The kind of a column, or `None` where there is none at its place.
#[tactic(auto, using(crate::proofs::ColumnKinds::kind_of_place, crate::proofs::ColumnKinds::no_kind))]
pub(crate) fn column_kind(scope: &[ScopeSource<'_>], column: BoundColumn) -> Option<ValueKind>
    ensures { result ≡ column_kind (kinds_in scope.now) column }
{
    match scope.get(column.source) {
        Some(source) => source.kind(column.column),
        None => None,
    }
}

/// The one kind that a column as a term is of, or `None` where there is none at its place.
fn column_term(scope: &[ScopeSource<'_>], column: BoundColumn) -> Option<TermKind>
    ensures { result ≡ option_map term.Of (column_kind (kinds_in scope.now) column) }
{
    match column_kind(scope, column) {
        Some(kind) => Some(TermKind::Of(kind)),
        None => None,
    }
}

/// Which kinds an expression may stand for, or `None` where it doesn't fit.
#[tactic(auto, using(ifdb_bound::proofs::KindForms::kind_forms))]
pub fn expr_kind(scope: &[ScopeSource<'_>], expr: &BoundExpr) -> Option<TermKind>
    ensures { result ≡ expr_kind (kinds_in scope.now) expr.now }
{
    match expr {
        BoundExpr::Column(column) => column_term(scope, *column),
        BoundExpr::Literal(value) => Some(value.kind()),
        BoundExpr::Add(left, right) => {
            arithmetic_kind(expr_kind(scope, left.get()), expr_kind(scope, right.get()))
        }
        BoundExpr::Sub(left, right) => {
            arithmetic_kind(expr_kind(scope, left.get()), expr_kind(scope, right.get()))
        }
        BoundExpr::Mul(left, right) => {
            arithmetic_kind(expr_kind(scope, left.get()), expr_kind(scope, right.get()))
        }
    }
}

/// The kind of a sum, difference or product: arithmetic takes numbers and NULL, and gives a number or NULL.
fn arithmetic_kind(left: Option<TermKind>, right: Option<TermKind>) -> Option<TermKind>
    ensures { result ≡ arithmetic_kind left right }
{
    if accepts(Some(ValueKind::Int), left) && accepts(Some(ValueKind::Int), right) {
        Some(TermKind::Of(ValueKind::Int))
    } else {
        None
    }
}

/// Which kinds an operand may stand for, or `None` where it is a column that isn't there.
fn operand_kind(scope: &[ScopeSource<'_>], operand: &BoundOperand) -> Option<TermKind>
    ensures { result ≡ operand_kind (kinds_in scope.now) operand.now }
{
    match operand {
        BoundOperand::Column(column) => column_term(scope, *column),
        BoundOperand::Literal(value) => Some(value.kind()),
    }
}

/// Whether each comparison is of two operands that may be of one kind, and each column is there.
#[cycle(fits)]
#[tactic(auto, using(ifdb_bound::proofs::KindForms::kind_forms))]
fn cond_fits(scope: &[ScopeSource<'_>], cond: &BoundCond) -> bool
    ensures { result ≡ cond_fits (kinds_in scope.now) cond.now }
{
    match cond {
        BoundCond::Or(members) => all_fit(scope, members),
        BoundCond::And(members) => all_fit(scope, members),
        BoundCond::Not(inner) => cond_fits(scope, inner.get()),
        BoundCond::Compare { left, right, .. } => {
            both_meet(operand_kind(scope, left), operand_kind(scope, right))
        }
        BoundCond::IsNull { operand, .. } => operand_kind(scope, operand).is_some(),
    }
}

/// Whether each member fits.
#[cycle(fits)]
fn all_fit(scope: &[ScopeSource<'_>], members: &BoundConds) -> bool
    ensures { result ≡ list_all (cond_fits (kinds_in scope.now)) members.now }
{
    for member in members.items() {
        if !cond_fits(scope, member) {
            return false;
        }
    }
    true
}

/// Whether a condition that may be left out fits.
pub fn where_fits(scope: &[ScopeSource<'_>], cond: &Option<BoundCond>) -> bool
    ensures { result ≡ where_fits (kinds_in scope.now) cond.now }
{
    match cond {
        Some(cond) => cond_fits(scope, cond),
        None => true,
    }
}

/// Which kinds an item may stand for, or `None` where it doesn't fit.
pub(crate) fn item_kind(scope: &[ScopeSource<'_>], item: &BoundItem) -> Option<TermKind>
    ensures { result ≡ item_kind (kinds_in scope.now) item.now }
{
    match item {
        BoundItem::Expr(expr) => expr_kind(scope, expr),
        BoundItem::LabelOf(source) => label_kind(scope, *source),
        BoundItem::CountAll => Some(TermKind::Of(ValueKind::Int)),
        BoundItem::Sum(column) => of_numbers(column_kind(scope, *column)),
        BoundItem::Min(column) => column_term(scope, *column),
        BoundItem::Max(column) => column_term(scope, *column),
    }
}

/// The kind of the label of a source's row, or `None` where there is no such source.
#[tactic(auto, using(crate::proofs::ColumnKinds::as_many_kinds))]
fn label_kind(scope: &[ScopeSource<'_>], source: usize) -> Option<TermKind>
    ensures { result
        ≡ (if nat_lt source (length (kinds_in scope.now)) then Some (term.Of kind.Text) else None) }
{
    if source < scope.len() {
        Some(TermKind::Of(ValueKind::Text))
    } else {
        None
    }
}

/// What only numbers have.
fn of_numbers(kind: Option<ValueKind>) -> Option<TermKind>
    ensures { result ≡ of_numbers kind }
{
    match kind {
        Some(ValueKind::Int) => Some(TermKind::Of(ValueKind::Int)),
        _ => None,
    }
}

/// Whether each item is of one kind, which NULL alone isn't.
pub fn have_one_kind(scope: &[ScopeSource<'_>], items: &[BoundItem]) -> bool
    ensures { result ≡ list_all (λ i. has_one (item_kind (kinds_in scope.now) i)) items.now }
{
    for item in items {
        if !has_one(item_kind(scope, item)) {
            return false;
        }
    }
    true
}

/// Whether there is one kind.
fn has_one(term: Option<TermKind>) -> bool
    ensures { result ≡ has_one term }
{
    match term {
        Some(TermKind::Of(_)) => true,
        Some(TermKind::Any) | None => false,
    }
}
