// The limits that the lexemes of a line and its tree keep.
ghost use Rattle.std.specs.Prelude.{◌≡◌, ◌≤◌, length, nat_lt};
ghost use Rattle.std.specs.List.{list_any};
ghost use Rattle.ifdb_syntax.specs.Reading.{operators as operators_of};
ghost use Rattle.ifdb_parse.specs.TreeLimits as spec;

use ifdb_syntax::{Assignment, Expr, ForeignKey, Item, Lexeme, Request, Select};
use ifdb_value::{Sequence, ValueRow};

/// The most members of a list.
const LONGEST_LIST: usize = 64;
/// The most sources of a FROM.
const MOST_SOURCES: usize = 4;
/// The most rows of an INSERT.
const MOST_ROWS: usize = 256;
/// The most operators of an expression.
const MOST_OPERATORS: usize = 64;
/// 2^63.
const LONE_NUMBER: u64 = 9223372036854775808;

/// Whether a line with these lexemes and this tree passes a limit: the number 2^63 anywhere but behind the `-` of a literal, a list with more than
/// 64 members, more than 4 sources, 256 rows or 64 operators in an expression. Takes no memory.
pub(crate) fn exceeds_tree(lexemes: &[Lexeme], request: &Request) -> bool
    ensures { result ≡ spec.exceeds_tree lexemes.now request.now }
{
    has_lone(lexemes) || exceeds_request(request)
}

/// What the lexeme before is to the next one.
#[derive(Clone, Copy)]
pub(crate) enum Before {
    /// A name, a number, a text, NULL or `)`: a `-` behind it subtracts.
    Operand,
    /// The `-` of a literal.
    Sign,
    /// Any other lexeme, or none.
    Other,
}

impl Before {
    ghost use Rattle.std.specs.Prelude.{◌≡◌};
    ghost use Rattle.ifdb_parse.specs.TreeLimits.{behind, is_lone};

    /// What a lexeme is to the next one, where this is what was before it.
    fn behind(self, lexeme: &Lexeme) -> Before
        ensures { result ≡ behind self lexeme.now }
    {
        match lexeme {
            Lexeme::Name(_)
            | Lexeme::Number(_)
            | Lexeme::Quoted(_)
            | Lexeme::Null
            | Lexeme::Close => Before::Operand,
            Lexeme::Minus => match self {
                Before::Operand => Before::Other,
                Before::Sign | Before::Other => Before::Sign,
            },
            _ => Before::Other,
        }
    }

    /// Whether a lexeme is 2^63, but not behind the `-` of a literal.
    fn is_lone(self, lexeme: &Lexeme) -> bool
        ensures { result ≡ is_lone self lexeme.now }
    {
        match self {
            Before::Sign => false,
            Before::Operand | Before::Other => is_lone_number(lexeme),
        }
    }
}

/// Whether a lexeme is the number 2^63.
fn is_lone_number(lexeme: &Lexeme) -> bool
    ensures { result ≡ spec.is_lone Before.Other lexeme.now }
{
    match lexeme {
        Lexeme::Number(number) => *number == LONE_NUMBER,
        _ => false,
    }
}

/// Whether the number 2^63 stands among lexemes, but not behind the `-` of a literal.
fn has_lone(lexemes: &[Lexeme]) -> bool
    ensures { result ≡ spec.has_lone Before.Other lexemes.now }
{
    let mut last = Before::Other;
    for lexeme in lexemes {
        if last.is_lone(lexeme) {
            return true;
        }
        last = last.behind(lexeme);
    }
    false
}

/// Whether a list has more than 64 members.
fn exceeds_list<T>(members: &Sequence<T>) -> bool
    ensures { result ≡ spec.exceeds_list members.now }
{
    LONGEST_LIST < members.len()
}

/// How many operators an expression has, or 65 where it has more.
#[tactic(auto, using(crate::proofs::Operators::operator_laws))]
pub(crate) fn operators(expr: &Expr) -> usize
    ensures value { result ≡ operators_of expr.now }
    ensures small { result ≤ 65 }
{
    match expr {
        Expr::Column(_) => 0,
        Expr::Literal(_) => 0,
        Expr::Add(left, right) => (operators(left.get()) + operators(right.get()) + 1).min(65),
        Expr::Sub(left, right) => (operators(left.get()) + operators(right.get()) + 1).min(65),
        Expr::Mul(left, right) => (operators(left.get()) + operators(right.get()) + 1).min(65),
    }
}

/// Whether an expression has more than 64 operators.
fn exceeds_expr(expr: &Expr) -> bool
    ensures { result ≡ spec.exceeds_expr expr.now }
{
    MOST_OPERATORS < operators(expr)
}

fn exceeds_item(item: &Item) -> bool
    ensures { result ≡ spec.exceeds_item item.now }
{
    match item {
        Item::Expr { expr, .. } => exceeds_expr(expr),
        _ => false,
    }
}

fn has_long_item(items: &[Item]) -> bool
    ensures { result ≡ list_any spec.exceeds_item items.now }
{
    items.iter().any(exceeds_item)
}

/// Whether a SELECT passes a limit.
fn exceeds_select(select: &Select) -> bool
    ensures { result ≡ spec.exceeds_select select.now }
{
    exceeds_list(&select.items)
        || MOST_SOURCES < select.sources.len()
        || exceeds_list(&select.group)
        || exceeds_list(&select.order)
        || has_long_item(select.items.items())
}

fn exceeds_foreign(key: &ForeignKey) -> bool
    ensures { result ≡ spec.exceeds_foreign key.now }
{
    exceeds_list(&key.columns)
}

fn has_long_foreign(keys: &[ForeignKey]) -> bool
    ensures { result ≡ list_any spec.exceeds_foreign keys.now }
{
    keys.iter().any(exceeds_foreign)
}

fn exceeds_assignment(assignment: &Assignment) -> bool
    ensures { result ≡ spec.exceeds_assignment assignment.now }
{
    exceeds_expr(&assignment.expr)
}

fn has_long_assignment(assignments: &[Assignment]) -> bool
    ensures { result ≡ list_any spec.exceeds_assignment assignments.now }
{
    assignments.iter().any(exceeds_assignment)
}

fn exceeds_row(row: &ValueRow) -> bool
    ensures { result ≡ spec.exceeds_list row.now }
{
    exceeds_list(row)
}

fn has_long_row(rows: &[ValueRow]) -> bool
    ensures { result ≡ list_any spec.exceeds_list rows.now }
{
    rows.iter().any(exceeds_row)
}

/// Whether the lists and expressions of a request pass a limit.
fn exceeds_request(request: &Request) -> bool
    ensures { result ≡ spec.exceeds_request request.now }
{
    match request {
        Request::CreateTag { parents, .. } => exceeds_list(parents),
        Request::CreateTable {
            columns,
            key,
            foreign,
            ..
        } => {
            exceeds_list(columns)
                || exceeds_list(key)
                || exceeds_list(foreign)
                || has_long_foreign(foreign.items())
        }
        Request::CreateView { select, tags, .. } => exceeds_select(select) || exceeds_list(tags),
        Request::SetLabel { tags } => exceeds_list(tags),
        Request::CreatePrincipal {
            clearance: Some(tags),
            ..
        } => exceeds_list(tags),
        Request::Select(select) => exceeds_select(select),
        Request::Insert {
            columns,
            rows,
            tags,
            ..
        } => {
            exceeds_list(columns)
                || MOST_ROWS < rows.len()
                || exceeds_list(tags)
                || has_long_row(rows.items())
        }
        Request::Update {
            assignments,
            tags,
            ..
        } => {
            exceeds_list(assignments)
                || exceeds_list(tags)
                || has_long_assignment(assignments.items())
        }
        _ => false,
    }
}
