// Columns, literals and expressions.
ghost use Rattle.std.specs.Prelude.{◌≡◌};
ghost use Rattle.ifdb_syntax.specs.Reading.{bounded};
ghost use Rattle.ifdb_parse.specs.theory.Gives.{IsRead, IsShorter};
ghost use Rattle.ifdb_parse.specs.rules.Expressions as spec;

use crate::join::{add, mul, sub};
use crate::list::Member;
use crate::shared::{Read, name};
use crate::stop::Stop;
use ifdb_syntax::{ColumnRef, Expr, Lexeme};
use ifdb_value::{Name, Value};
use std::alloc::Global;

/// `ref = name [. name]`.
#[tactic(auto, unfolding(crate::specs::rules::Expressions::column_ref, crate::specs::rules::Shared::token))]
pub(crate) fn column_ref(alloc: Global, lexemes: &[Lexeme]) -> Read<'_, ColumnRef>
    ensures value { IsRead result (spec.column_ref lexemes.now) }
    ensures shorter { IsShorter result lexemes.now }
{
    let (first, rest) = name(alloc, lexemes)?;
    match rest {
        [Lexeme::Dot, rest @ ..] => {
            let (column, rest) = name(alloc, rest)?;
            Ok((
                ColumnRef {
                    source: Some(first),
                    column,
                },
                rest,
            ))
        }
        _ => Ok((
            ColumnRef {
                source: None,
                column: first,
            },
            rest,
        )),
    }
}

/// What a literal `number` stands for: itself, or the greatest value where it is greater, which no line may have.
fn plain(number: u64) -> i64
    ensures { result ≡ bounded.plain number }
{
    match i64::try_from(number) {
        Ok(number) => number,
        Err(_) => i64::MAX,
    }
}

/// What a literal `- number` stands for: its negative, or the least value where it is less, which no line may have.
fn negated(number: u64) -> i64
    ensures { result ≡ bounded.negated number }
{
    match i64::try_from(number) {
        Ok(number) => -number,
        Err(_) => i64::MIN,
    }
}

/// `literal = number | - number | text | NULL`.
#[tactic(auto, unfolding(crate::specs::rules::Expressions::literal, crate::specs::rules::Shared::token, crate::specs::rules::Shared::number, crate::specs::rules::Shared::text))]
pub(crate) fn literal(alloc: Global, lexemes: &[Lexeme]) -> Read<'_, Value>
    ensures value { IsRead result (spec.literal lexemes.now) }
    ensures shorter { IsShorter result lexemes.now }
{
    match lexemes {
        [Lexeme::Number(number), rest @ ..] => Ok((Value::Int(plain(*number)), rest)),
        [Lexeme::Minus, rest @ ..] => negative(rest),
        [Lexeme::Quoted(text), rest @ ..] => Ok((Value::Text(text.share()?), rest)),
        [Lexeme::Null, rest @ ..] => Ok((Value::Null, rest)),
        _ => Err(Stop::Left(lexemes.len())),
    }
}

/// The number behind the `-` of a literal.
#[tactic(auto, unfolding(crate::specs::rules::Expressions::negative, crate::specs::rules::Shared::number))]
fn negative(lexemes: &[Lexeme]) -> Read<'_, Value>
    ensures value { IsRead result (spec.negative lexemes.now) }
    ensures shorter { IsShorter result lexemes.now }
{
    match lexemes {
        [Lexeme::Number(number), rest @ ..] => Ok((Value::Int(negated(*number)), rest)),
        _ => Err(Stop::Left(lexemes.len())),
    }
}

/// `ref | literal`.
#[tactic(auto, unfolding(crate::specs::rules::Expressions::atom))]
fn atom(alloc: Global, lexemes: &[Lexeme]) -> Read<'_, Expr>
    ensures value { IsRead result (spec.atom lexemes.now) }
    ensures shorter { IsShorter result lexemes.now }
{
    match lexemes {
        [Lexeme::Name(_), ..] => {
            let (column, rest) = column_ref(alloc, lexemes)?;
            Ok((Expr::Column(column), rest))
        }
        _ => {
            let (value, rest) = literal(alloc, lexemes)?;
            Ok((Expr::Literal(value), rest))
        }
    }
}

/// `factor = ref | literal | ( expr )`.
#[cycle(expr)]
#[tactic(auto, unfolding(crate::specs::rules::Expressions::factor, crate::specs::rules::Shared::token))]
fn factor(alloc: Global, lexemes: &[Lexeme]) -> Read<'_, Expr>
    ensures value { IsRead result (spec.factor spec.expr lexemes.now) }
    ensures shorter { IsShorter result lexemes.now }
{
    match lexemes {
        [
            Lexeme::Name(_) | Lexeme::Number(_) | Lexeme::Minus | Lexeme::Quoted(_) | Lexeme::Null,
            ..
        ] => { atom(alloc, lexemes) }
        [Lexeme::Open, rest @ ..] => {
            let (inner, rest) = expr(alloc, rest)?;
            match rest {
                [Lexeme::Close, rest @ ..] => Ok((inner, rest)),
                _ => Err(Stop::Left(rest.len())),
            }
        }
        _ => Err(Stop::Left(lexemes.len())),
    }
}

/// `* factor`, behind what is on the left.
#[cycle(expr)]
#[tactic(auto, unfolding(crate::specs::rules::Expressions::product_round, crate::specs::rules::Shared::token))]
fn product_round(alloc: Global, left: Expr, lexemes: &[Lexeme]) -> Read<'_, Expr>
    ensures value { IsRead result (spec.product_round (spec.factor spec.expr) left lexemes.now) }
    ensures shorter { IsShorter result lexemes.now }
{
    match lexemes {
        [Lexeme::Star, rest @ ..] => {
            let (right, rest) = factor(alloc, rest)?;
            Ok((mul(alloc, left, right)?, rest))
        }
        _ => Err(Stop::Left(lexemes.len())),
    }
}

/// `term = factor {* factor}`.
#[cycle(expr)]
#[tactic(auto, using(crate::proofs::rules::Loops::products_are, crate::proofs::rules::Loops::products_go), unfolding(crate::specs::rules::Expressions::term))]
fn term(alloc: Global, lexemes: &[Lexeme]) -> Read<'_, Expr>
    ensures value { IsRead result (spec.term (spec.factor spec.expr) lexemes.now) }
    ensures shorter { IsShorter result lexemes.now }
{
    let (mut left, mut rest) = factor(alloc, lexemes)?;
    'products: while let [Lexeme::Star, ..] = rest {
        let (longer, after) = product_round(alloc, left, rest)?;
        left = longer;
        rest = after;
    }
    Ok((left, rest))
}

/// `+ term` or `- term`, behind what is on the left.
#[cycle(expr)]
#[tactic(auto, unfolding(crate::specs::rules::Expressions::sum_round, crate::specs::rules::Shared::token))]
fn sum_round(alloc: Global, left: Expr, lexemes: &[Lexeme]) -> Read<'_, Expr>
    ensures value { IsRead result (spec.sum_round (spec.term (spec.factor spec.expr)) left lexemes.now) }
    ensures shorter { IsShorter result lexemes.now }
{
    match lexemes {
        [Lexeme::Plus, rest @ ..] => {
            let (right, rest) = term(alloc, rest)?;
            Ok((add(alloc, left, right)?, rest))
        }
        [Lexeme::Minus, rest @ ..] => {
            let (right, after) = term(alloc, rest)?;
            Ok((sub(alloc, left, right)?, after))
        }
        _ => Err(Stop::Left(lexemes.len())),
    }
}

/// `expr = term {(+ | -) term}`.
#[cycle(expr)]
#[tactic(auto, using(crate::proofs::rules::Loops::sums_are, crate::proofs::rules::Loops::sums_go, crate::proofs::rules::Expressions::expr_is), unfolding(crate::specs::rules::Expressions::sum))]
pub(crate) fn expr(alloc: Global, lexemes: &[Lexeme]) -> Read<'_, Expr>
    ensures value { IsRead result (spec.expr lexemes.now) }
    ensures shorter { IsShorter result lexemes.now }
{
    let (mut left, mut rest) = term(alloc, lexemes)?;
    'sums: while let [Lexeme::Plus | Lexeme::Minus, ..] = rest {
        let (longer, after) = sum_round(alloc, left, rest)?;
        left = longer;
        rest = after;
    }
    Ok((left, rest))
}

impl Member for ColumnRef {
    ghost use Rattle.ifdb_parse.specs.rules.Expressions.{column_ref as column_ref_parser};

    ghost parser = { column_ref_parser };

    #[tactic(auto, using(crate::proofs::rules::Members::ref_takes))]
    fn read(alloc: Global, lexemes: &[Lexeme]) -> Read<'_, ColumnRef> {
        column_ref(alloc, lexemes)
    }
}

impl Member for Value {
    ghost use Rattle.ifdb_parse.specs.rules.Expressions.{literal as literal_parser};

    ghost parser = { literal_parser };

    #[tactic(auto, using(crate::proofs::rules::Members::literal_takes))]
    fn read(alloc: Global, lexemes: &[Lexeme]) -> Read<'_, Value> {
        literal(alloc, lexemes)
    }
}
