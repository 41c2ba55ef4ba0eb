// Conditions.
ghost use Rattle.std.specs.Prelude.{◌≡◌};
ghost use Rattle.ifdb_syntax.specs.Words.{AND as WORD_AND, OR as WORD_OR};
ghost use Rattle.ifdb_syntax.specs.Conditions.{and_of as and_of_parts, or_of as or_of_parts};
ghost use Rattle.ifdb_parse.specs.theory.Gives.{IsRead, IsShorter};
ghost use Rattle.ifdb_parse.specs.rules.Shared.{next_member};
ghost use Rattle.ifdb_parse.specs.rules.Conditions as spec;

use crate::expressions::{column_ref, literal};
use crate::shared::Read;
use crate::stop::Stop;
use ifdb_syntax::{Cond, Conds, Lexeme, Operand};
use ifdb_value::{Box, Compare, Sequence};
use std::alloc::Global;

/// `operand = ref | literal`.
#[tactic(auto, unfolding(crate::specs::rules::Conditions::operand))]
fn operand(alloc: Global, lexemes: &[Lexeme]) -> Read<'_, Operand>
    ensures value { IsRead result (spec.operand lexemes.now) }
    ensures shorter { IsShorter result lexemes.now }
{
    match lexemes {
        [Lexeme::Name(_), ..] => {
            let (column, rest) = column_ref(alloc, lexemes)?;
            Ok((Operand::Column(column), rest))
        }
        _ => {
            let (value, rest) = literal(alloc, lexemes)?;
            Ok((Operand::Literal(value), rest))
        }
    }
}

/// `compare = = | <> | < | <= | > | >=`.
#[tactic(auto, unfolding(crate::specs::rules::Conditions::compare))]
fn compare(lexemes: &[Lexeme]) -> Read<'_, Compare>
    ensures value { IsRead result (spec.compare lexemes.now) }
    ensures shorter { IsShorter result lexemes.now }
{
    match lexemes {
        [Lexeme::Equal, rest @ ..] => Ok((Compare::Equal, rest)),
        [Lexeme::NotEqual, rest @ ..] => Ok((Compare::NotEqual, rest)),
        [Lexeme::Less, rest @ ..] => Ok((Compare::Less, rest)),
        [Lexeme::AtMost, rest @ ..] => Ok((Compare::AtMost, rest)),
        [Lexeme::Greater, rest @ ..] => Ok((Compare::Greater, rest)),
        [Lexeme::AtLeast, rest @ ..] => Ok((Compare::AtLeast, rest)),
        _ => Err(Stop::Left(lexemes.len())),
    }
}

/// `operand compare operand | operand IS [NOT] NULL`.
#[tactic(auto, unfolding(crate::specs::rules::Conditions::comparison))]
fn comparison(alloc: Global, lexemes: &[Lexeme]) -> Read<'_, Cond>
    ensures value { IsRead result (spec.comparison lexemes.now) }
    ensures shorter { IsShorter result lexemes.now }
{
    let (left, rest) = operand(alloc, lexemes)?;
    match rest {
        [
            Lexeme::Equal
            | Lexeme::NotEqual
            | Lexeme::Less
            | Lexeme::AtMost
            | Lexeme::Greater
            | Lexeme::AtLeast,
            ..
        ] => { compared_with(alloc, left, rest) }
        _ => null_test(left, rest),
    }
}

/// `compare operand`, behind the left operand.
#[tactic(auto, unfolding(crate::specs::rules::Conditions::compared_with))]
fn compared_with(alloc: Global, left: Operand, lexemes: &[Lexeme]) -> Read<'_, Cond>
    ensures value { IsRead result (spec.compared_with left lexemes.now) }
    ensures shorter { IsShorter result lexemes.now }
{
    let (how, rest) = compare(lexemes)?;
    let (right, rest) = operand(alloc, rest)?;
    Ok((Cond::Compare { left, how, right }, rest))
}

/// `IS [NOT] NULL`, behind the operand.
#[tactic(auto, unfolding(crate::specs::rules::Conditions::null_test, crate::specs::rules::Conditions::negates, crate::specs::rules::Shared::token))]
fn null_test(operand: Operand, lexemes: &[Lexeme]) -> Read<'_, Cond>
    ensures value { IsRead result (spec.null_test operand lexemes.now) }
    ensures shorter { IsShorter result lexemes.now }
{
    match lexemes {
        [Lexeme::Is, Lexeme::Not, rest @ ..] => null_word(operand, true, rest),
        [Lexeme::Is, rest @ ..] => null_word(operand, false, rest),
        _ => Err(Stop::Left(lexemes.len())),
    }
}

/// `NULL`, behind `IS` or `IS NOT`.
#[tactic(auto, unfolding(crate::specs::rules::Conditions::null_word, crate::specs::rules::Shared::token))]
fn null_word(operand: Operand, negated: bool, lexemes: &[Lexeme]) -> Read<'_, Cond>
    ensures value { IsRead result (spec.null_word operand negated lexemes.now) }
    ensures shorter { IsShorter result lexemes.now }
{
    match lexemes {
        [Lexeme::Null, rest @ ..] => Ok((Cond::IsNull { operand, negated }, rest)),
        _ => Err(Stop::Left(lexemes.len())),
    }
}

/// The one part, or the node of several.
fn and_of(parts: Conds) -> Cond
    ensures { result ≡ and_of_parts parts }
{
    if parts.len() == 1 {
        let mut parts = parts.into_vec();
        parts.remove(0)
    } else {
        Cond::And(parts)
    }
}

/// The one part, or the node of several.
fn or_of(parts: Conds) -> Cond
    ensures { result ≡ or_of_parts parts }
{
    if parts.len() == 1 {
        let mut parts = parts.into_vec();
        parts.remove(0)
    } else {
        Cond::Or(parts)
    }
}

/// `NOT prim`.
#[cycle(cond)]
#[tactic(auto, unfolding(crate::specs::rules::Conditions::negation, crate::specs::rules::Shared::token))]
fn negation(alloc: Global, lexemes: &[Lexeme]) -> Read<'_, Cond>
    ensures value { IsRead result (spec.negation (spec.prim spec.cond) lexemes.now) }
    ensures shorter { IsShorter result lexemes.now }
{
    match lexemes {
        [Lexeme::Not, rest @ ..] => {
            let (inner, rest) = prim(alloc, rest)?;
            Ok((Cond::Not(Box::new(alloc, inner)?), rest))
        }
        _ => Err(Stop::Left(lexemes.len())),
    }
}

/// `( cond ) | operand compare operand | operand IS [NOT] NULL`.
#[cycle(cond)]
#[tactic(auto, unfolding(crate::specs::rules::Conditions::basic, crate::specs::rules::Shared::token))]
fn basic(alloc: Global, lexemes: &[Lexeme]) -> Read<'_, Cond>
    ensures value { IsRead result (spec.basic spec.cond lexemes.now) }
    ensures shorter { IsShorter result lexemes.now }
{
    match lexemes {
        [Lexeme::Open, rest @ ..] => {
            let (inner, rest) = cond(alloc, rest)?;
            match rest {
                [Lexeme::Close, rest @ ..] => Ok((inner, rest)),
                _ => Err(Stop::Left(rest.len())),
            }
        }
        _ => comparison(alloc, lexemes),
    }
}

/// `prim = NOT prim | ( cond ) | operand compare operand | operand IS [NOT] NULL`.
#[cycle(cond)]
#[tactic(auto, using(crate::proofs::rules::Loops::prim_is))]
fn prim(alloc: Global, lexemes: &[Lexeme]) -> Read<'_, Cond>
    ensures value { IsRead result (spec.prim spec.cond lexemes.now) }
    ensures shorter { IsShorter result lexemes.now }
{
    match lexemes {
        [Lexeme::Not, ..] => negation(alloc, lexemes),
        _ => basic(alloc, lexemes),
    }
}

/// `AND prim`, of which the part goes to the end of the list.
#[cycle(cond)]
#[tactic(auto, unfolding(crate::specs::rules::Shared::token))]
fn next_and(alloc: Global, mut parts: Conds, lexemes: &[Lexeme]) -> Read<'_, Conds>
    ensures value { IsRead result (next_member WORD_AND (spec.prim spec.cond) parts lexemes.now) }
    ensures shorter { IsShorter result lexemes.now }
{
    match lexemes {
        [Lexeme::And, rest @ ..] => {
            let (part, rest) = prim(alloc, rest)?;
            parts.push(part)?;
            Ok((parts, rest))
        }
        _ => Err(Stop::Left(lexemes.len())),
    }
}

/// `conj = prim {AND prim}`.
#[cycle(cond)]
#[tactic(auto, using(crate::proofs::rules::Loops::ands_are, crate::proofs::rules::Loops::ands_go), unfolding(crate::specs::rules::Conditions::conj))]
fn conj(alloc: Global, lexemes: &[Lexeme]) -> Read<'_, Cond>
    ensures value { IsRead result (spec.conj (spec.prim spec.cond) lexemes.now) }
    ensures shorter { IsShorter result lexemes.now }
{
    let (first, mut rest) = prim(alloc, lexemes)?;
    let mut parts = Sequence::new(alloc);
    parts.push(first)?;
    'ands: while let [Lexeme::And, ..] = rest {
        let (more, after) = next_and(alloc, parts, rest)?;
        parts = more;
        rest = after;
    }
    Ok((and_of(parts), rest))
}

/// `OR conj`, of which the part goes to the end of the list.
#[cycle(cond)]
#[tactic(auto, unfolding(crate::specs::rules::Shared::token))]
fn next_or(alloc: Global, mut parts: Conds, lexemes: &[Lexeme]) -> Read<'_, Conds>
    ensures value { IsRead result (next_member WORD_OR (spec.conj (spec.prim spec.cond)) parts lexemes.now) }
    ensures shorter { IsShorter result lexemes.now }
{
    match lexemes {
        [Lexeme::Or, rest @ ..] => {
            let (part, rest) = conj(alloc, rest)?;
            parts.push(part)?;
            Ok((parts, rest))
        }
        _ => Err(Stop::Left(lexemes.len())),
    }
}

/// `cond = conj {OR conj}`.
#[cycle(cond)]
#[tactic(auto, using(crate::proofs::rules::Loops::ors_are, crate::proofs::rules::Loops::ors_go, crate::proofs::rules::Conditions::cond_is), unfolding(crate::specs::rules::Conditions::disj))]
pub(crate) fn cond(alloc: Global, lexemes: &[Lexeme]) -> Read<'_, Cond>
    ensures value { IsRead result (spec.cond lexemes.now) }
    ensures shorter { IsShorter result lexemes.now }
{
    let (first, mut rest) = conj(alloc, lexemes)?;
    let mut parts = Sequence::new(alloc);
    parts.push(first)?;
    'ors: while let [Lexeme::Or, ..] = rest {
        let (more, after) = next_or(alloc, parts, rest)?;
        parts = more;
        rest = after;
    }
    Ok((or_of(parts), rest))
}

/// `[WHERE cond]`.
#[tactic(auto, unfolding(crate::specs::rules::Conditions::condition, crate::specs::rules::Shared::token))]
pub(crate) fn condition(alloc: Global, lexemes: &[Lexeme]) -> Read<'_, Option<Cond>>
    ensures { IsRead result (spec.condition lexemes.now) }
{
    match lexemes {
        [Lexeme::Where, rest @ ..] => {
            let (found, rest) = cond(alloc, rest)?;
            Ok((Some(found), rest))
        }
        _ => Ok((None, lexemes)),
    }
}
