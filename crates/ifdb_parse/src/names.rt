// Lists of names.
ghost use Rattle.ifdb_syntax.specs.Words.{kind as kind_of};
ghost use Rattle.ifdb_parse.specs.theory.Gives.{IsRead, IsShorter};
ghost use Rattle.ifdb_parse.specs.rules.Shared as shared;
ghost use Rattle.ifdb_parse.specs.rules.Requests as spec;

use crate::kinds::kind;
use crate::list::commas;
use crate::shared::{Read, token};
use ifdb_syntax::Lexeme;
use ifdb_value::{Names, Sequence};
use std::alloc::Global;

/// `names = name {, name}`.
#[tactic(auto, unfolding(crate::specs::rules::Shared::names))]
fn names(alloc: Global, lexemes: &[Lexeme]) -> Read<'_, Names>
    ensures value { IsRead result (shared.names lexemes.now) }
    ensures shorter { IsShorter result lexemes.now }
{
    commas(alloc, lexemes)
}

/// `( names )`.
pub(crate) fn names_in_parens(alloc: Global, lexemes: &[Lexeme]) -> Read<'_, Names>
    ensures value { IsRead result (shared.parens shared.names lexemes.now) }
    ensures shorter { IsShorter result lexemes.now }
{
    let rest = token(lexemes, Lexeme::Open)?;
    let (names, rest) = names(alloc, rest)?;
    let rest = token(rest, Lexeme::Close)?;
    Ok((names, rest))
}

/// `[names]`.
#[tactic(auto, unfolding(crate::specs::rules::Requests::some_names))]
fn some_names(alloc: Global, lexemes: &[Lexeme]) -> Read<'_, Names>
    ensures { IsRead result (spec.some_names lexemes.now) }
{
    match lexemes {
        [Lexeme::Name(_), ..] => names(alloc, lexemes),
        _ => Ok((Sequence::new(alloc), lexemes)),
    }
}

/// `( [names] )`.
pub(crate) fn some_names_in_parens(alloc: Global, lexemes: &[Lexeme]) -> Read<'_, Names>
    ensures { IsRead result (shared.parens spec.some_names lexemes.now) }
{
    let rest = token(lexemes, Lexeme::Open)?;
    let (names, rest) = some_names(alloc, rest)?;
    let rest = token(rest, Lexeme::Close)?;
    Ok((names, rest))
}

/// `[word ( names )]`.
#[tactic(auto, unfolding(crate::specs::rules::Requests::names_behind, crate::specs::rules::Shared::token))]
pub(crate) fn names_behind(alloc: Global, lexemes: &[Lexeme], word: Lexeme) -> Read<'_, Names>
    ensures { IsRead result (spec.names_behind (kind_of word) lexemes.now) }
{
    match lexemes {
        [first, rest @ ..] if kind(first) == kind(&word) => names_in_parens(alloc, rest),
        _ => Ok((Sequence::new(alloc), lexemes)),
    }
}
