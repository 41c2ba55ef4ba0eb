// What stands behind CREATE.
ghost use Rattle.ifdb_parse.specs.theory.Gives.{IsRead};
ghost use Rattle.ifdb_parse.specs.rules.Requests as spec;

use crate::names::{names_behind, names_in_parens, some_names_in_parens};
use crate::queries::plain;
use crate::shared::{Read, name, text, token};
use crate::tables::table;
use ifdb_syntax::{Lexeme, Request, Select};
use ifdb_value::{Name, Names};
use std::alloc::Global;

/// `[CLEARANCE ( [names] )]`.
#[tactic(auto, unfolding(crate::specs::rules::Requests::clearance, crate::specs::rules::Shared::token))]
fn clearance(alloc: Global, lexemes: &[Lexeme]) -> Read<'_, Option<Names>>
    ensures { IsRead result (spec.clearance lexemes.now) }
{
    match lexemes {
        [Lexeme::Clearance, rest @ ..] => {
            let (tags, rest) = some_names_in_parens(alloc, rest)?;
            Ok((Some(tags), rest))
        }
        _ => Ok((None, lexemes)),
    }
}

/// `PRINCIPAL name KEY text [CLEARANCE ( [names] )]`.
#[tactic(auto, unfolding(crate::specs::rules::Requests::principal))]
fn principal(alloc: Global, lexemes: &[Lexeme]) -> Read<'_, Request>
    ensures { IsRead result (spec.principal lexemes.now) }
{
    let rest = token(lexemes, Lexeme::Principal)?;
    let (name, rest) = name(alloc, rest)?;
    let rest = token(rest, Lexeme::Key)?;
    let (key, rest) = text(alloc, rest)?;
    let (clearance, rest) = clearance(alloc, rest)?;
    Ok((
        Request::CreatePrincipal {
            name,
            key,
            clearance,
        },
        rest,
    ))
}

/// `TAG name [IN ( names )]`.
#[tactic(auto, unfolding(crate::specs::rules::Requests::tag))]
fn tag(alloc: Global, compound: bool, lexemes: &[Lexeme]) -> Read<'_, Request>
    ensures { IsRead result (spec.tag compound lexemes.now) }
{
    let rest = token(lexemes, Lexeme::Tag)?;
    let (name, rest) = name(alloc, rest)?;
    let (parents, rest) = names_behind(alloc, rest, Lexeme::In)?;
    Ok((
        Request::CreateTag {
            name,
            compound,
            parents,
        },
        rest,
    ))
}

/// `COMPOUND TAG name [IN ( names )]`.
#[tactic(auto, unfolding(crate::specs::rules::Requests::compound_tag))]
fn compound_tag(alloc: Global, lexemes: &[Lexeme]) -> Read<'_, Request>
    ensures { IsRead result (spec.compound_tag lexemes.now) }
{
    let rest = token(lexemes, Lexeme::Compound)?;
    tag(alloc, true, rest)
}

/// `WITH DECLASSIFYING ( names )`, behind what a view shows.
#[tactic(auto, unfolding(crate::specs::rules::Requests::view_tags))]
fn view_tags(alloc: Global, name: Name, select: Select, lexemes: &[Lexeme]) -> Read<'_, Request>
    ensures { IsRead result (spec.view_tags name select lexemes.now) }
{
    let rest = token(lexemes, Lexeme::With)?;
    let rest = token(rest, Lexeme::Declassifying)?;
    let (tags, rest) = names_in_parens(alloc, rest)?;
    Ok((Request::CreateView { name, select, tags }, rest))
}

/// `VIEW name AS plain WITH DECLASSIFYING ( names )`.
#[tactic(auto, unfolding(crate::specs::rules::Requests::view))]
fn view(alloc: Global, lexemes: &[Lexeme]) -> Read<'_, Request>
    ensures { IsRead result (spec.view lexemes.now) }
{
    let rest = token(lexemes, Lexeme::View)?;
    let (name, rest) = name(alloc, rest)?;
    let rest = token(rest, Lexeme::As)?;
    let (select, rest) = plain(alloc, rest)?;
    view_tags(alloc, name, select, rest)
}

/// What stands behind CREATE.
#[tactic(auto, unfolding(crate::specs::rules::Requests::created))]
fn created(alloc: Global, lexemes: &[Lexeme]) -> Read<'_, Request>
    ensures { IsRead result (spec.created lexemes.now) }
{
    match lexemes {
        [Lexeme::Principal, ..] => principal(alloc, lexemes),
        [Lexeme::Tag, ..] => tag(alloc, false, lexemes),
        [Lexeme::Compound, ..] => compound_tag(alloc, lexemes),
        [Lexeme::Table, ..] => table(alloc, lexemes),
        _ => view(alloc, lexemes),
    }
}

/// CREATE, and what stands behind it.
#[tactic(auto, unfolding(crate::specs::rules::Requests::create))]
pub(crate) fn create(alloc: Global, lexemes: &[Lexeme]) -> Read<'_, Request>
    ensures { IsRead result (spec.create lexemes.now) }
{
    let rest = token(lexemes, Lexeme::Create)?;
    created(alloc, rest)
}
