// Requests on sessions, principals, tags and labels.
ghost use Rattle.ifdb_parse.specs.theory.Gives.{IsRead};
ghost use Rattle.ifdb_parse.specs.rules.Requests as spec;

use crate::creations::create;
use crate::names::some_names_in_parens;
use crate::shared::{Read, name, text, token};
use ifdb_syntax::{Lexeme, Request};
use std::alloc::Global;

/// `HELLO name KEY text`.
#[tactic(auto, unfolding(crate::specs::rules::Requests::hello))]
fn hello(alloc: Global, lexemes: &[Lexeme]) -> Read<'_, Request>
    ensures { IsRead result (spec.hello lexemes.now) }
{
    let rest = token(lexemes, Lexeme::Hello)?;
    let (name, rest) = name(alloc, rest)?;
    let rest = token(rest, Lexeme::Key)?;
    let (key, rest) = text(alloc, rest)?;
    Ok((Request::Hello { name, key }, rest))
}

/// `GRANT name TO name`.
#[tactic(auto, unfolding(crate::specs::rules::Requests::grant))]
fn grant(alloc: Global, lexemes: &[Lexeme]) -> Read<'_, Request>
    ensures { IsRead result (spec.grant lexemes.now) }
{
    let rest = token(lexemes, Lexeme::Grant)?;
    let (tag, rest) = name(alloc, rest)?;
    let rest = token(rest, Lexeme::To)?;
    let (to, rest) = name(alloc, rest)?;
    Ok((Request::Grant { tag, to }, rest))
}

/// `REVOKE name FROM name`.
#[tactic(auto, unfolding(crate::specs::rules::Requests::revoke))]
fn revoke(alloc: Global, lexemes: &[Lexeme]) -> Read<'_, Request>
    ensures { IsRead result (spec.revoke lexemes.now) }
{
    let rest = token(lexemes, Lexeme::Revoke)?;
    let (tag, rest) = name(alloc, rest)?;
    let rest = token(rest, Lexeme::From)?;
    let (from, rest) = name(alloc, rest)?;
    Ok((Request::Revoke { tag, from }, rest))
}

/// `SET LABEL ( [names] )`.
#[tactic(auto, unfolding(crate::specs::rules::Requests::set_label))]
fn set_label(alloc: Global, lexemes: &[Lexeme]) -> Read<'_, Request>
    ensures { IsRead result (spec.set_label lexemes.now) }
{
    let rest = token(lexemes, Lexeme::Set)?;
    let rest = token(rest, Lexeme::Label)?;
    let (tags, rest) = some_names_in_parens(alloc, rest)?;
    Ok((Request::SetLabel { tags }, rest))
}

/// `SHOW LABEL`.
#[tactic(auto, unfolding(crate::specs::rules::Requests::show_label))]
fn show_label(lexemes: &[Lexeme]) -> Read<'_, Request>
    ensures { IsRead result (spec.show_label lexemes.now) }
{
    let rest = token(lexemes, Lexeme::Show)?;
    let rest = token(rest, Lexeme::Label)?;
    Ok((Request::ShowLabel, rest))
}

/// HELLO, CREATE, GRANT, REVOKE, SET LABEL and SHOW LABEL.
#[tactic(auto, unfolding(crate::specs::rules::Requests::authority))]
pub(crate) fn authority(alloc: Global, lexemes: &[Lexeme]) -> Read<'_, Request>
    ensures { IsRead result (spec.authority lexemes.now) }
{
    match lexemes {
        [Lexeme::Hello, ..] => hello(alloc, lexemes),
        [Lexeme::Create, ..] => create(alloc, lexemes),
        [Lexeme::Grant, ..] => grant(alloc, lexemes),
        [Lexeme::Revoke, ..] => revoke(alloc, lexemes),
        [Lexeme::Set, ..] => set_label(alloc, lexemes),
        _ => show_label(lexemes),
    }
}
