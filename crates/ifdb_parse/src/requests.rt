// All requests, and the line of one.
ghost use Rattle.std.specs.Prelude.{◌≡◌};
ghost use Rattle.ifdb_syntax.specs.Words.{BEGIN, COMMIT, ROLLBACK, BYE};
ghost use Rattle.ifdb_parse.specs.theory.Gives.{Gives, IsRead};
ghost use Rattle.ifdb_parse.specs.theory.Kinds.{sees};
ghost use Rattle.ifdb_parse.specs.theory.Parser.{ended_at};
ghost use Rattle.ifdb_parse.specs.rules.Requests as spec;

use crate::authority::authority;
use crate::shared::{Read, token};
use crate::statements::{delete, insert, query, update};
use crate::stop::Stop;
use ifdb_syntax::{Lexeme, Request};
use std::alloc::Global;

/// `BEGIN`.
#[tactic(auto, unfolding(crate::specs::rules::Requests::word))]
fn begin(lexemes: &[Lexeme]) -> Read<'_, Request>
    ensures { IsRead result (spec.word BEGIN Request.Begin lexemes.now) }
{
    let rest = token(lexemes, Lexeme::Begin)?;
    Ok((Request::Begin, rest))
}

/// `COMMIT`.
#[tactic(auto, unfolding(crate::specs::rules::Requests::word))]
fn commit(lexemes: &[Lexeme]) -> Read<'_, Request>
    ensures { IsRead result (spec.word COMMIT Request.Commit lexemes.now) }
{
    let rest = token(lexemes, Lexeme::Commit)?;
    Ok((Request::Commit, rest))
}

/// `ROLLBACK`.
#[tactic(auto, unfolding(crate::specs::rules::Requests::word))]
fn rollback(lexemes: &[Lexeme]) -> Read<'_, Request>
    ensures { IsRead result (spec.word ROLLBACK Request.Rollback lexemes.now) }
{
    let rest = token(lexemes, Lexeme::Rollback)?;
    Ok((Request::Rollback, rest))
}

/// `BYE`.
#[tactic(auto, unfolding(crate::specs::rules::Requests::word))]
fn bye(lexemes: &[Lexeme]) -> Read<'_, Request>
    ensures { IsRead result (spec.word BYE Request.Bye lexemes.now) }
{
    let rest = token(lexemes, Lexeme::Bye)?;
    Ok((Request::Bye, rest))
}

/// Requests on sessions, principals, tags and labels, and on transactions.
#[tactic(auto, unfolding(crate::specs::rules::Requests::session))]
fn session(alloc: Global, lexemes: &[Lexeme]) -> Read<'_, Request>
    ensures { IsRead result (spec.session lexemes.now) }
{
    match lexemes {
        [
            Lexeme::Hello
            | Lexeme::Create
            | Lexeme::Grant
            | Lexeme::Revoke
            | Lexeme::Set
            | Lexeme::Show,
            ..
        ] => authority(alloc, lexemes),
        [Lexeme::Begin, ..] => begin(lexemes),
        [Lexeme::Commit, ..] => commit(lexemes),
        [Lexeme::Rollback, ..] => rollback(lexemes),
        _ => bye(lexemes),
    }
}

/// Whether a request of `session` begins here.
fn begins_session(lexemes: &[Lexeme]) -> bool
    ensures { result ≡ sees spec.in_session lexemes.now }
{
    matches!(
        lexemes,
        [
            Lexeme::Hello
                | Lexeme::Create
                | Lexeme::Grant
                | Lexeme::Revoke
                | Lexeme::Set
                | Lexeme::Show
                | Lexeme::Begin
                | Lexeme::Commit
                | Lexeme::Rollback
                | Lexeme::Bye,
            ..
        ]
    )
}

/// A SELECT, INSERT, UPDATE or DELETE.
#[tactic(auto, unfolding(crate::specs::rules::Requests::statement))]
fn statement(alloc: Global, lexemes: &[Lexeme]) -> Read<'_, Request>
    ensures { IsRead result (spec.statement lexemes.now) }
{
    match lexemes {
        [Lexeme::Select, ..] => query(alloc, lexemes),
        [Lexeme::Insert, ..] => insert(alloc, lexemes),
        [Lexeme::Update, ..] => update(alloc, lexemes),
        _ => delete(alloc, lexemes),
    }
}

/// A request.
#[tactic(auto, using(crate::proofs::rules::Loops::request_is))]
fn request(alloc: Global, lexemes: &[Lexeme]) -> Read<'_, Request>
    ensures { IsRead result (spec.request lexemes.now) }
{
    if begins_session(lexemes) {
        session(alloc, lexemes)
    } else {
        statement(alloc, lexemes)
    }
}

/// `line = request [;]`.
#[tactic(auto, unfolding(crate::specs::rules::Requests::line, crate::specs::rules::Shared::token))]
fn line(alloc: Global, lexemes: &[Lexeme]) -> Read<'_, Request>
    ensures { IsRead result (spec.line lexemes.now) }
{
    let (found, rest) = request(alloc, lexemes)?;
    match rest {
        [Lexeme::Semicolon, rest @ ..] => Ok((found, rest)),
        _ => Ok((found, rest)),
    }
}

/// What was read, if no lexeme is left.
fn ended(found: Request, rest: &[Lexeme]) -> Result<Request, Stop>
    ensures { Gives (λ x. x) result (ended_at found rest.now) }
{
    match rest {
        [] => Ok(found),
        _ => Err(Stop::Left(rest.len())),
    }
}

/// The request that all of these lexemes are; or how many are left from the first that fits nothing on.
#[tactic(auto, unfolding(crate::specs::rules::Requests::whole))]
pub(crate) fn whole(alloc: Global, lexemes: &[Lexeme]) -> Result<Request, Stop>
    ensures { Gives (λ x. x) result (spec.whole lexemes.now) }
{
    let (found, rest) = line(alloc, lexemes)?;
    ended(found, rest)
}
