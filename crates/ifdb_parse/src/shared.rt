// What the rules of the grammar are made of.
ghost use Rattle.std.specs.Prelude.{◌<◌, length, IfOk};
ghost use Rattle.ifdb_syntax.specs.Words.{kind as kind_of};
ghost use Rattle.ifdb_parse.specs.theory.Gives.{Gives, IsRead, IsShorter};
ghost use Rattle.ifdb_parse.specs.rules.Shared as spec;

use crate::kinds::kind;
use crate::list::Member;
use crate::stop::Stop;
use ifdb_syntax::Lexeme;
use ifdb_value::{Name, Word};
use std::alloc::Global;

/// What a rule read, and the lexemes after it; or why it was not read.
pub(crate) type Read<'a, T> = Result<(T, &'a [Lexeme]), Stop>;

/// A reserved word or a symbol.
#[tactic(auto, unfolding(crate::specs::rules::Shared::token))]
pub(crate) fn token(lexemes: &[Lexeme], wanted: Lexeme) -> Result<&[Lexeme], Stop>
    ensures value { Gives (λ rest. (tt, rest.now)) result (spec.token (kind_of wanted) lexemes.now) }
    ensures shorter { IfOk result (λ rest. length rest.now < length lexemes.now) }
{
    match lexemes {
        [first, rest @ ..] if kind(first) == kind(&wanted) => Ok(rest),
        _ => Err(Stop::Left(lexemes.len())),
    }
}

/// A name.
#[tactic(auto, unfolding(crate::specs::rules::Shared::name))]
pub(crate) fn name(alloc: Global, lexemes: &[Lexeme]) -> Read<'_, Name>
    ensures value { IsRead result (spec.name lexemes.now) }
    ensures shorter { IsShorter result lexemes.now }
{
    match lexemes {
        [Lexeme::Name(name), rest @ ..] => Ok((name.share()?, rest)),
        _ => Err(Stop::Left(lexemes.len())),
    }
}

/// A number.
#[tactic(auto, unfolding(crate::specs::rules::Shared::number))]
pub(crate) fn number(lexemes: &[Lexeme]) -> Read<'_, u64>
    ensures value { IsRead result (spec.number lexemes.now) }
    ensures shorter { IsShorter result lexemes.now }
{
    match lexemes {
        [Lexeme::Number(number), rest @ ..] => Ok((*number, rest)),
        _ => Err(Stop::Left(lexemes.len())),
    }
}

/// A text.
#[tactic(auto, unfolding(crate::specs::rules::Shared::text))]
pub(crate) fn text(alloc: Global, lexemes: &[Lexeme]) -> Read<'_, Word>
    ensures value { IsRead result (spec.text lexemes.now) }
    ensures shorter { IsShorter result lexemes.now }
{
    match lexemes {
        [Lexeme::Quoted(text), rest @ ..] => Ok((text.share()?, rest)),
        _ => Err(Stop::Left(lexemes.len())),
    }
}

impl Member for Name {
    ghost use Rattle.ifdb_parse.specs.rules.Shared.{name as name_parser};

    ghost parser = { name_parser };

    #[tactic(auto, using(crate::proofs::rules::Members::name_takes))]
    fn read(alloc: Global, lexemes: &[Lexeme]) -> Read<'_, Name> {
        name(alloc, lexemes)
    }
}
