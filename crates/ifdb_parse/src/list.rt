// Lists whose members stand between commas.
ghost use Rattle.ifdb_syntax.specs.Words.{Lexemes, COMMA};
ghost use Rattle.ifdb_parse.specs.theory.Gives.{IsRead, IsShorter, Takes};
ghost use Rattle.ifdb_parse.specs.theory.Parser.{Outcome};
ghost use Rattle.ifdb_parse.specs.rules.Shared as spec;

use crate::shared::Read;
use crate::stop::Stop;
use ifdb_syntax::Lexeme;
use ifdb_value::Sequence;
use std::alloc::Global;

/// What stands between the commas of a list.
pub(crate) trait Member: Drop {
    /// The parser of a member in the definitions.
    ghost parser: { Lexemes → Outcome Self };

    /// Reads a member.
    fn read(alloc: Global, lexemes: &[Lexeme]) -> Read<'_, Self>
        ensures value { IsRead result (parser lexemes.now) }
        ensures shorter { IsShorter result lexemes.now }
        ensures takes { Takes parser };
}

/// A comma and the member behind it, which goes to the end of the list.
#[tactic(auto, unfolding(crate::specs::rules::Shared::token))]
fn next_member<T: Member>(
    alloc: Global,
    mut found: Sequence<T>,
    lexemes: &[Lexeme],
) -> Read<'_, Sequence<T>>
    ensures value { IsRead result (spec.next_member COMMA T.parser found lexemes.now) }
    ensures shorter { IsShorter result lexemes.now }
{
    match lexemes {
        [Lexeme::Comma, rest @ ..] => {
            let (member, rest) = T::read(alloc, rest)?;
            found.push(member)?;
            Ok((found, rest))
        }
        _ => Err(Stop::Left(lexemes.len())),
    }
}

/// `member {, member}`.
#[tactic(auto, using(crate::proofs::rules::Lists::commas_are, crate::proofs::rules::Lists::commas_go))]
pub(crate) fn commas<T: Member>(alloc: Global, lexemes: &[Lexeme]) -> Read<'_, Sequence<T>>
    ensures value { IsRead result (spec.commas T.parser lexemes.now) }
    ensures shorter { IsShorter result lexemes.now }
{
    let (first, mut rest) = T::read(alloc, lexemes)?;
    let mut found = Sequence::new(alloc);
    found.push(first)?;
    'members: while let [Lexeme::Comma, ..] = rest {
        let (more, after) = next_member(alloc, found, rest)?;
        found = more;
        rest = after;
    }
    Ok((found, rest))
}
