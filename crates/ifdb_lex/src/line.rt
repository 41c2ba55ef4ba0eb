// The tokens of a line.
ghost use Rattle.std.specs.Prelude.{◌≡◌, Ok, Err, length};
ghost use Rattle.ifdb_lex.specs.Line as spec;

use crate::fault::LexFault;
use crate::front::front;
use crate::token::{Token, Tokens};
use std::alloc::Global;

/// The line without one carriage return at its end.
pub(crate) fn without_return(line: &[u8]) -> &[u8]
    ensures { result.now ≡ spec.without_return line.now }
{
    match line {
        [rest @ .., b'\r'] => rest,
        _ => line,
    }
}

/// Whether this byte may stand between tokens.
fn is_blank(byte: u8) -> bool
    ensures { result ≡ spec.is_blank byte }
{
    byte == b' ' || byte == b'\t'
}

/// The tokens of a line, or the first place that is no blank and where no token begins. There is room at once for a token
/// of every four bytes, so that most lines take memory once.
#[tactic(auto, using(crate::proofs::LineLemmas::token_goes))]
pub(crate) fn tokens_of(alloc: Global, line: &[u8]) -> Result<Tokens, LexFault>
    ensures { spec.Gives result (spec.tokens_of line.now) }
{
    let mut tokens = Tokens::with_capacity(alloc, line.len() / 4)?;
    let mut at = 0;
    while at < line.len() {
        if is_blank(line[at]) {
            at += 1;
            continue;
        }
        let Some((kind, len)) = front(&line[at..]) else {
            return Err(LexFault::At(at));
        };
        let end = at + len;
        tokens.push(Token {
            kind,
            start: at,
            end,
        })?;
        at = end;
    }
    Ok(tokens)
}
