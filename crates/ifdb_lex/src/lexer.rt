// Reading a line as tokens.
ghost use Rattle.std.specs.Prelude.{◌≡◌, ℕ, ◌<◌, length, Ok, Err, IfOk};
ghost use Rattle.std.specs.Str.Lossy.{utf8_valid_len};
ghost use Rattle.ifdb_lex.specs.Line.{IsLaidOut, without_return as request_of};
ghost use Rattle.ifdb_lex.specs.Lex.{lexed};

use crate::fault::LexFault;
use crate::limits::exceeds;
use crate::line::{tokens_of, without_return};
use crate::token::Tokens;
use std::alloc::Global;

/// The tokens of a line, once one `\r` at its end is dropped. Each is the longest that begins at its place; between
/// them, before the first and behind the last stand spaces and tabs.
///
/// `At` with the least place where no token and no blank stands, where a text begins that isn't closed, or where bytes
/// begin that are not UTF-8. If there is none, `Limit` where a name, a number, the open parentheses or the words NOT
/// pass their limit. `OutOfMemory` where an allocation is refused.
///
/// In time and memory the length of the line.
pub fn lex(alloc: Global, line: &[u8]) -> Result<Tokens, LexFault>
    ensures tokens { IfOk result (λ tokens. lexed line.now ≡ Ok tokens) }
    ensures layout { IfOk result (λ tokens. IsLaidOut (request_of line.now) 0 tokens) }
    ensures place { (at : ℕ) → result ≡ Err (LexFault.At at) → lexed line.now ≡ Err (LexFault.At at) }
    ensures limit { result ≡ Err LexFault.Limit → lexed line.now ≡ Err LexFault.Limit }
{
    let line = without_return(line);
    let valid = valid_len(line);
    let tokens = match tokens_of(alloc, line) {
        Ok(tokens) => tokens,
        Err(LexFault::At(at)) => return Err(LexFault::At(at.min(valid))),
        Err(fault) => return Err(fault),
    };
    if valid < line.len() {
        return Err(LexFault::At(valid));
    }
    if exceeds(line, tokens.items()) {
        return Err(LexFault::Limit);
    }
    Ok(tokens)
}

/// How many bytes at the front are UTF-8.
#[tactic(auto, using(crate::proofs::LineLemmas::valid_text))]
fn valid_len(line: &[u8]) -> usize
    ensures { result ≡ utf8_valid_len line.now }
{
    match std::str::from_utf8(line) {
        Ok(text) => text.len(),
        Err(fault) => fault.valid_up_to(),
    }
}
