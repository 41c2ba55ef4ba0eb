// From a line to its request.
ghost use Rattle.std.specs.Prelude.{◌≡◌, ℕ, Ok, Err, IfOk};
ghost use Rattle.ifdb_parse.specs.Parsed.{parsed, fault_of as fault_of_tokens, limited as limited_tree, place as place_of};

use crate::fault::ParseFault;
use crate::lexemes::{lexemes_of, without_return};
use crate::limits::exceeds_tree;
use crate::requests::whole;
use crate::stop::Stop;
use ifdb_lex::{LexFault, Token, lex};
use ifdb_syntax::{Lexeme, Request};
use std::alloc::Global;

/// The request of a line, once one `\r` at its end is dropped.
///
/// The faults come in this order. `Syntax` with the least place where no token and no blank stands, where a text begins
/// that isn't closed, or where bytes begin that are not UTF-8. `Limit` where a name has more than 63 bytes, a number is
/// above 2^63, more than 32 parentheses are open at once, or there are more than 64 words NOT. `Syntax` with the start of
/// the first token such that the tokens before it and it begin no line of the grammar; where all tokens begin a line and
/// are none, with the line's length in bytes. `Limit` where the number 2^63 stands anywhere but in a literal `- number`;
/// where a list has more than 64 columns, names, items, assignments, keys, or literals of a row; where there are more
/// than 4 sources or 256 rows; or where an expression has more than 64 operators. `OutOfMemory` may come instead of any
/// answer.
///
/// In time and memory the length of the line.
#[tactic(auto, using(crate::proofs::ParsedSteps::parsed_fault, crate::proofs::ParsedSteps::parsed_request, crate::proofs::ParsedSteps::parsed_left))]
pub fn parse(alloc: Global, line: &[u8]) -> Result<Request, ParseFault>
    // What is read is the line's request.
    ensures request { IfOk result (λ request. parsed line.now ≡ Ok request) }
    // A place that is told is the line's.
    ensures place { (at : ℕ) → result ≡ Err (ParseFault.Syntax at) → parsed line.now ≡ Err (ParseFault.Syntax at) }
    // A limit that is told is passed.
    ensures limit { result ≡ Err ParseFault.Limit → parsed line.now ≡ Err ParseFault.Limit }
{
    let tokens = match lex(alloc, line) {
        Ok(tokens) => tokens,
        Err(fault) => return Err(fault_of(fault)),
    };
    let lexemes = lexemes_of(alloc, line, tokens.items())?;
    let line = without_return(line);
    match whole(alloc, lexemes.items()) {
        Ok(request) => limited(lexemes.items(), request),
        Err(Stop::Left(left)) => Err(ParseFault::Syntax(place(line, tokens.items(), left))),
        Err(Stop::OutOfMemory) => Err(ParseFault::OutOfMemory),
    }
}

/// The fault of a line whose tokens have this one.
fn fault_of(fault: LexFault) -> ParseFault
    ensures { result ≡ fault_of_tokens fault }
{
    match fault {
        LexFault::At(at) => ParseFault::Syntax(at),
        LexFault::Limit => ParseFault::Limit,
        LexFault::OutOfMemory => ParseFault::OutOfMemory,
    }
}

/// The request that these lexemes are, or `Limit` where it passes a limit.
fn limited(lexemes: &[Lexeme], request: Request) -> Result<Request, ParseFault>
    ensures { result ≡ limited_tree lexemes.now request }
{
    if exceeds_tree(lexemes, &request) {
        return Err(ParseFault::Limit);
    }
    Ok(request)
}

/// The place in bytes from which on so many of the tokens are left.
fn place(line: &[u8], tokens: &[Token], left: usize) -> usize
    ensures { result ≡ place_of line.now tokens.now left }
{
    match &tokens[tokens.len().saturating_sub(left)..] {
        [] => line.len(),
        [token, ..] => token.start,
    }
}
