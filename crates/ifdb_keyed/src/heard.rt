// What is heard of a line.
ghost use Rattle.std.specs.Prelude.{◌≡◌, IfOk, Some, take};
ghost use Rattle.ifdb_lex.specs.Line.{is_blank};
ghost use Rattle.ifdb_keyed.specs.Keyed.{keyed_line};
ghost use Rattle.ifdb_keyed.specs.Marks.{first_mark, heard_request, is_h, line_for};

use crate::{AdminKey, OutOfMemory};
use ifdb_parse::{ParseFault, parse};
use ifdb_syntax::Request;
use std::alloc::Global;

/// What is heard of a line.
#[derive(Clone, Copy, Debug, PartialEq, Eq)]
pub enum Heard {
    /// The line, as it was said: it is no HELLO of admin.
    AsSaid,
    /// HELLO of admin with admin's own key: the line said the server's.
    Admin,
    /// HELLO of admin with no key: the line said another.
    Nobody,
}

/// What is heard of a line by a server with this key for admin. The only error is want of memory, which only a line takes that begins
/// with an H, in either case, behind spaces and tabs. In time the line's length.
#[tactic(auto, using(crate::proofs::Requests::heard_other, crate::proofs::Requests::heard_fault, crate::proofs::Requests::heard_of_request))]
pub fn heard_in(alloc: Global, key: &AdminKey, line: &[u8]) -> Result<Heard, OutOfMemory>
    ensures { IfOk result (λ heard.
        line_for heard line.now ≡ keyed_line (take key.now.count key.now.bytes) line.now) }
{
    if !begins_with_h(line) {
        return Ok(Heard::AsSaid);
    }
    match parse(alloc, line) {
        Ok(request) => {
            let heard = heard_of(key, &request);
            drop(request);
            Ok(heard)
        }
        Err(ParseFault::Syntax(_) | ParseFault::Limit) => Ok(Heard::AsSaid),
        Err(ParseFault::OutOfMemory) => Err(OutOfMemory),
    }
}

/// What is heard of a request.
fn heard_of(key: &AdminKey, request: &Request) -> Heard
    ensures { result ≡ heard_request (take key.now.count key.now.bytes) request.now }
{
    match request {
        Request::Hello { name, key: said } => {
            if name.as_str() != "admin" {
                return Heard::AsSaid;
            }
            if said.as_str().as_bytes() == key.bytes() {
                return Heard::Admin;
            }
            Heard::Nobody
        }
        _ => Heard::AsSaid,
    }
}

/// Whether the first byte that is no space and no tab is an H, in either case.
#[tactic(auto, using(crate::proofs::FirstMark::mark_on, crate::proofs::FirstMark::mark_here, crate::proofs::FirstMark::mark_none))]
fn begins_with_h(line: &[u8]) -> bool
    ensures { result ≡ is_h (first_mark line.now) }
{
    for byte in line {
        if !is_blank(*byte) {
            return is_letter_h(*byte);
        }
    }
    false
}

/// Whether this byte is a space or a tab.
fn is_blank(byte: u8) -> bool
    ensures { result ≡ is_blank byte }
{
    byte == b' ' || byte == b'\t'
}

/// Whether this byte is an H, in either case.
fn is_letter_h(byte: u8) -> bool
    ensures { result ≡ is_h (Some byte) }
{
    byte == b'H' || byte == b'h'
}
