// What a line of a script asks for.
ghost use Rattle.std.specs.Prelude.{◌≡◌, ◌==◌, ◌<◌, ◌≤◌, ◌^◌, position, IfSome, length};
ghost use Rattle.std.specs.Option.{ForSome};
ghost use Rattle.ifdb_wire.specs.Script.{script_line, short_line, split_at, asks_of, without_return, session_number, digits_number};
ghost use Rattle.ifdb_wire.specs.Script.{asked_by, IsNumbered, IsSessionNumber};

use ifdb_io::LONGEST_LINE;

/// A line of a script that isn't too long.
#[derive(Clone, Copy, Debug, PartialEq, Eq)]
pub enum StepLine<'a> {
    /// Empty, or a comment: no step.
    Skip,
    /// `OPEN`: opens the next session.
    Open,
    /// A session's number, from 1 to 10^18 - 1, and its request.
    Ask(u64, &'a [u8]),
    /// Anything else.
    Stray,
}

/// What a line without its newline asks for, once one `\r` at its end is dropped. Takes no memory. In time the length of what stands before the
/// first space.
pub fn step_line(line: &[u8]) -> StepLine<'_>
    requires { length line.now ≤ LONGEST_LINE }
    ensures step { asked_by result ≡ script_line line.now }
    ensures numbered { IsNumbered result }
{
    short(trimmed(line))
}

// The text without one `\r` at its end.
fn trimmed(line: &[u8]) -> &[u8]
    ensures { result.now ≡ without_return line.now }
{
    line.strip_suffix(b"\r").unwrap_or(line)
}

fn short(line: &[u8]) -> StepLine<'_>
    ensures step { asked_by result ≡ short_line line.now }
    ensures numbered { IsNumbered result }
{
    if line.is_empty() {
        return StepLine::Skip;
    }
    if line[0] == b'#' {
        return StepLine::Skip;
    }
    if line == b"OPEN".as_slice() {
        return StepLine::Open;
    }
    split(line)
}

// A number, then nothing or a space and a request.
fn split(line: &[u8]) -> StepLine<'_>
    ensures step { asked_by result ≡ split_at line.now (position (λ b. b == 32) line.now) }
    ensures numbered { IsNumbered result }
{
    match space_in(line) {
        None => ask(number(line), &line[line.len()..]),
        Some(at) => ask(number(&line[..at]), &line[at + 1..]),
    }
}

fn ask<'a>(session: Option<u64>, request: &'a [u8]) -> StepLine<'a>
    requires { ForSome session IsSessionNumber }
    ensures step { asked_by result ≡ asks_of session request.now }
    ensures numbered { IsNumbered result }
{
    match session {
        None => StepLine::Stray,
        Some(number) => StepLine::Ask(number, request),
    }
}

fn space_in(line: &[u8]) -> Option<usize>
    ensures place { result ≡ position (λ b. b == 32) line.now }
    ensures bound { IfSome result (λ n. n < length line.now) }
{
    line.iter().position(|b| *b == b' ')
}

// The number that 1 to 18 digits write, the first of them not 0.
fn number(digits: &[u8]) -> Option<u64>
    ensures value { result ≡ session_number digits.now }
    ensures range { ForSome result IsSessionNumber }
{
    if digits.is_empty() {
        return None;
    }
    if digits.len() > 18 {
        return None;
    }
    if digits[0] == b'0' {
        return None;
    }
    value(digits)
}

// The value of at most 18 digits.
fn value(digits: &[u8]) -> Option<u64>
    requires { length digits.now ≤ 18 }
    ensures value { result ≡ digits_number digits.now }
    ensures small { IfSome result (λ n. n < 10 ^ 18) }
{
    let mut value: u64 = 0;
    for digit in digits {
        if !digit.is_ascii_digit() {
            return None;
        }
        value = 10 * value + u64::from(*digit - b'0');
    }
    Some(value)
}
