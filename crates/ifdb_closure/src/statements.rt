// The statements of a closure.
ghost use Rattle.std.specs.Prelude.{◌≡◌, ◌≤◌, false, length, IfOk, Ok};
ghost use Rattle.std.specs.List.{list_all};
ghost use Rattle.ifdb_lex.specs.Line.{IsLaidOut, is_blank};
ghost use Rattle.ifdb_parse.specs.Parsed.{parsed};
ghost use Rattle.ifdb_model.specs.Step.{form_of};
ghost use Rattle.ifdb_closure.specs.Bounds.{is_inner_form};
ghost use Rattle.ifdb_closure.specs.Forms.{IsFoundAs, is_semicolon, statements_fault, statements_from};

use ifdb_lex::{Token, TokenKind};
use ifdb_parse::{ParseFault, parse};
use ifdb_syntax::Request;
use ifdb_value::{OutOfMemory, Sequence};
use ifdb_wire::Fault;
use std::alloc::Global;
use std::marker::Model;

/// The most statements that a closure has.
const MOST_STATEMENTS: usize = 64;

/// A statement of a closure, as its line has it. Contracts see the bytes.
#[derive(Drop)]
pub(crate) struct Statement {
    text: Vec<u8>,
}

impl Model for Statement {
    ghost use Rattle.std.specs.Prelude.{List, ℕ};

    ghost Value = { List ℕ };

    ghost view = { λ s. s.text.items };
}

impl Statement {
    /// A statement of these bytes.
    fn of(alloc: Global, text: &[u8]) -> Result<Self, OutOfMemory>
        ensures { IfOk result (λ statement. statement ≡ text.now) }
    {
        Ok(Statement {
            text: Vec::from_slice(alloc, text)?,
        })
    }

    /// Its bytes.
    pub(crate) fn as_bytes(&self) -> &[u8]
        ensures { result.now ≡ self.now }
    {
        &self.text
    }
}

/// The statements of a line from place `at` on, which the semicolons among these tokens part.
pub(crate) fn statements_from(
    alloc: Global,
    line: &[u8],
    at: usize,
    tokens: &[Token],
) -> Result<Sequence<Statement>, OutOfMemory>
    requires within { at ≤ length line.now }
    requires layout { IsLaidOut line.now at tokens.now }
    ensures { IfOk result (λ statements.
        statements ≡ statements_from line.now false at tokens.now) }
{
    let mut statements = Sequence::new(alloc);
    let mut from = at;
    for token in tokens {
        if is_semicolon(token.kind) {
            statements.push(Statement::of(alloc, &line[from..token.start])?)?;
            from = token.end;
        }
    }
    let last = &line[from..];
    if statements.is_empty() || !are_blank(last) {
        statements.push(Statement::of(alloc, last)?)?;
    }
    Ok(statements)
}

/// Whether a token is a semicolon.
fn is_semicolon(kind: TokenKind) -> bool
    ensures { result ≡ is_semicolon kind }
{
    match kind {
        TokenKind::Symbol(byte) => byte == b';',
        _ => false,
    }
}

/// Whether each byte is a space or a tab.
fn are_blank(text: &[u8]) -> bool
    ensures { result ≡ list_all is_blank text.now }
{
    text.iter().all(|byte| *byte == b' ' || *byte == b'\t')
}

/// Why these are no statements of a closure: Syntax(0) where one of them is no SELECT, INSERT, UPDATE, DELETE or SET LABEL, and
/// then Limit where they are more than 64 or one passes a limit.
pub(crate) fn statements_fault(
    alloc: Global,
    statements: &[Statement],
) -> Result<Option<Fault>, OutOfMemory>
    ensures { IfOk result (λ fault. fault ≡ statements_fault statements.now) }
{
    let mut is_beyond = MOST_STATEMENTS < statements.len();
    for statement in statements {
        match found_as(alloc, statement)? {
            Found::Inner => {}
            Found::Misread => return Ok(Some(Fault::Syntax(0))),
            Found::Beyond => is_beyond = true,
        }
    }
    if is_beyond {
        return Ok(Some(Fault::Limit));
    }
    Ok(None)
}

/// What a statement is found to be.
#[derive(Clone, Copy)]
enum Found {
    /// A request that a closure may have.
    Inner,
    /// None of these.
    Misread,
    /// It passes a limit of requests.
    Beyond,
}

/// Reads a statement.
fn found_as(alloc: Global, statement: &Statement) -> Result<Found, OutOfMemory>
    ensures { IfOk result (IsFoundAs (parsed statement.now)) }
{
    match parse(alloc, statement.as_bytes()) {
        Ok(request) => Ok(found_of(&request)),
        Err(ParseFault::Syntax(_)) => Ok(Found::Misread),
        Err(ParseFault::Limit) => Ok(Found::Beyond),
        Err(ParseFault::OutOfMemory) => Err(OutOfMemory),
    }
}

/// What a request is found to be.
fn found_of(request: &Request) -> Found
    ensures { IsFoundAs (Ok request.now) result }
{
    if is_inner(request) {
        return Found::Inner;
    }
    Found::Misread
}

/// Whether a closure may have a request.
fn is_inner(request: &Request) -> bool
    ensures { result ≡ is_inner_form (form_of request.now) }
{
    matches!(
        request,
        Request::SetLabel { .. }
            | Request::Select(_)
            | Request::Insert { .. }
            | Request::Update { .. }
            | Request::Delete { .. }
    )
}
