// How a line is read as CREATE CLOSURE or CALL.
ghost use Rattle.std.specs.Prelude.{◌≡◌, ◌≤◌, length, option_map, IfOk};
ghost use Rattle.ifdb_lex.specs.Line.{IsLaidOut};
ghost use Rattle.ifdb_closure.specs.Forms.{call_form, called_as, closure_form, create_form, created_from, form_behind_create, form_of_lexemes, is_as, is_call, is_closure, is_create, is_end, name_in, said};

use crate::statements::{Statement, statements_fault, statements_from};
use ifdb_lex::{LexFault, Token, lex};
use ifdb_parse::{lexemes_of, without_return};
use ifdb_syntax::Lexeme;
use ifdb_value::{Name, OutOfMemory, Sequence};
use ifdb_wire::Fault;
use std::alloc::Global;

/// What a line is to a script with closures.
#[derive(Drop)]
pub(crate) enum Form {
    /// A line of the server's own.
    Plain,
    /// CREATE CLOSURE or CALL, with a fault.
    Faulty(Fault),
    /// `CREATE CLOSURE name AS statement {; statement} [;]`.
    Creates {
        /// The closure's name.
        name: Name,
        /// Its statements, of which there are 1 to 64.
        statements: Sequence<Statement>,
    },
    /// `CALL name [;]`.
    Calls(Name),
}

/// Reads a line, once one `\r` at its end is dropped. Syntax(0) is told for each fault of the two forms but those of tokens, which
/// are the server's to tell; and then Limit. The only error is want of memory.
///
/// In time and memory the length of the line.
pub(crate) fn read_form(alloc: Global, line: &[u8]) -> Result<Form, OutOfMemory>
    ensures { IfOk result (λ form. said form ≡ closure_form line.now) }
{
    let tokens = match lex(alloc, line) {
        Ok(tokens) => tokens,
        Err(LexFault::OutOfMemory) => return Err(OutOfMemory),
        Err(LexFault::At(_) | LexFault::Limit) => return Ok(Form::Plain),
    };
    let lexemes = lexemes_of(alloc, line, tokens.items())?;
    form_of_lexemes(alloc, without_return(line), tokens.items(), lexemes.items())
}

/// What a line is, by its tokens and what they say.
fn form_of_lexemes(
    alloc: Global,
    line: &[u8],
    tokens: &[Token],
    lexemes: &[Lexeme],
) -> Result<Form, OutOfMemory>
    requires { IsLaidOut line.now 0 tokens.now }
    ensures { IfOk result (λ form. said form ≡ form_of_lexemes line.now tokens.now lexemes.now) }
{
    match lexemes {
        [first, rest @ ..] => {
            if is_call(first) {
                return call_form(alloc, rest);
            }
            if is_create(first) {
                return form_behind_create(alloc, line, tokens, rest);
            }
            Ok(Form::Plain)
        }
        [] => Ok(Form::Plain),
    }
}

/// What stands behind CALL.
fn call_form(alloc: Global, lexemes: &[Lexeme]) -> Result<Form, OutOfMemory>
    ensures { IfOk result (λ form. said form ≡ call_form lexemes.now) }
{
    match lexemes {
        [name] => called_as(alloc, name_in(name), true),
        [name, last] => called_as(alloc, name_in(name), is_end(last)),
        _ => Ok(Form::Faulty(Fault::Syntax(0))),
    }
}

/// CALL of a name, if it ends so.
fn called_as(alloc: Global, name: Option<&Name>, ends: bool) -> Result<Form, OutOfMemory>
    ensures { IfOk result (λ form.
        said form ≡ called_as (option_map (λ n. n.now) name.entry) ends) }
{
    match name {
        Some(name) if ends => Ok(Form::Calls(name.share()?)),
        _ => Ok(Form::Faulty(Fault::Syntax(0))),
    }
}

/// What stands behind CREATE.
fn form_behind_create(
    alloc: Global,
    line: &[u8],
    tokens: &[Token],
    lexemes: &[Lexeme],
) -> Result<Form, OutOfMemory>
    requires { IsLaidOut line.now 0 tokens.now }
    ensures { IfOk result (λ form.
        said form ≡ form_behind_create line.now tokens.now lexemes.now) }
{
    match lexemes {
        [second, rest @ ..] => {
            if is_closure(second) {
                return create_form(alloc, line, tokens, rest);
            }
            Ok(Form::Plain)
        }
        [] => Ok(Form::Plain),
    }
}

/// What stands behind CREATE CLOSURE.
fn create_form(
    alloc: Global,
    line: &[u8],
    tokens: &[Token],
    lexemes: &[Lexeme],
) -> Result<Form, OutOfMemory>
    requires { IsLaidOut line.now 0 tokens.now }
    ensures { IfOk result (λ form. said form ≡ create_form line.now tokens.now lexemes.now) }
{
    match (tokens, lexemes) {
        ([_, _, _, last, tokens @ ..], [name, second, ..]) => match name_in(name) {
            Some(name) if is_as(second) => created_from(alloc, name, line, last.end, tokens),
            _ => Ok(Form::Faulty(Fault::Syntax(0))),
        },
        _ => Ok(Form::Faulty(Fault::Syntax(0))),
    }
}

/// CREATE CLOSURE of a name, with the statements of a line from a place on.
fn created_from(
    alloc: Global,
    name: &Name,
    line: &[u8],
    at: usize,
    tokens: &[Token],
) -> Result<Form, OutOfMemory>
    requires within { at ≤ length line.now }
    requires layout { IsLaidOut line.now at tokens.now }
    ensures { IfOk result (λ form. said form ≡ created_from name.now line.now at tokens.now) }
{
    let statements = statements_from(alloc, line, at, tokens)?;
    if let Some(fault) = statements_fault(alloc, statements.items())? {
        return Ok(Form::Faulty(fault));
    }
    Ok(Form::Creates {
        name: name.share()?,
        statements,
    })
}

/// The name that a lexeme says.
fn name_in(lexeme: &Lexeme) -> Option<&Name>
    ensures { option_map (λ n. n.now) result ≡ name_in lexeme.now }
{
    match lexeme {
        Lexeme::Name(name) => Some(name),
        _ => None,
    }
}

/// Whether a lexeme is CALL.
fn is_call(lexeme: &Lexeme) -> bool
    ensures { result ≡ is_call lexeme.now }
{
    matches!(lexeme, Lexeme::Call)
}

/// Whether a lexeme is CREATE.
fn is_create(lexeme: &Lexeme) -> bool
    ensures { result ≡ is_create lexeme.now }
{
    matches!(lexeme, Lexeme::Create)
}

/// Whether a lexeme is CLOSURE.
fn is_closure(lexeme: &Lexeme) -> bool
    ensures { result ≡ is_closure lexeme.now }
{
    matches!(lexeme, Lexeme::Closure)
}

/// Whether a lexeme is AS.
fn is_as(lexeme: &Lexeme) -> bool
    ensures { result ≡ is_as lexeme.now }
{
    matches!(lexeme, Lexeme::As)
}

/// Whether a lexeme is a semicolon.
fn is_end(lexeme: &Lexeme) -> bool
    ensures { result ≡ is_end lexeme.now }
{
    matches!(lexeme, Lexeme::Semicolon)
}
