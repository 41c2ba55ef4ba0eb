// What the tokens of a line say.
ghost use Rattle.std.specs.Prelude.{◌≡◌, ◌==◌, ◌&&◌, ◌+◌, ◌<◌, ◌++◌, Ok, IfOk, MatchOption, length, take, drop, slice_index, string_bytes, true};
ghost use Rattle.ifdb_lex.specs.Lex.{lexed};
ghost use Rattle.ifdb_lex.specs.Line.{IsLaidOut, without_return as request_of};
ghost use Rattle.ifdb_value.specs.Name.{is_name, folded};
ghost use Rattle.ifdb_parse.specs.Lexemes as spec;
ghost use Rattle.ifdb_parse.specs.Readable.{IsReadable, AreReadable};

use crate::words::reserved;
use ifdb_lex::{Token, TokenKind};
use ifdb_syntax::Lexeme;
use ifdb_value::{Name, NameFault, OutOfMemory, Sequence, Word};
use std::alloc::Global;

/// What the tokens that `lex` gave of a line say, in order. `OutOfMemory` where an allocation is refused.
///
/// In time and memory the length of the line.
pub fn lexemes_of(
    alloc: Global,
    line: &[u8],
    tokens: &[Token],
) -> Result<Sequence<Lexeme>, OutOfMemory>
    requires tokens { lexed line.now ≡ Ok tokens.now }
    requires layout { IsLaidOut (request_of line.now) 0 tokens.now }
    ensures { IfOk result (λ lexemes. lexemes ≡ spec.lexemes_of (request_of line.now) tokens.now) }
{
    match std::str::from_utf8(without_return(line)) {
        Ok(text) => lexemes_in(alloc, text, tokens),
        Err(_) => unreachable!(),
    }
}

/// The line without one carriage return at its end.
pub fn without_return(line: &[u8]) -> &[u8]
    ensures { result.now ≡ request_of line.now }
{
    match line {
        [rest @ .., b'\r'] => rest,
        _ => line,
    }
}

/// What these tokens of a line say, in order.
fn lexemes_in(alloc: Global, line: &str, tokens: &[Token]) -> Result<Sequence<Lexeme>, OutOfMemory>
    requires { AreReadable line.now tokens.now }
    ensures { IfOk result (λ lexemes. lexemes ≡ spec.lexemes_of line.now tokens.now) }
{
    let mut lexemes = Sequence::with_capacity(alloc, tokens.len())?;
    for token in tokens {
        lexemes.push(lexeme(alloc, line, *token)?)?;
    }
    Ok(lexemes)
}

/// What a token of a line says.
fn lexeme(alloc: Global, line: &str, token: Token) -> Result<Lexeme, OutOfMemory>
    requires { IsReadable line.now token }
    ensures { IfOk result (λ lexeme. lexeme ≡ spec.lexeme_of line.now token) }
{
    match token.kind {
        TokenKind::Word => word(alloc, line, token),
        TokenKind::Number(value) => Ok(Lexeme::Number(value)),
        TokenKind::Text => quoted(alloc, line, token),
        TokenKind::Symbol(byte) => Ok(symbol(byte)),
        TokenKind::NotEqual => Ok(Lexeme::NotEqual),
        TokenKind::AtMost => Ok(Lexeme::AtMost),
        TokenKind::AtLeast => Ok(Lexeme::AtLeast),
    }
}

/// A symbol of one byte.
fn symbol(byte: u8) -> Lexeme
    ensures { result ≡ spec.symbol_of byte }
{
    match byte {
        b'(' => Lexeme::Open,
        b')' => Lexeme::Close,
        b',' => Lexeme::Comma,
        b'.' => Lexeme::Dot,
        b'=' => Lexeme::Equal,
        b'<' => Lexeme::Less,
        b'>' => Lexeme::Greater,
        b'+' => Lexeme::Plus,
        b'-' => Lexeme::Minus,
        b'*' => Lexeme::Star,
        _ => Lexeme::Semicolon,
    }
}

/// A word of a line: a reserved word, or else a name.
fn word(alloc: Global, line: &str, token: Token) -> Result<Lexeme, OutOfMemory>
    requires token { IsReadable line.now token }
    requires kind { token.kind ≡ TokenKind.Word }
    ensures { IfOk result (λ lexeme. lexeme ≡ spec.lexeme_of line.now token) }
{
    word_or_name(alloc, &line[token.start..token.end])
}

/// The reserved word that a text spells, or else the name.
fn word_or_name(alloc: Global, text: &str) -> Result<Lexeme, OutOfMemory>
    requires { is_name (folded text.now) ≡ true }
    ensures { IfOk result (λ lexeme. lexeme ≡ spec.word_or_name text.now (spec.reserved text.now)) }
{
    if let Some(word) = reserved(text.as_bytes()) {
        return Ok(word);
    }
    match Name::read(alloc, text) {
        Ok(name) => Ok(Lexeme::Name(name)),
        Err(NameFault::OutOfMemory) => Err(OutOfMemory),
        Err(NameFault::BadName) => unreachable!(),
    }
}

/// A text of a line, without its quotes.
fn quoted(alloc: Global, line: &str, token: Token) -> Result<Lexeme, OutOfMemory>
    requires token { IsReadable line.now token }
    requires kind { token.kind ≡ TokenKind.Text }
    ensures { IfOk result (λ lexeme. lexeme ≡ spec.lexeme_of line.now token) }
{
    let kept = undoubled(alloc, &line[token.start + 1..token.end - 1])?;
    Ok(Lexeme::Quoted(Word::of(alloc, kept.as_str())?))
}

/// A text in which one of each two quotes is kept.
fn undoubled(alloc: Global, text: &str) -> Result<String, OutOfMemory>
    ensures { IfOk result (λ kept. string_bytes kept ≡ spec.undoubled text.now) }
{
    let mut kept = String::new(alloc);
    let mut rest = text;
    while let Some(at) = first_pair(rest.as_bytes()) {
        kept.push_str(&rest[..at + 1])?;
        rest = &rest[at + 2..];
    }
    kept.push_str(rest)?;
    Ok(kept)
}

#[tactic(auto, using(crate::proofs::Undoubled::undoubled_goes, crate::proofs::Undoubled::undoubled_pair, crate::proofs::Undoubled::no_pair))]
/// The first place where two quotes stand one behind the other.
fn first_pair(text: &[u8]) -> Option<usize>
    ensures { MatchOption result
        (spec.undoubled text.now ≡ text.now)
        (λ at. (at + 1 < length text.now) × (slice_index text.now at ≡ 39) × (slice_index text.now (at + 1) ≡ 39)
        × (spec.undoubled text.now ≡ take (at + 1) text.now ++ spec.undoubled (drop (at + 2) text.now))) }
{
    let mut at = 0;
    while at + 1 < text.len() {
        if is_pair(text, at) {
            return Some(at);
        }
        at += 1;
    }
    None
}

/// Whether two quotes stand at this place.
fn is_pair(text: &[u8], at: usize) -> bool
    requires { at + 1 < length text.now }
    ensures { result ≡ (slice_index text.now at == 39 && slice_index text.now (at + 1) == 39) }
{
    text[at] == b'\'' && text[at + 1] == b'\''
}
