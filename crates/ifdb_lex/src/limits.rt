// The limits that the tokens of a line keep.
ghost use Rattle.std.specs.Prelude.{◌≡◌, ◌≤◌, ◌-◌, ◌^◌, length, nat_lt, count_by, All};
ghost use Rattle.std.specs.List.{list_any};
ghost use Rattle.ifdb_lex.specs.Limits as spec;

use crate::token::{Token, TokenKind};

/// The most bytes of a name.
const LONGEST_NAME: usize = 63;
/// The greatest number.
const LARGEST_NUMBER: u64 = 9223372036854775808;
/// The most parentheses that may be open at once.
const DEEPEST: usize = 32;
/// The most words NOT of a line.
const MOST_NOTS: usize = 64;

/// Whether the tokens of a line pass a limit.
pub(crate) fn exceeds(line: &[u8], tokens: &[Token]) -> bool
    requires { spec.AreWithin line.now tokens.now }
    ensures { result ≡ spec.exceeds line.now tokens.now }
{
    has_long_name(tokens)
        || has_large_number(tokens)
        || nests_deep(tokens)
        || MOST_NOTS < count_nots(line, tokens)
}

/// Whether some name has more than 63 bytes.
fn has_long_name(tokens: &[Token]) -> bool
    ensures { result ≡ list_any spec.is_long_name tokens.now }
{
    tokens.iter().any(is_long_name)
}

/// Whether some number is above 2^63.
fn has_large_number(tokens: &[Token]) -> bool
    ensures { result ≡ list_any spec.is_large_number tokens.now }
{
    tokens.iter().any(is_large_number)
}

/// Whether this is a word that is too long for a name. No reserved word is.
fn is_long_name(token: &Token) -> bool
    ensures { result ≡ spec.is_long_name token.now }
{
    is_word(token.kind) && LONGEST_NAME < token.end.saturating_sub(token.start)
}

fn is_word(kind: TokenKind) -> bool
    ensures { result ≡ spec.is_word kind }
{
    matches!(kind, TokenKind::Word)
}

/// Whether this is a number above 2^63.
fn is_large_number(token: &Token) -> bool
    ensures { result ≡ spec.is_large_number token.now }
{
    match token.kind {
        TokenKind::Number(value) => LARGEST_NUMBER < value,
        _ => false,
    }
}

/// Whether more than 32 parentheses are open at once.
fn nests_deep(tokens: &[Token]) -> bool
    ensures { result ≡ spec.nests_deep 0 tokens.now }
{
    let mut depth = 0;
    for token in tokens {
        depth = open_behind(depth, token.kind);
        if DEEPEST < depth {
            return true;
        }
    }
    false
}

/// How many parentheses are open behind a token, where so many are before it.
fn open_behind(depth: usize, kind: TokenKind) -> usize
    requires { depth ≤ 32 }
    ensures { result ≡ spec.open_behind depth kind }
{
    match kind {
        TokenKind::Symbol(b'(') => depth + 1,
        TokenKind::Symbol(b')') => depth.saturating_sub(1),
        _ => depth,
    }
}

/// How many of the tokens are the word NOT.
fn count_nots(line: &[u8], tokens: &[Token]) -> usize
    requires { spec.AreWithin line.now tokens.now }
    ensures { result ≡ count_by (spec.is_not line.now) tokens.now }
{
    let mut count = 0;
    for token in tokens {
        if is_not(line, token) {
            count += 1;
        }
    }
    count
}

/// Whether a token is the word NOT, in any case.
fn is_not(line: &[u8], token: &Token) -> bool
    requires { spec.IsWithin line.now token.now }
    ensures { result ≡ spec.is_not line.now token.now }
{
    is_word(token.kind) && line[token.start..token.end].eq_ignore_ascii_case(b"not")
}
