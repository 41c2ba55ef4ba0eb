// The token at the front of a text.
ghost use Rattle.std.specs.Prelude.{◌≡◌, ◌==◌, ◌+◌, ◌<◌, ◌≤◌, ◌-◌, ◌*◌, length, slice_index, IfSome, true};
ghost use Rattle.std.specs.Char.{is_ascii_digit};
ghost use Rattle.std.specs.List.{prefix_len};
ghost use Rattle.ifdb_lex.specs.Front as spec;

use crate::token::TokenKind;

/// 2^63 + 1, the least number that no line may have.
const TOO_LARGE: u64 = 9223372036854775809;

/// The longest token at the front, with its length in bytes. `None` where the first byte begins no token, and where it
/// begins a text that isn't closed. In time the token's length, or that of the text where it isn't closed.
pub(crate) fn front(text: &[u8]) -> Option<(TokenKind, usize)>
    requires { 0 < length text.now }
    ensures value { result ≡ spec.front text.now }
    ensures within { IfSome result (λ piece. (0 < piece.1) × (piece.1 ≤ length text.now)) }
{
    let first = text[0];
    if begins_word(first) {
        return Some((TokenKind::Word, word_len(text)));
    }
    if first.is_ascii_digit() {
        return Some(number(text));
    }
    if first == b'\'' {
        return quoted(text);
    }
    symbol(text)
}

/// Whether a word may begin with this byte.
fn begins_word(byte: u8) -> bool
    ensures { result ≡ spec.begins_word byte }
{
    byte.is_ascii_alphabetic() || byte == b'_'
}

/// Whether this byte may stand in a word.
fn is_word_byte(byte: u8) -> bool
    ensures { result ≡ spec.is_word_byte byte }
{
    byte.is_ascii_alphanumeric() || byte == b'_'
}

/// How many bytes at the front are a word's.
fn word_len(text: &[u8]) -> usize
    ensures value { result ≡ prefix_len spec.is_word_byte text.now }
    ensures within { result ≤ length text.now }
    ensures moves { 0 < length text.now → spec.begins_word (slice_index text.now 0) ≡ true → 0 < result }
{
    text.iter().take_while(|b| is_word_byte(**b)).count()
}

/// How many bytes at the front are digits.
fn digits_len(text: &[u8]) -> usize
    ensures value { result ≡ prefix_len is_ascii_digit text.now }
    ensures within { result ≤ length text.now }
    ensures moves { 0 < length text.now → is_ascii_digit (slice_index text.now 0) ≡ true → 0 < result }
{
    text.iter().take_while(|b| b.is_ascii_digit()).count()
}

/// The number at the front.
fn number(text: &[u8]) -> (TokenKind, usize)
    requires some { 0 < length text.now }
    requires digit { is_ascii_digit (slice_index text.now 0) ≡ true }
    ensures value { result ≡ spec.number text.now }
    ensures within { (0 < result.1) × (result.1 ≤ length text.now) }
{
    let len = digits_len(text);
    (TokenKind::Number(value_of(&text[..len])), len)
}

/// The number that these digits write, or 2^63 + 1 for each number above 2^63.
#[tactic(auto, using(crate::proofs::FrontLemmas::value_goes))]
fn value_of(digits: &[u8]) -> u64
    ensures { result ≡ spec.capped (spec.decimal 0 digits.now) }
{
    let mut value = 0;
    for digit in digits {
        value = with_digit(value, *digit);
    }
    value
}

/// The number behind whose digits stands one digit more.
fn with_digit(value: u64, digit: u8) -> u64
    ensures { result ≡ spec.capped (value * 10 + (digit - 48)) }
{
    let digit = digit.saturating_sub(b'0') as u64;
    value
        .saturating_mul(10)
        .saturating_add(digit)
        .min(TOO_LARGE)
}

/// The text at the front, if it is closed.
#[tactic(auto, using(crate::proofs::FrontLemmas::closing_goes, crate::proofs::FrontLemmas::closing_pairs))]
fn quoted(text: &[u8]) -> Option<(TokenKind, usize)>
    requires { 0 < length text.now }
    ensures value { result ≡ spec.quoted text.now }
    ensures within { IfSome result (λ piece. (0 < piece.1) × (piece.1 ≤ length text.now)) }
{
    let mut at = 1;
    while at < text.len() {
        if !is_quote(text, at) {
            at += 1;
        } else if is_quote(text, at + 1) {
            at += 2;
        } else {
            return Some((TokenKind::Text, at + 1));
        }
    }
    None
}

/// Whether there is a quote at this place.
fn is_quote(text: &[u8], at: usize) -> bool
    ensures value { result ≡ (slice_index text.now at == 39) }
    ensures within { result ≡ true → at < length text.now }
{
    at < text.len() && text[at] == b'\''
}

/// The symbol at the front, if there is one: two bytes long where it can be.
fn symbol(text: &[u8]) -> Option<(TokenKind, usize)>
    requires { 0 < length text.now }
    ensures value { result ≡ spec.symbol (slice_index text.now 0) (slice_index text.now 1) }
    ensures within { IfSome result (λ piece. (0 < piece.1) × (piece.1 ≤ length text.now)) }
{
    match text {
        [b'<', b'>', ..] | [b'!', b'=', ..] => Some((TokenKind::NotEqual, 2)),
        [b'<', b'=', ..] => Some((TokenKind::AtMost, 2)),
        [b'>', b'=', ..] => Some((TokenKind::AtLeast, 2)),
        [byte, ..] if is_symbol(*byte) => Some((TokenKind::Symbol(*byte), 1)),
        _ => None,
    }
}

/// Whether this byte is a symbol of its own.
fn is_symbol(byte: u8) -> bool
    ensures { result ≡ spec.is_symbol byte }
{
    matches!(
        byte,
        b'(' | b')' | b',' | b'.' | b'=' | b'<' | b'>' | b'+' | b'-' | b'*' | b';'
    )
}
