// Numbers in words.
ghost use Rattle.std.specs.Prelude.{◌≡◌, ◌≤◌, option_map};
ghost use Rattle.std.specs.Char.{is_ascii_digit};
ghost use Rattle.std.specs.List.{list_all};
ghost use Rattle.ifdb_words.specs.Numbers.{decimal_of, maybe_to, needed_to, number_of, number_or, number_to};

/// The most digits of a number.
const MOST_DIGITS: usize = 13;

/// The number of an option that has to be used, from 1 to `most`.
pub fn needed_to(most: u64, word: Option<&str>) -> Option<u64>
    ensures { result ≡ needed_to most (option_map (λ w. w.now) word.entry) }
{
    number_to(most, word?)
}

/// The number of an option that may be left out, from 1 to `most`.
pub fn number_or(default: u64, most: u64, word: Option<&str>) -> Option<u64>
    ensures { result ≡ number_or default most (option_map (λ w. w.now) word.entry) }
{
    match word {
        None => Some(default),
        Some(word) => number_to(most, word),
    }
}

/// The number of an option that may be left out, from 1 to `most`, if it is there.
pub fn maybe_to(most: u64, word: Option<&str>) -> Option<Option<u64>>
    ensures { result ≡ maybe_to most (option_map (λ w. w.now) word.entry) }
{
    match word {
        None => Some(None),
        Some(word) => Some(Some(number_to(most, word)?)),
    }
}

/// The number that a word writes, from 1 to `most`.
fn number_to(most: u64, word: &str) -> Option<u64>
    ensures { result ≡ number_to most word.now }
{
    let number = number_of(word)?;
    if 1 <= number && number <= most {
        Some(number)
    } else {
        None
    }
}

/// The number that 1 to 13 digits write.
pub fn number_of(word: &str) -> Option<u64>
    ensures { result ≡ number_of word.now }
{
    decimal_of(MOST_DIGITS, word)
}

/// The number that 1 to `most` digits write, at most 19.
#[tactic(auto, using(crate::proofs::Digits::number_read, crate::proofs::Digits::number_too_long, crate::proofs::Digits::number_of_others))]
pub fn decimal_of(most: usize, word: &str) -> Option<u64>
    requires { most ≤ 19 }
    ensures { result ≡ decimal_of most word.now }
{
    if word.len() > most || !are_digits(word.as_bytes()) {
        return None;
    }
    word.parse().ok()
}

/// Whether each byte is a digit.
fn are_digits(bytes: &[u8]) -> bool
    ensures { result ≡ list_all is_ascii_digit bytes.now }
{
    bytes.iter().all(u8::is_ascii_digit)
}
