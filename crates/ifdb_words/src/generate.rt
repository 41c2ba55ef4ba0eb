// The words behind `generate`.
ghost use Rattle.std.specs.Prelude.{◌≡◌, map, string_bytes};
ghost use Rattle.ifdb_words.specs.Generate.{counts_for, generation_in, is_flag, size_of};

use crate::command::{Command, Text};
use crate::numbers::number_of;
use ifdb_generate::Size;

/// What the words behind `generate` ask for; `None` exactly where they aren't well formed.
pub fn generation_in(words: &[String]) -> Option<Command>
    ensures { result ≡ generation_in (map string_bytes words.now) }
{
    match words {
        [number] => Some(Command::Write(Text::Script(size_of(number.as_str())?))),
        [flag, number] if is_flag(flag.as_str()) => counts_of(number.as_str()),
        [number, flag] if is_flag(flag.as_str()) => counts_of(number.as_str()),
        _ => None,
    }
}

/// The counts of the script with as many INSERTs as a word asks for.
fn counts_of(word: &str) -> Option<Command>
    ensures { result ≡ counts_for (size_of word.now) }
{
    Some(Command::Write(Text::Counts(size_of(word)?)))
}

/// Whether a word is the flag that has the generator's script run.
fn is_flag(word: &str) -> bool
    ensures { result ≡ is_flag word.now }
{
    word == "--run"
}

/// How many INSERTs a word asks for.
fn size_of(word: &str) -> Option<Size>
    ensures { result ≡ size_of word.now }
{
    Size::new(number_of(word)?)
}
