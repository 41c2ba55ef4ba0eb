// Names of files in words.
ghost use Rattle.std.specs.Prelude.{◌≡◌, ◌≤◌, IfOk, length};
ghost use Rattle.clap.specs.Words.{found_of, first_value};
ghost use Rattle.ifdb_words.specs.FileName.{file_in, file_name_of};

use clap::ArgMatches;
use std::alloc::{AllocError as OutOfMemory, Global};
use std::marker::Model;

/// The most bytes of a file's name.
const MOST_BYTES: usize = 255;

/// The name of a file, of 1 to 255 bytes. Contracts see its bytes.
#[derive(Drop)]
pub struct FileName {
    text: String,
}

impl Model for FileName {
    ghost use Rattle.std.specs.Prelude.{◌≤◌, List, ℕ, length, string_bytes};

    ghost Value = { List ℕ };

    ghost view = { λ f. string_bytes f.text };

    ghost invariant = { λ f. (1 ≤ length (string_bytes f.text))
        × (length (string_bytes f.text) ≤ 255) };
}

impl FileName {
    /// The name.
    pub fn as_str(&self) -> &str
        ensures name { result.now ≡ self.now }
        ensures bounds { (1 ≤ length result.now) × (length result.now ≤ 255) }
    {
        self.text.as_str()
    }
}

/// The name that a word is, if it has 1 to 255 bytes. The only error is want of memory.
pub fn file_name_of(alloc: Global, word: &str) -> Result<Option<FileName>, OutOfMemory>
    ensures { IfOk result (λ name. name ≡ file_name_of word.now) }
{
    if word.is_empty() || word.len() > MOST_BYTES {
        return Ok(None);
    }
    let text = String::from_str(alloc, word)?;
    Ok(Some(FileName { text }))
}

/// The file that an option names, if it is used and its value is the name of a file.
pub fn named(
    alloc: Global,
    matches: &ArgMatches,
    option: &str,
) -> Result<Option<FileName>, OutOfMemory>
    ensures { IfOk result (λ file. file
        ≡ file_in (first_value (found_of matches.now) option.now)) }
{
    match matches.get_str(option) {
        Some(word) => file_name_of(alloc, word),
        None => Ok(None),
    }
}
