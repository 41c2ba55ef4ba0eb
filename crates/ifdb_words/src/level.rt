// Levels in words.
ghost use Rattle.std.specs.Prelude.{◌≡◌, IfOk, map};
ghost use Rattle.ifdb_words.specs.Level.{level_in, level_of, pieces_of};

use crate::numbers::decimal_of;
use ifdb_label::Tag;
use std::alloc::{AllocError as OutOfMemory, Global};
use std::marker::Model;

/// The most tags of a level, where it isn't empty.
const MOST_TAGS: usize = 64;

/// The most digits of a tag's number.
const MOST_DIGITS: usize = 18;

/// A level: any list of tags, as the words give it. Contracts see the list.
#[derive(Drop)]
pub struct Level {
    tags: Vec<Tag>,
}

impl Model for Level {
    ghost use Rattle.std.specs.Prelude.{List, ℕ};

    ghost Value = { List ℕ };

    ghost view = { λ l. l.tags.items };
}

impl Level {
    /// The tags, in the order in which they were written.
    pub fn tags(&self) -> &[Tag]
        ensures { result.now ≡ self.now }
    {
        &self.tags
    }
}

/// The level that a word writes: `none`, or 1 to 64 numbers of 1 to 18 digits, joined by commas. The only error is want of memory.
pub fn level_of(alloc: Global, word: &str) -> Result<Option<Level>, OutOfMemory>
    ensures { IfOk result (λ level. level ≡ level_of word.now) }
{
    if word == "none" {
        return Ok(Some(Level {
            tags: Vec::new(alloc),
        }));
    }
    match pieces_of(alloc, word) {
        Ok(pieces) => level_in(alloc, &pieces),
        Err(error) => Err(error),
    }
}

/// The pieces of a word between commas.
fn pieces_of<'a>(alloc: Global, word: &'a str) -> Result<Vec<&'a str>, OutOfMemory>
    ensures { IfOk result (λ pieces. map (λ p. p.now) pieces.items ≡ pieces_of word.entry.now) }
{
    word.split(',').collect(alloc)
}

/// The tags that pieces write.
fn level_in(alloc: Global, pieces: &[&str]) -> Result<Option<Level>, OutOfMemory>
    ensures { IfOk result (λ level. level ≡ level_in (map (λ p. p.now) pieces.now)) }
{
    if pieces.len() > MOST_TAGS {
        return Ok(None);
    }
    let mut tags = Vec::with_capacity(alloc, pieces.len())?;
    for piece in pieces {
        let Some(number) = decimal_of(MOST_DIGITS, piece) else {
            return Ok(None);
        };
        tags.push(Tag(number))?;
    }
    Ok(Some(Level { tags }))
}
