// What is recorded of a line.
ghost use Rattle.std.specs.Prelude.{◌≡◌, [], ◌∷◌, None, Some, OnErr, OnOk};
ghost use Rattle.ifdb_redo.specs.declared.record.RedoRecord.TheVariants as redo;
ghost use Rattle.ifdb_redo.specs.Reading.{record_of};
ghost use Rattle.ifdb_db.specs.Noting.{blank, noted, read_of, text_of, IsWithin};

use crate::OutOfMemory;
use ifdb_redo::{change_text, commit_text};
use ifdb_row::Writes;
use ifdb_value::{Principal, Sequence};
use std::alloc::Global;
use std::marker::Model;

/// What is recorded of a line that a room is asked: the redo record of the entry that the line adds to the log, as bytes, if a
/// record is wanted. It is filled before the entry is made, so that a line for whose record there is no room changes nothing.
#[derive(Drop)]
pub struct Note {
    alloc: Global,
    limit: Option<usize>,
    text: Option<Sequence<u8>>,
}

impl Model for Note {
    ghost use Rattle.ifdb_db.specs.Noting.{read_of, IsNote, Noted};

    ghost Value = { Noted };

    ghost view = { λ n. record { limit = n.limit; held = read_of n.text } };

    ghost invariant = { λ n. IsNote n.limit n.text };
}

impl Note {
    /// Wants a record of at most `limit` bytes, or none. Takes no memory but for a record that it gets, from `alloc`.
    pub fn new(alloc: Global, limit: Option<usize>) -> Note
        ensures { result ≡ record { limit = limit; held = None } }
    {
        Note {
            alloc,
            limit,
            text: None,
        }
    }

    /// The bytes of the record, if the line added an entry and a record was wanted. They are read again as the record.
    pub fn into_text(self) -> Option<Sequence<u8>>
        ensures text { result ≡ text_of self.held }
        ensures again { read_of result ≡ self.held }
        ensures within { IsWithin self.limit result }
    {
        self.text
    }

    /// Drops the record.
    pub(crate) fn clear(&mut self)
        ensures { self.new ≡ blank self.old }
    {
        self.text = None;
    }

    /// Holds the record of a public change, if a record is wanted. `OutOfMemory` too where its bytes are more than the limit.
    pub(crate) fn hold_change(&mut self, asker: Principal, line: &[u8]) -> Result<(), OutOfMemory>
        ensures done { OnOk result (self.new ≡ noted self.old (redo.Change asker line.now ∷ [])) }
        ensures limit { self.new.limit ≡ self.old.limit }
    {
        let Some(limit) = self.limit else {
            return Ok(());
        };
        let text = change_text(self.alloc, asker, line)?;
        self.hold(limit, text)
    }

    /// Holds the record of a commit, if a record is wanted. `OutOfMemory` too where its bytes are more than the limit.
    pub(crate) fn hold_commit(&mut self, writes: &Writes) -> Result<(), OutOfMemory>
        ensures done { OnOk result (self.new ≡ noted self.old (redo.Commit writes.now ∷ [])) }
        ensures limit { self.new.limit ≡ self.old.limit }
    {
        let Some(limit) = self.limit else {
            return Ok(());
        };
        let text = commit_text(self.alloc, writes)?;
        self.hold(limit, text)
    }

    // Holds the record whose text this is, unless the text is longer than the limit.
    fn hold(&mut self, limit: usize, text: Vec<u8>) -> Result<(), OutOfMemory>
        requires limit { self.old.limit ≡ Some limit }
        requires spelled { text_of (record_of text.items) ≡ Some text.items }
        ensures done { OnOk result (self.new ≡ record self.old { held = record_of text.items }) }
        ensures err { OnErr result (self.new ≡ self.old) }
    {
        if text.len() > limit {
            return Err(OutOfMemory);
        }
        self.text = Some(Sequence::from_vec(text));
        Ok(())
    }
}
