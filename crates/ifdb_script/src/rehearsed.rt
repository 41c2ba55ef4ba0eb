// What a run of a script comes to, in numbers.
ghost use Rattle.std.specs.Prelude.{◌≡◌, ◌+◌, ◌<◌, ◌^◌, ◌++◌, IfOk, OnOk};
ghost use Rattle.ifdb_script.specs.Rehearsal.{counted_as, rehearsed_text};
ghost use Rattle.ifdb_script.specs.Rehearsing.{IsFew, counted, none_counted};

use ifdb_db::OutOfMemory;
use ifdb_wire::Reply;
use itoa::Buffer;
use std::alloc::Global;

/// What a run of a script comes to, in numbers.
#[derive(Clone, Copy, Debug, PartialEq, Eq)]
pub struct Rehearsed {
    /// The lines of the script.
    pub lines: u64,
    /// The replies that begin with `OK` or `OPEN`.
    pub ok: u64,
    /// The replies that begin with `ROWS`.
    pub rows: u64,
    /// The replies that begin with `ERR`.
    pub errors: u64,
    /// The rows that are live at the end, whoever sees them.
    pub live: u64,
}

impl Rehearsed {
    /// Nothing is counted yet.
    pub(crate) fn none() -> Self
        ensures { result ≡ none_counted }
    {
        Rehearsed {
            lines: 0,
            ok: 0,
            rows: 0,
            errors: 0,
            live: 0,
        }
    }

    /// One line more, and its reply, if it has one.
    pub(crate) fn count(&mut self, reply: Option<Reply>)
        requires few { IsFew self.old }
        requires room { self.old.lines + 1 < 2 ^ 64 }
        ensures counted { self.new ≡ counted self.old reply }
        ensures few { IsFew self.new }
    {
        self.lines += 1;
        match reply {
            None | Some(Reply::Label(_)) => {}
            Some(Reply::Done | Reply::Count(_) | Reply::Opened) => self.ok += 1,
            Some(Reply::Rows(_)) => self.rows += 1,
            Some(Reply::Refused(_)) => self.errors += 1,
        }
    }

    /// The five numbers, each on a line behind its name.
    pub fn text(&self, alloc: Global) -> Result<Vec<u8>, OutOfMemory>
        ensures { IfOk result (λ text. text.items ≡ rehearsed_text self.now) }
    {
        let mut text = Vec::new(alloc);
        put(&mut text, b"lines", self.lines)?;
        put(&mut text, b"ok", self.ok)?;
        put(&mut text, b"rows", self.rows)?;
        put(&mut text, b"errors", self.errors)?;
        put(&mut text, b"live", self.live)?;
        Ok(text)
    }
}

/// Adds a name and a number.
fn put(text: &mut Vec<u8>, name: &[u8], number: u64) -> Result<(), OutOfMemory>
    ensures { OnOk result (text.new.items ≡ text.old.items ++ counted_as name.now number) }
{
    let mut buffer = Buffer::new();
    text.extend_from_slice(name)?;
    text.extend_from_slice(b" ")?;
    text.extend_from_slice(buffer.format(number).as_bytes())?;
    text.extend_from_slice(b"\n")
}
