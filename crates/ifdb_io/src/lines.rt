// The lines of a source, however its reads are cut.
ghost use Rattle.std.specs.Prelude.{◌≡◌, ◌≢◌, ◌<◌, ◌≤◌, ◌+◌, ◌^◌, ◌++◌, [], ◌∷◌, length, true, false, IfOk, OnOk};
ghost use Rattle.std.specs.Io.KnownBytes.{IsAtEnd};
ghost use Rattle.ifdb_io.specs.Causes.{Rose};
ghost use Rattle.ifdb_io.specs.Lines.{Reading, budget, Gives, Ends, Exceeds, IsLine, IsLong, is_last};
ghost use Rattle.ifdb_io.specs.Reader.{ReadsSame, Takes, Passes, Cuts, MovesOn};

use crate::reads::{add, newline_in, refill};
use crate::{Failed, OutOfMemory, Source};
use std::alloc::Global;
use std::error::Error;
use std::fmt;
use std::marker::Model;

/// The most bytes that a line has, its newline not counted.
pub const LONGEST_LINE: usize = 65_535;

// The first length of a line that is too long.
const LONG: usize = LONGEST_LINE + 1;

// How many bytes are read at a time.
const CHUNK: usize = 65_536;

/// A law, and does nothing: how long a line may be, and from where on it is too long.
pub fn lines_are_bounded()
    ensures longest { LONGEST_LINE ≡ 65535 }
    ensures long { LONG ≡ 65536 }
{}

/// What `LineReader::next` found.
#[derive(Clone, Copy, Debug, PartialEq, Eq)]
pub enum Line {
    /// A line of at most `LONGEST_LINE` bytes. Its newline was read too, and stands nowhere.
    Whole,
    /// The input ended after bytes without a newline.
    Rest,
    /// A line of more than `LONGEST_LINE` bytes. The next call drops the rest of it.
    TooLong,
    /// The input ended, and nothing is left.
    End,
}

/// Why `LineReader::next` gave no line.
#[derive(Clone, Copy, Debug, PartialEq, Eq)]
pub enum LineFault {
    /// The source failed.
    Read,
    /// The input has more bytes than the limit.
    TooMuch,
}

impl fmt::Display for LineFault {
    fn fmt<W: fmt::Write>(&self, f: &mut fmt::Formatter<W>) -> fmt::Result {
        match self {
            LineFault::Read => write!(f, "the source failed"),
            LineFault::TooMuch => write!(f, "the input has more bytes than the limit"),
        }
    }
}

impl Error for LineFault {}

// What became of the held bytes.
#[derive(Clone, Copy, Debug, PartialEq, Eq)]
enum Gathered {
    // The text is a line, and its newline is gone.
    Line,
    // The text is the front of a line that is too long.
    Long,
    // No byte is held, and the text is not yet a line.
    All,
}

/// Gives the lines of a source one by one.
#[derive(Drop)]
pub struct LineReader {
    text: Vec<u8>,
    chunk: Vec<u8>,
    from: usize,
    to: usize,
    skipping: bool,
    taken: u64,
    limit: u64,
    over: bool,
}

impl Model for LineReader {
    ghost use Rattle.std.specs.Prelude.{◌≡◌, ◌≤◌, ◌+◌, ◌^◌, false, slice_range, vec_len, vec_capacity};
    ghost use Rattle.ifdb_io.specs.declared.lines.TheConstants.{LONG, CHUNK};
    ghost use Rattle.ifdb_io.specs.Lines.{Reading};

    ghost Value = { Reading };

    ghost view = { λ r. record {
      text = r.text.items;
      held = slice_range r.chunk.items r.from r.to;
      skipping = r.skipping;
      taken = r.taken;
      limit = r.limit;
      over = r.over;
    } };

    ghost invariant = { λ r. (r.from ≤ r.to) × (r.to ≤ CHUNK) × (vec_len r.chunk ≡ CHUNK)
        × (LONG ≤ vec_capacity r.text) × (vec_len r.text ≤ LONG)
        × (r.limit ≤ 2 ^ 40) × (r.taken ≤ r.limit + 1) × (r.over ≡ false → r.taken ≤ r.limit) };
}

impl LineReader {
    /// A reader that makes lines of the first `limit` bytes of a source. Takes 128 KiB.
    pub fn new(alloc: Global, limit: u64) -> Result<LineReader, OutOfMemory>
        requires { limit ≤ 2 ^ 40 }
        ensures { IfOk result (λ reader. reader ≡ record {
          text = [];
          held = [];
          skipping = false;
          taken = 0;
          limit = limit;
          over = false;
        }) }
    {
        Ok(LineReader {
            text: Vec::with_capacity(alloc, LONG)?,
            chunk: vec![in alloc; 0; CHUNK]?,
            from: 0,
            to: 0,
            skipping: false,
            taken: 0,
            limit,
            over: false,
        })
    }

    /// The next line, which then stands in `text`. It depends on the bytes of the source alone, and
    /// not on how the reads were cut. Takes no memory.
    pub fn next<R: Source>(&mut self, source: &mut R) -> Result<Line, LineFault>
        requires { self.old.over ≡ false }

        // What each answer says of the bytes.
        ensures whole { result ≡ Ok Line.Whole →
            Gives self.old self.new (R.left source.old) (R.left source.new)
            (self.new.text ++ 10 ∷ []) }
        ensures whole_line { result ≡ Ok Line.Whole → IsLine self.new.text }
        ensures whole_kept { result ≡ Ok Line.Whole → self.new.skipping ≡ false }
        ensures long { result ≡ Ok Line.TooLong →
            Gives self.old self.new (R.left source.old) (R.left source.new) self.new.text }
        ensures long_line { result ≡ Ok Line.TooLong → IsLong self.new.text }
        ensures long_skips { result ≡ Ok Line.TooLong → self.new.skipping ≡ true }
        ensures rest { result ≡ Ok Line.Rest →
            Ends self.old self.new (R.left source.old) (R.left source.new) }
        ensures rest_some { result ≡ Ok Line.Rest → 0 < length self.new.text }
        ensures rest_last { result ≡ Ok Line.Rest → IsAtEnd (R.left source.new) }
        ensures end { result ≡ Ok Line.End →
            Ends self.old self.new (R.left source.old) (R.left source.new) }
        ensures end_none { result ≡ Ok Line.End → self.new.text ≡ [] }
        ensures end_last { result ≡ Ok Line.End → IsAtEnd (R.left source.new) }
        ensures read { result ≡ Err LineFault.Read →
            Ends self.old self.new (R.left source.old) (R.left source.new) }
        ensures read_cause { result ≡ Err LineFault.Read →
            Rose (R.faults source.old) (R.faults source.new) }
        ensures much { result ≡ Err LineFault.TooMuch →
            Exceeds self.old self.new (R.left source.old) (R.left source.new) }

        // What is so at every answer.
        ensures later { R.faults source.old ≤ R.faults source.new }
        ensures unfailed { result ≢ Err LineFault.Read →
            R.faults source.new ≡ R.faults source.old }
        ensures beside { R.beside source.new ≡ R.beside source.old }
        ensures limit { self.new.limit ≡ self.old.limit }
        ensures within { result ≢ Err LineFault.TooMuch → self.new.taken ≤ self.new.limit }
        ensures over { self.new.over ≡ is_last result }
        ensures falls { is_last result ≡ false → budget self.new < budget self.old }
    {
        self.begin();
        while self.ready(source)? {
            match self.gather() {
                Gathered::Line => return Ok(Line::Whole),
                Gathered::Long => return Ok(Line::TooLong),
                Gathered::All => {}
            }
        }
        if self.text().is_empty() {
            return Ok(Line::End);
        }
        Ok(Line::Rest)
    }

    /// The last line.
    pub fn text(&self) -> &[u8]
        ensures { result.now ≡ self.now.text }
    {
        &self.text
    }

    /// How many bytes were taken from the source.
    pub fn taken(&self) -> u64
        ensures { result ≡ self.now.taken }
    {
        self.taken
    }

    /// Whether no line comes any more.
    pub fn is_over(&self) -> bool
        ensures { result ≡ self.now.over }
    {
        self.over
    }

    // Empties the text.
    fn begin(&mut self)
        ensures { self.new ≡ record self.old { text = [] } }
    {
        self.text.clear();
    }

    // Holds at least one byte, unless the input is at its end. Then the reader is over.
    fn ready<R: Source>(&mut self, source: &mut R) -> Result<bool, LineFault>
        requires { self.old.over ≡ false }
        ensures bytes { result ≢ Err LineFault.TooMuch →
            Takes self.old self.new (R.left source.old) (R.left source.new) }
        ensures within { result ≢ Err LineFault.TooMuch → self.new.taken ≤ self.new.limit }
        ensures past { result ≡ Err LineFault.TooMuch →
            Passes self.old self.new (R.left source.old) (R.left source.new) }
        ensures some { result ≡ Ok true → 0 < length self.new.held }
        ensures none { result ≢ Ok true → self.new.held ≡ [] }
        ensures end { result ≡ Ok false → IsAtEnd (R.left source.new) }
        ensures read { result ≡ Err LineFault.Read
            → Rose (R.faults source.old) (R.faults source.new) }
        ensures going { result ≡ Ok true → self.new.over ≡ false }
        ensures over { result ≢ Ok true → self.new.over ≡ true }
        ensures text { self.new.text ≡ self.old.text }
        ensures limit { self.new.limit ≡ self.old.limit }
        ensures budget { result ≡ Ok true → budget self.new ≡ budget self.old }
        ensures later { R.faults source.old ≤ R.faults source.new }
        ensures unfailed { result ≢ Err LineFault.Read →
            R.faults source.new ≡ R.faults source.old }
        ensures beside { R.beside source.new ≡ R.beside source.old }
    {
        if self.from < self.to {
            return Ok(true);
        }
        if self.taken == self.limit {
            self.probe(source)?;
            return Ok(false);
        }
        let room = usize::min(CHUNK, (self.limit - self.taken) as usize);
        match refill(source, &mut self.chunk, room) {
            Err(Failed) => {
                self.over = true;
                Err(LineFault::Read)
            }
            Ok(0) => {
                self.over = true;
                Ok(false)
            }
            Ok(count) => {
                self.from = 0;
                self.to = count;
                self.taken += count as u64;
                Ok(true)
            }
        }
    }

    // Looks for a byte past the limit, and is over.
    fn probe<R: Source>(&mut self, source: &mut R) -> Result<(), LineFault>
        requires limit { self.old.taken ≡ self.old.limit }
        requires none { self.old.held ≡ [] }
        ensures bytes { result ≢ Err LineFault.TooMuch →
            Takes self.old self.new (R.left source.old) (R.left source.new) }
        ensures within { result ≢ Err LineFault.TooMuch → self.new.taken ≤ self.new.limit }
        ensures past { result ≡ Err LineFault.TooMuch →
            Passes self.old self.new (R.left source.old) (R.left source.new) }
        ensures none { self.new.held ≡ [] }
        ensures end { OnOk result (IsAtEnd (R.left source.new)) }
        ensures read { result ≡ Err LineFault.Read
            → Rose (R.faults source.old) (R.faults source.new) }
        ensures over { self.new.over ≡ true }
        ensures text { self.new.text ≡ self.old.text }
        ensures limit { self.new.limit ≡ self.old.limit }
        ensures later { R.faults source.old ≤ R.faults source.new }
        ensures unfailed { result ≢ Err LineFault.Read →
            R.faults source.new ≡ R.faults source.old }
        ensures beside { R.beside source.new ≡ R.beside source.old }
    {
        self.over = true;
        self.to = self.from;
        match refill(source, &mut self.chunk, 1) {
            Err(Failed) => Err(LineFault::Read),
            Ok(0) => Ok(()),
            Ok(_) => {
                self.taken += 1;
                Err(LineFault::TooMuch)
            }
        }
    }

    // Takes the next part of a line off the held bytes.
    fn gather(&mut self) -> Gathered
        requires line { IsLine self.old.text }
        requires some { 0 < length self.old.held }
        ensures newline { result ≡ Gathered.Line
            → Cuts self.old self.new (self.new.text ++ 10 ∷ []) }
        ensures newline_kept { result ≡ Gathered.Line → self.new.skipping ≡ false }
        ensures long { result ≡ Gathered.Long → Cuts self.old self.new self.new.text }
        ensures long_line { result ≡ Gathered.Long → IsLong self.new.text }
        ensures long_skips { result ≡ Gathered.Long → self.new.skipping ≡ true }
        ensures all { result ≡ Gathered.All → ReadsSame self.old self.new }
        ensures line { result ≢ Gathered.Long → IsLine self.new.text }
        ensures goes_on { MovesOn self.old self.new }
    {
        if self.skipping {
            self.skip();
            return Gathered::All;
        }
        self.extend()
    }

    // Drops held bytes of a line that was too long.
    fn skip(&mut self)
        requires skipping { self.old.skipping ≡ true }
        requires some { 0 < length self.old.held }
        ensures text { self.new.text ≡ self.old.text }
        ensures same { ReadsSame self.old self.new }
        ensures goes_on { MovesOn self.old self.new }
    {
        match newline_in(&self.chunk[self.from..self.to]) {
            Some(place) => {
                self.from += place + 1;
                self.skipping = false;
            }
            None => self.from = self.to,
        }
    }

    // Moves held bytes to the text, up to the first newline or as many as make it too long.
    fn extend(&mut self) -> Gathered
        requires plain { self.old.skipping ≡ false }
        requires line { IsLine self.old.text }
        requires some { 0 < length self.old.held }
        ensures newline { result ≡ Gathered.Line
            → Cuts self.old self.new (self.new.text ++ 10 ∷ []) }
        ensures newline_kept { result ≡ Gathered.Line → self.new.skipping ≡ false }
        ensures long { result ≡ Gathered.Long → Cuts self.old self.new self.new.text }
        ensures long_line { result ≡ Gathered.Long → IsLong self.new.text }
        ensures long_skips { result ≡ Gathered.Long → self.new.skipping ≡ true }
        ensures all { result ≡ Gathered.All → ReadsSame self.old self.new }
        ensures line { result ≢ Gathered.Long → IsLine self.new.text }
        ensures goes_on { MovesOn self.old self.new }
    {
        let end = usize::min(self.to, self.from + (LONG - self.text.len()));
        let piece = &self.chunk[self.from..end];
        match newline_in(piece) {
            Some(place) => {
                add(&mut self.text, &piece[..place]);
                self.from += place + 1;
                Gathered::Line
            }
            None => {
                add(&mut self.text, piece);
                self.from = end;
                if self.text.len() < LONG {
                    return Gathered::All;
                }
                self.skipping = true;
                Gathered::Long
            }
        }
    }
}
