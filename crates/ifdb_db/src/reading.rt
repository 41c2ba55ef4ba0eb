// From a line to its request.
ghost use Rattle.std.specs.Prelude.{◌≡◌, ◌⊎◌, true, Ok, Err, IfOk, IfErr, IsTrue};
ghost use Rattle.ifdb_wire.specs.declared.fault.Fault.TheVariants.{OutOfMemory as NoMemory};
ghost use Rattle.ifdb_snapshot.specs.Narrow.{is_narrow};
ghost use Rattle.ifdb_model.specs.Step.{form_of, looks};
ghost use Rattle.ifdb_db.specs.Looks.{IsSelect};
ghost use Rattle.ifdb_db.specs.Reading.{read_line, IsReadAsSelect};

use ifdb_parse::{ParseFault, parse};
use ifdb_syntax::Request;
use ifdb_wire::Fault;
use std::alloc::Global;
use std::marker::Model;

/// The request of a line, or the refusal of its fault.
pub(crate) fn read_line(alloc: Global, line: &[u8]) -> Result<Request, Fault>
    ensures request { IfOk result (λ r. read_line line.now ≡ Ok r) }
    ensures narrow { IfOk result (λ r. IsTrue (is_narrow r)) }
    ensures refused { IfErr result (λ f. (f ≡ NoMemory) ⊎ (read_line line.now ≡ Err f)) }
{
    match parse(alloc, line) {
        Ok(request) => Ok(request),
        Err(ParseFault::Syntax(at)) => Err(Fault::Syntax(at)),
        Err(ParseFault::Limit) => Err(Fault::Limit),
        Err(ParseFault::OutOfMemory) => Err(Fault::OutOfMemory),
    }
}

/// A line that was read: its request, or the refusal of its fault, or want of memory. So reading can come before the turn in
/// which the line is asked.
///
/// Contracts see the line.
#[derive(Drop)]
pub struct ReadLine<'a> {
    text: &'a [u8],
    found: Result<Request, Fault>,
}

impl<'a> Model for ReadLine<'a> {
    ghost use Rattle.std.specs.Prelude.{ℕ, List};
    ghost use Rattle.ifdb_db.specs.Reading.{IsRead};

    ghost Value = { List ℕ };

    ghost view = { λ l. l.text.now };

    ghost invariant = { λ l. IsRead l.text.now l.found };
}

impl<'a> ReadLine<'a> {
    /// Reads a line, with the memory that its request takes.
    pub fn new(alloc: Global, text: &'a [u8]) -> Self
        ensures { result ≡ text.now }
    {
        ReadLine {
            text,
            found: read_line(alloc, text),
        }
    }

    /// The line.
    pub(crate) fn text(&self) -> &'a [u8]
        ensures { result.now ≡ self.now }
    {
        self.text
    }

    /// The same line as one that is a SELECT; any other is given back.
    pub(crate) fn into_select(self) -> Result<SelectLine<'a>, Self>
        ensures select { IfOk result (λ line. line ≡ self.entry) }
        ensures other { IfErr result (λ line. line ≡ self.entry) }
    {
        let ReadLine { text, found } = self;
        match found {
            Ok(request) => {
                if is_select(&request) {
                    return Ok(SelectLine { text, request });
                }
                Err(ReadLine {
                    text,
                    found: Ok(request),
                })
            }
            Err(fault) => Err(ReadLine {
                text,
                found: Err(fault),
            }),
        }
    }

    /// Its request, or the refusal of its fault, or want of memory.
    pub(crate) fn into_request(self) -> Result<Request, Fault>
        ensures request { IfOk result (λ r. read_line self.entry ≡ Ok r) }
        ensures narrow { IfOk result (λ r. IsTrue (is_narrow r)) }
        ensures refused { IfErr result (λ f. (f ≡ NoMemory) ⊎ (read_line self.entry ≡ Err f)) }
    {
        let ReadLine { found, .. } = self;
        found
    }
}

// Whether a request is a SELECT.
fn is_select(request: &Request) -> bool
    ensures { result ≡ true → form_of request.now ≡ looks }
{
    matches!(request, Request::Select(_))
}

/// A line whose request is a SELECT.
///
/// Contracts see the line.
#[derive(Drop)]
pub(crate) struct SelectLine<'a> {
    text: &'a [u8],
    request: Request,
}

impl<'a> Model for SelectLine<'a> {
    ghost use Rattle.std.specs.Prelude.{ℕ, List};
    ghost use Rattle.ifdb_db.specs.Reading.{IsReadAsSelect};

    ghost Value = { List ℕ };

    ghost view = { λ l. l.text.now };

    ghost invariant = { λ l. IsReadAsSelect l.text.now l.request };
}

impl<'a> SelectLine<'a> {
    /// Its request.
    pub(crate) fn into_request(self) -> Request
        ensures { IsReadAsSelect self.entry result }
    {
        let SelectLine { request, .. } = self;
        request
    }

    /// What is true of every such line. Does nothing.
    pub(crate) fn is_sound(&self)
        ensures { IsSelect self.now }
    {
        let _ = &self.text;
    }
}

impl<'a> From<SelectLine<'a>> for ReadLine<'a> {
    fn from(line: SelectLine<'a>) -> Self
        ensures { result ≡ line.entry }
    {
        let SelectLine { text, request } = line;
        ReadLine {
            text,
            found: Ok(request),
        }
    }
}
