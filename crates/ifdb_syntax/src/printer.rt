// The writer of canonical text.
ghost use Rattle.std.specs.Prelude.{◌≡◌, ◌++◌, ◌∷◌, [], flat_map, OnOk};
ghost use Rattle.ifdb_syntax.specs.Printed.{Printed, blank, put, after};
ghost use Rattle.ifdb_syntax.specs.canonical.Tokens.{opened, closed};
ghost use Rattle.ifdb_syntax.specs.Spelling.{doubled, quoted, spelling};

use crate::edge::Edge;
use crate::lexeme::Lexeme;
use ifdb_value::{Name, OutOfMemory, Word};
use itoa::Buffer;
use std::alloc::Global;
use std::marker::Model;

/// Writes lexemes one behind the other, with the space between each two that the canonical text has.
///
/// Where an allocation is refused, part of a lexeme may have been written: the text is then of no use.
#[derive(Drop)]
pub(crate) struct Printer {
    text: Vec<u8>,
    edge: Edge,
}

impl Model for Printer {
    ghost use Rattle.ifdb_syntax.specs.Printed.{Printed};

    ghost Value = { Printed };

    ghost view = { λ p. record { text = p.text.items; edge = p.edge } };
}

impl Printer {
    /// A printer at the start of a line.
    pub(crate) fn new(alloc: Global) -> Self
        ensures { result ≡ blank }
    {
        Printer {
            text: Vec::new(alloc),
            edge: Edge::Tight,
        }
    }

    /// What was written.
    pub(crate) fn into_text(self) -> Vec<u8>
        ensures { result.items ≡ self.text }
    {
        let Printer { text, edge: _ } = self;
        text
    }

    /// Writes a lexeme.
    #[tactic(auto, unfolding(crate::specs::Printed::put))]
    pub(crate) fn put(&mut self, lexeme: &Lexeme) -> Result<(), OutOfMemory>
        ensures { OnOk result (self.new ≡ put self.old lexeme.now) }
    {
        if self.edge.has_space_before(lexeme) {
            self.text.push(b' ')?;
        }
        push_lexeme(&mut self.text, lexeme)?;
        self.edge = self.edge.behind(lexeme);
        Ok(())
    }

    /// Writes a name.
    #[tactic(auto, unfolding(crate::specs::Printed::put))]
    pub(crate) fn name(&mut self, name: &Name) -> Result<(), OutOfMemory>
        ensures { OnOk result (self.new ≡ put self.old (Lexeme.Name name.now)) }
    {
        if !matches!(self.edge, Edge::Tight) {
            self.text.push(b' ')?;
        }
        self.text.extend_from_slice(name.as_str().as_bytes())?;
        self.edge = Edge::Operand;
        Ok(())
    }

    /// Writes a number.
    #[tactic(auto, unfolding(crate::specs::Printed::put))]
    pub(crate) fn number(&mut self, number: u64) -> Result<(), OutOfMemory>
        ensures { OnOk result (self.new ≡ put self.old (Lexeme.Number number)) }
    {
        if !matches!(self.edge, Edge::Tight) {
            self.text.push(b' ')?;
        }
        push_number(&mut self.text, number)?;
        self.edge = Edge::Operand;
        Ok(())
    }

    /// Writes a text in quotes.
    #[tactic(auto, unfolding(crate::specs::Printed::put))]
    pub(crate) fn quoted(&mut self, text: &Word) -> Result<(), OutOfMemory>
        ensures { OnOk result (self.new ≡ put self.old (Lexeme.Quoted text.now)) }
    {
        if !matches!(self.edge, Edge::Tight) {
            self.text.push(b' ')?;
        }
        push_quoted(&mut self.text, text.as_str().as_bytes())?;
        self.edge = Edge::Operand;
        Ok(())
    }

    /// Writes `(` where it is wanted.
    #[tactic(auto, using(crate::proofs::AfterLaws::after_laws))]
    pub(crate) fn open_if(&mut self, wanted: bool) -> Result<(), OutOfMemory>
        ensures { OnOk result (self.new ≡ after self.old (opened wanted)) }
    {
        if wanted {
            self.put(&Lexeme::Open)?;
        }
        Ok(())
    }

    /// Writes `)` where it is wanted.
    #[tactic(auto, using(crate::proofs::AfterLaws::after_laws))]
    pub(crate) fn close_if(&mut self, wanted: bool) -> Result<(), OutOfMemory>
        ensures { OnOk result (self.new ≡ after self.old (closed wanted)) }
    {
        if wanted {
            self.put(&Lexeme::Close)?;
        }
        Ok(())
    }
}

/// Adds a lexeme as it is spelled.
fn push_lexeme(text: &mut Vec<u8>, lexeme: &Lexeme) -> Result<(), OutOfMemory>
    ensures { OnOk result (text.new.items ≡ text.old.items ++ spelling lexeme.now) }
{
    match lexeme {
        Lexeme::Name(name) => text.extend_from_slice(name.as_str().as_bytes()),
        Lexeme::Number(number) => push_number(text, *number),
        Lexeme::Quoted(quoted) => push_quoted(text, quoted.as_str().as_bytes()),
        word => text.extend_from_slice(word.word().as_bytes()),
    }
}

/// Adds a number in decimal.
fn push_number(text: &mut Vec<u8>, number: u64) -> Result<(), OutOfMemory>
    ensures { OnOk result (text.new.items ≡ text.old.items ++ spelling (Lexeme.Number number)) }
{
    text.extend_from_slice(Buffer::new().format(number).as_bytes())
}

/// Adds a text in quotes, each quote within it twice.
fn push_quoted(text: &mut Vec<u8>, bytes: &[u8]) -> Result<(), OutOfMemory>
    ensures { OnOk result (text.new.items ≡ text.old.items ++ quoted bytes.now) }
{
    text.push(b'\'')?;
    push_doubled(text, bytes)?;
    text.push(b'\'')?;
    Ok(())
}

/// Adds bytes, each quote among them twice.
fn push_doubled(text: &mut Vec<u8>, bytes: &[u8]) -> Result<(), OutOfMemory>
    ensures { OnOk result (text.new.items ≡ text.old.items ++ flat_map doubled bytes.now) }
{
    for byte in bytes {
        if *byte == b'\'' {
            text.push(b'\'')?;
        }
        text.push(*byte)?;
    }
    Ok(())
}
