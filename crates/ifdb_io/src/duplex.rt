// Connections made of a source and a sink.
use crate::{Failed, Link, MemorySink, MemorySource, Sink, Source, SureSink, SureSource};

/// A connection that reads from a source and writes to a sink, of which neither knows the other.
#[derive(Drop)]
pub struct Duplex<R, W> {
    /// What is read from.
    pub source: R,
    /// What is written to.
    pub sink: W,
}

/// A connection in memory, whose source and sink fail at the calls that they were told.
pub type MemoryLink = Duplex<MemorySource, MemorySink>;

/// A connection in memory that fails only where the room of its sink is full.
pub type SureLink = Duplex<SureSource, SureSink>;

impl<R: Source, W: Sink> Source for Duplex<R, W> {
    ghost left = { λ link. R.left link.source };

    ghost faults = { λ link. R.faults link.source };

    ghost beside = { λ link. (W.written link.sink, W.faults link.sink, (W.beside link.sink).2) };

    fn read(&mut self, buf: &mut [u8]) -> Result<usize, Failed> {
        self.source.read(buf)
    }
}

impl<R: Source, W: Sink> Sink for Duplex<R, W> {
    ghost written = { λ link. W.written link.sink };

    ghost faults = { λ link. W.faults link.sink };

    ghost beside = { λ link. (R.left link.source, R.faults link.source, (W.beside link.sink).2) };

    fn write(&mut self, piece: &[u8]) -> Result<usize, Failed> {
        self.sink.write(piece)
    }
}

impl<R: Source, W: Sink> Link for Duplex<R, W> {
    ghost use Rattle.std.specs.Prelude.{refl};

    ghost fixed = { λ link. (W.beside link.sink).2 };

    ghost reading = { λ _. refl };

    ghost writing = { λ _. refl };
}
