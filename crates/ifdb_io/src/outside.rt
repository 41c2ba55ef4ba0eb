// Sources, sinks and links: what they mean to a proof, and what their calls keep.
ghost use Rattle.std.specs.Prelude.{◌≡◌, ◌<◌, ℕ, List, length, Option, None, IfOk};
ghost use Rattle.std.specs.Io.{ReadsAtMost, WritesAtMost};
ghost use Rattle.std.specs.Io.KnownBytes.{ReadConsumes, WriteAppends};
ghost use Rattle.ifdb_io.specs.Causes.{HasCause};

/// A source, a sink or a door failed. Its count of faults rose in the call that answered so.
#[derive(Clone, Copy, Debug, PartialEq, Eq)]
pub struct Failed;

/// Something that bytes are read from.
pub trait Source {
    /// The bytes that are left, where the source tells them.
    ghost left: { Self → Option (List ℕ) };

    /// How often reading has failed, up to 2^64 - 1.
    ghost faults: { Self → ℕ };

    /// What else the thing means, which reading leaves alone: of a link, what was written, how often
    /// writing has failed, and a number that no call changes.
    ghost beside: { Self → Option (List ℕ) × ℕ × ℕ } = { λ _. (None, 0, 0) };

    /// Gives some of the bytes that are left, at most as many as the buffer has room for. 0 at a
    /// buffer with room is the end of the input. `Failed` takes nothing.
    fn read(&mut self, buf: &mut [u8]) -> Result<usize, Failed>
        ensures bound { ReadsAtMost result buf.new }
        ensures bytes { ReadConsumes (left self.old) (left self.new) result buf.new }
        ensures cause { HasCause (faults self.old) (faults self.new) result }
        ensures beside { beside self.new ≡ beside self.old };
}

/// Something that bytes are written to.
pub trait Sink {
    /// The bytes that were written, where the sink tells them.
    ghost written: { Self → Option (List ℕ) };

    /// How often writing has failed, up to 2^64 - 1.
    ghost faults: { Self → ℕ };

    /// What else the thing means, which writing leaves alone: of a link, what is left to read, how
    /// often reading has failed, and a number that no call changes, as the room of a sink in memory.
    ghost beside: { Self → Option (List ℕ) × ℕ × ℕ } = { λ _. (None, 0, 0) };

    /// Takes the front of the piece, at least one byte of a piece that has one, and says how many.
    /// `Failed` takes nothing.
    fn write(&mut self, piece: &[u8]) -> Result<usize, Failed>
        ensures bound { WritesAtMost result piece.now }
        ensures some { IfOk result (λ n. 0 < length piece.now → 0 < n) }
        ensures bytes { WriteAppends (written self.old) (written self.new) result piece.now }
        ensures cause { HasCause (faults self.old) (faults self.new) result }
        ensures beside { beside self.new ≡ beside self.old };
}

/// A connection: a source and a sink in one, where neither side changes what the other means.
pub trait Link: Source + Sink {
    /// A number that no call changes.
    ghost fixed: { Self → ℕ } = { λ _. 0 };

    /// What reading leaves alone is all that writing means.
    ghost reading: { (link : Self) →
        Self.Source.beside link ≡ (Self.written link, Self.Sink.faults link, fixed link) };

    /// What writing leaves alone is all that reading means.
    ghost writing: { (link : Self) →
        Self.Sink.beside link ≡ (Self.left link, Self.Source.faults link, fixed link) };
}
