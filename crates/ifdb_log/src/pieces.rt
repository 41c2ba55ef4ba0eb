// A text of any length, as records of a journal.
ghost use Rattle.std.specs.Prelude.{◌≡◌, ◌≤◌, ◌<◌, ◌+◌, ℕ, length, IfNone, IfSome};
ghost use Rattle.ifdb_journal.specs.Records.{IsLawful};
ghost use Rattle.ifdb_log.specs.Pieces.{piece, pieces, pieces_left, size_of};

/// How many bytes each piece of a text has but the last one, which has fewer.
pub const PIECE_SIZE: usize = 65_535;

// What a piece takes in a journal beside its bytes.
const HEAD_SIZE: usize = 14;

// The session of the first piece of a text.
pub(crate) const FIRST: u64 = 0;

// The session of each further one.
pub(crate) const FURTHER: u64 = 1;

/// A piece of a text: the line of an Ask, and its session.
#[derive(Clone, Copy, Debug)]
pub struct Piece<'a> {
    /// 0 for the first piece of a text, and 1 for each further one.
    pub session: u64,
    /// Its bytes: 65,535 of them, or fewer for the last piece of a text.
    pub line: &'a [u8],
    pub ghost lawful: { IsLawful (piece session line.now) },
}

/// The pieces of a text, one by one. Takes no memory.
#[derive(Clone, Copy, Debug)]
pub struct Pieces<'a> {
    session: u64,
    rest: &'a [u8],
    // Whether the last one was given.
    is_done: bool,
}

impl<'a> Pieces<'a> {
    /// The pieces of a text.
    pub fn of(text: &'a [u8]) -> Pieces<'a>
        ensures { pieces_left result.is_done result.session result.rest.now ≡ pieces text.now }
    {
        Pieces {
            session: FIRST,
            rest: text,
            is_done: false,
        }
    }
}

impl<'a> Iterator for Pieces<'a> {
    ghost use Rattle.std.specs.Iterator.{YieldsFirstBy, item_count};
    ghost use Rattle.ifdb_log.specs.Pieces.{piece, pieces_left};

    type Item = Piece<'a>;

    ghost next_gives = { YieldsFirstBy (λ p. piece p.session p.line.now)
        (λ s. pieces_left s.is_done s.session s.rest.now) };

    ghost remaining = { item_count (λ s. pieces_left s.is_done s.session s.rest.now) };

    fn next(&mut self) -> Option<Piece<'a>> {
        if self.is_done {
            return None;
        }
        let session = self.session;
        if self.rest.len() < PIECE_SIZE {
            self.is_done = true;
            return Some(Piece {
                session,
                line: self.rest,
            });
        }
        let (line, rest) = self.rest.split_at(PIECE_SIZE);
        self.session = FURTHER;
        self.rest = rest;
        Some(Piece { session, line })
    }
}

/// The length of the longest text whose pieces take at most so many bytes of a journal. `None`
/// where not even those of an empty one do.
pub fn longest_text(room: usize) -> Option<usize>
    ensures fits { IfSome result (λ most. (n : ℕ) → n ≤ most → size_of n ≤ room) }
    ensures most { IfSome result (λ most. room < size_of (most + 1)) }
    ensures none { IfNone result (room < size_of 0) }
{
    let free = room.checked_sub(HEAD_SIZE)?;
    let whole = free / (PIECE_SIZE + HEAD_SIZE);
    let rest = free % (PIECE_SIZE + HEAD_SIZE);
    Some(whole * PIECE_SIZE + rest.min(PIECE_SIZE - 1))
}
