// A service that says each line back.
ghost use Rattle.std.specs.Prelude.{◌≡◌, []};
ghost use Rattle.test_loop.specs.Numbers.{numbers_below};

use ifdb_io::{Failed, OutOfMemory};
use ifdb_loop::Service;
use std::alloc::Global;

// What refuses a line that is too long.
const LONG: &[u8] = b"!\n";

// How long a reply may be that a line asks for.
const LONGEST: usize = 1 << 30;

/// Says each line back, up to BYE. A line of a star and a number is answered by so many bytes, up to a gigabyte. Settling fails at
/// the call that it was told.
#[derive(Drop)]
pub struct Echo {
    opened: u64,
    settled: u64,
    fails_at: u64,
    limit: usize,
    out: Vec<u8>,
    is_long: bool,
    /// How many sessions have left.
    pub left: u64,
}

impl Echo {
    /// No session was opened yet. Each connection may give so many bytes. The settling of this number fails, from 1 on; at 0 none
    /// does.
    pub fn new(alloc: Global, limit: usize, fails_at: u64) -> Echo
        ensures { numbers_below result.opened ≡ [] }
    {
        Echo {
            opened: 0,
            settled: 0,
            fails_at,
            limit,
            out: Vec::new(alloc),
            is_long: false,
            left: 0,
        }
    }
}

// How many bytes a line asks for, if it does.
fn asked_for(line: &[u8]) -> Option<usize> {
    let (star, digits) = line.split_first()?;
    if *star != b'*' {
        return None;
    }
    let mut count: usize = 0;
    for digit in digits {
        if !digit.is_ascii_digit() {
            return None;
        }
        count = count
            .saturating_mul(10)
            .saturating_add(usize::from(*digit - b'0'));
    }
    Some(count.min(LONGEST))
}

impl Service for Echo {
    ghost use Rattle.std.specs.Prelude.{◌≡◌, ◌<◌, ◌∷◌, [], if◌then◌else◌};
    ghost use Rattle.std.proofs.Common.{◌∙◌, refl};
    ghost use Rattle.test_loop.specs.Numbers.{numbers_below};

    type Seat = u64;

    ghost ready = { λ _. Unit {0} };

    ghost goes_on = { λ echo now. now.limit ≡ echo.limit };

    ghost number = { λ seat. seat };

    ghost says = { λ echo seat d. seat < echo.opened };

    ghost is_over = { λ _ _ _. Unit {0} };

    ghost opened = { λ echo. numbers_below echo.opened };

    ghost is_kept = { λ _. Unit {0} };

    ghost has_failed = { λ _. Unit {0} };

    ghost text = { λ echo. if echo.is_long then 33 ∷ 10 ∷ [] else echo.out.items };

    ghost long_text = { 33 ∷ 10 ∷ [] };

    ghost limit = { λ echo. echo.limit };

    fn open(&mut self) -> Result<u64, OutOfMemory> {
        if self.opened == u64::MAX {
            return Err(OutOfMemory);
        }
        let number = self.opened;
        self.opened += 1;
        Ok(number)
    }

    fn ask(&mut self, _seat: &mut u64, line: &[u8]) -> Result<bool, OutOfMemory> {
        self.is_long = false;
        self.out.clear();
        match asked_for(line) {
            Some(count) => self.out.resize(count, b'x')?,
            None => self.out.extend_from_slice(line)?,
        }
        self.out.push(b'\n')?;
        Ok(line != b"BYE".as_slice())
    }

    fn refuse_long(&mut self) {
        self.is_long = true;
    }

    fn text(&self) -> &[u8] {
        if self.is_long {
            LONG
        } else {
            self.out.as_slice()
        }
    }

    fn limit(&self) -> usize {
        self.limit
    }

    fn settle(&mut self) -> Result<(), Failed> {
        self.settled = self.settled.saturating_add(1);
        if self.settled == self.fails_at {
            return Err(Failed);
        }
        Ok(())
    }

    fn leave(&mut self, _seat: u64) {
        self.left = self.left.saturating_add(1);
    }

    ghost keeps_all = { λ _ _ _ _ says. says };

    ghost goes_itself = { λ _. refl };

    ghost goes_further = { λ r s t p q. q ∙ p };

    ghost keeps_limit = { λ _ _ goes. goes };

    ghost stays_over = { λ _ _ _ _ _ _. tt };

    ghost stays_failed = { λ _ _ _ _. tt };
}
