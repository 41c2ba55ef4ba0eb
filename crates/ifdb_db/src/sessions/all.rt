// All sessions that were opened.
ghost use Rattle.std.specs.Prelude.{◌≡◌};

use super::Sessions;
use crate::OutOfMemory;
use crate::session::Session;
use std::alloc::Global;
use std::mem;

/// All sessions that were opened, as those of a script, whose labels are looked at once they are closed. Each takes some 130 bytes.
#[derive(Drop)]
pub struct AllSessions {
    pub(crate) items: Vec<Session>,
}

impl Sessions for AllSessions {
    ghost clients = { λ s. s.items.items };

    fn none(alloc: Global) -> Self {
        AllSessions {
            items: Vec::new(alloc),
        }
    }

    fn count(&self) -> u64 {
        self.items.len() as u64
    }

    fn find(&self, n: u64) -> Option<&Session> {
        if n == 0 || n > self.items.len() as u64 {
            return None;
        }
        Some(&self.items[(n - 1) as usize])
    }

    fn replace(&mut self, n: u64, session: Session) -> Session {
        mem::replace(&mut self.items[(n - 1) as usize], session)
    }

    fn add(&mut self, session: Session) -> Result<(), OutOfMemory> {
        self.items.push(session)?;
        Ok(())
    }
}
