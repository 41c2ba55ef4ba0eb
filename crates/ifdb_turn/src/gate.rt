//! What stands in front of the tickets: who has passed it takes a ticket that is served at once.

use std::hint::spin_loop;
use std::sync::Wait;
use std::sync::atomic::{AtomicU64, Ordering};

// Nobody has passed the gate.
const FREE: u64 = 0;

// Somebody has.
const HELD: u64 = 1;

// Somebody has, and others may sleep in front of it.
const AWAITED: u64 = 2;

// How often a thread looks at the gate before it sleeps: some microseconds, as most turns last, and a sleep costs more.
const LOOKS: u32 = 100;

/// A gate that one thread at a time passes, which opens it again at the end of its turn. It is unfair: whoever runs when it
/// opens may pass, so that no turn waits until one certain thread runs again. Contracts know nothing of it: tickets alone
/// say whose turn it is, and the gate only ends sleeps.
#[derive(Drop)]
pub(crate) struct Gate {
    // The word stands apart from what other threads read: two lines of a cache on each side.
    before: [u64; 16],
    word: AtomicU64,
    behind: [u64; 16],
}

impl Gate {
    /// A gate that nobody has passed.
    pub(crate) fn new() -> Self {
        Gate {
            before: [0; 16],
            word: AtomicU64::new(FREE),
            behind: [0; 16],
        }
    }

    /// Passes the gate once it is free: looks for a while, and then sleeps. Who sleeps has left word of it, which whoever
    /// opens the gate finds, and then wakes one.
    pub(crate) fn pass<R: Wait>(&self, rt: &R) {
        if self.is_passed_soon() {
            return;
        }
        for _ in rt.forever() {
            if self.word.swap(AWAITED, Ordering::SeqCst) == FREE {
                return;
            }
            self.word.park(rt, AWAITED as u32);
        }
    }

    /// Opens the gate, and wakes one who sleeps in front of it.
    pub(crate) fn open(&self) {
        if self.word.swap(FREE, Ordering::SeqCst) == AWAITED {
            self.word.wake_one();
        }
    }

    // Whether the gate is passed within some looks.
    fn is_passed_soon(&self) -> bool {
        for _ in 0..LOOKS {
            if self.word.load(Ordering::SeqCst) == FREE && self.is_passed() {
                return true;
            }
            spin_loop();
        }
        false
    }

    // Whether the gate is free, and is passed.
    fn is_passed(&self) -> bool {
        let passed = self
            .word
            .compare_exchange(FREE, HELD, Ordering::SeqCst, Ordering::SeqCst);
        passed.is_ok()
    }
}
