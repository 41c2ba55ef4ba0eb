// Doors, through which connections come, and sites, which have doors.
ghost use Rattle.std.specs.Prelude.{◌≡◌, ◌<◌, ◌≤◌, ◌+◌, ℕ, List, Bool, true, Option, Some, IfOk, OnErr, All, vec_len, if◌then◌else◌};
ghost use Rattle.ifdb_io.specs.Causes.{Rose, HasCause};
ghost use Rattle.ifdb_io.specs.Doors.{Stays, LosesFirst, GainsLast, Becomes, TakesNext, is_link, is_end};

use crate::{Failed, Link};
use std::error::Error;
use std::fmt;

/// Something that connections come through.
pub trait Door {
    /// A connection, which a worker may serve in its thread.
    type Link: Link + Send;

    /// The most links that the door may still give.
    ghost most: { Self → ℕ };

    /// How many links are out: given by `next`, and not yet taken back by `done`.
    ghost out: { Self → ℕ };

    /// Whether the door is at its end, from where no connection comes any more.
    ghost ended: { Self → Bool };

    /// How often the door has failed, up to 2^64 - 1.
    ghost faults: { Self → ℕ };

    /// The links still to come, in order, where the door tells them.
    ghost coming: { Self → Option (List Self.Link) };

    /// The links given back, in order, where the door tells them.
    ghost back: { Self → Option (List Self.Link) };

    /// The next connection, or none for good at the door's end. `Failed` takes none.
    fn next(&mut self) -> Result<Option<Self::Link>, Failed>
        ensures fewer { is_link result ≡ true → most self.new < most self.old }
        ensures most { most self.new ≤ most self.old }
        ensures out { out self.new ≡ (if is_link result then out self.old + 1 else out self.old) }
        ensures end { ended self.new ≡ is_end result }
        ensures at_end { ended self.old ≡ true → is_end result ≡ true }
        ensures coming { TakesNext (coming self.old) (coming self.new) result }
        ensures back { Stays (back self.old) (back self.new) }
        ensures cause { HasCause (faults self.old) (faults self.new) result };

    /// Takes a served link back: closes it, or keeps it for a test.
    fn done(&mut self, link: Self::Link)
        requires { 0 < out self.old }
        ensures most { most self.new ≡ most self.old }
        ensures out { out self.new + 1 ≡ out self.old }
        ensures end { ended self.new ≡ ended self.old }
        ensures coming { Stays (coming self.old) (coming self.new) }
        ensures back { GainsLast (back self.old) (back self.new) link }
        ensures faults { faults self.new ≡ faults self.old };
}

/// Why a site gave no doors.
#[derive(Clone, Copy, Debug, PartialEq, Eq)]
pub enum SiteFault {
    /// The site failed, as its count of faults says.
    Failed,
    /// There was no memory left.
    OutOfMemory,
}

impl fmt::Display for SiteFault {
    fn fmt<W: fmt::Write>(&self, f: &mut fmt::Formatter<W>) -> fmt::Result {
        match self {
            SiteFault::Failed => write!(f, "the site failed"),
            SiteFault::OutOfMemory => write!(f, "out of memory"),
        }
    }
}

impl Error for SiteFault {}

/// What a site was asked for.
#[derive(Clone, Copy, Debug, PartialEq, Eq)]
pub struct Asked {
    /// The port that the doors stand at.
    pub port: u16,
    /// How many doors.
    pub count: usize,
    /// The most links of each door.
    pub links: u64,
}

/// Something that doors are had from.
pub trait Site {
    ghost use Rattle.ifdb_io.specs.declared.doors.Asked.{Asked};

    /// A door, which a worker may take to its thread, and which ends where it is dropped.
    type Door: Door + Send + Drop;

    /// How often the site has failed, up to 2^64 - 1.
    ghost faults: { Self → ℕ };

    /// What the last call of `doors` asked for, if there was one.
    ghost asked: { Self → Option Asked };

    /// The doors of which the next call of `doors` gives the first, in order, where the site tells
    /// them.
    ghost waiting: { Self → Option (List Self.Door) };

    /// The doors given back by the last call of `close`, in order, where the site tells them.
    ghost back: { Self → Option (List Self.Door) };

    /// This many doors at this port, each of which may still give at most this many links and has
    /// none out. A refusal takes none of the site's doors.
    fn doors(&mut self, port: u16, count: usize, links: u64) -> Result<Vec<Self::Door>, SiteFault>
        ensures count { IfOk result (λ doors. vec_len doors ≡ count) }
        ensures most { IfOk result
            (λ doors. All (λ door. Self.Door.Door.most door ≤ links) doors.items) }
        ensures none_out { IfOk result
            (λ doors. All (λ door. Self.Door.Door.out door ≡ 0) doors.items) }
        ensures asked { asked self.new
            ≡ Some (record { port = port; count = count; links = links }) }
        ensures first { IfOk result
            (λ doors. LosesFirst (waiting self.old) (waiting self.new) doors.items) }
        ensures refused { OnErr result (Stays (waiting self.old) (waiting self.new)) }
        ensures back { Stays (back self.old) (back self.new) }
        ensures later { faults self.old ≤ faults self.new }
        ensures failed { result ≡ Err SiteFault.Failed → Rose (faults self.old) (faults self.new) };

    /// Takes the doors back.
    fn close(&mut self, doors: Vec<Self::Door>)
        ensures asked { asked self.new ≡ asked self.old }
        ensures waiting { Stays (waiting self.old) (waiting self.new) }
        ensures back { Becomes (back self.old) (back self.new) doors.items }
        ensures faults { faults self.new ≡ faults self.old };
}
