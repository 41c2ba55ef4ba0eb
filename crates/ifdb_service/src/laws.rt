// What is so of everything that replies wait by.
ghost use Rattle.ifdb_service.specs.Workers.{HoldLaws};

use ifdb_session::{Records, Settles};

/// The laws of what replies wait by, as its trait has them, for calls that start threads. It does nothing.
pub fn laws_hold<Q: Records, S: Settles<Q>>()
    ensures { HoldLaws S.Settles }
{}
