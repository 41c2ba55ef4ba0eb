// What is true of every kept run. Each function does nothing: its contract is the law.
ghost use Rattle.ifdb_keep.specs.Acknowledged.{AcknowledgedIsKept, FirstKeepIsARun, NextKeepGoesOn, NextKeepIsWhole};

use ifdb_replay::{kept_replays, replay_goes_on};

/// Where a call that adds a step's records and one that writes its reply take turns, each image at
/// each moment has the records of all steps of whose replies a byte was written.
pub fn acknowledged_is_kept()
    ensures { AcknowledgedIsKept }
{}

/// Whatever first records of a run a crash leaves, the next call begins with the log that the first
/// of its steps lead to, among them each step whose record is there; and it isn't refused as damaged.
pub fn next_keep_goes_on()
    ensures goes_on { NextKeepGoesOn }
    ensures whole { NextKeepIsWhole }
{
    replay_goes_on();
    kept_replays();
}

/// Over an empty journal a script is told what a plain run of it is told.
pub fn first_keep_is_a_run()
    ensures { FirstKeepIsARun }
{}
