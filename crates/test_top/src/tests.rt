// What no clause says: worked rows, the ends of a script, and that the calls succeed.
ghost use Rattle.std.specs.Prelude.{◌<◌};

mod ceilings;
mod ends;
mod generate;
mod nulls;
mod rows;
mod spellings;
mod statements;
mod transactions;
mod worlds;

use crate::*;
use ifdb_top::{MoreStatus, Status, top};
use std::alloc::{AllocGlobal, Global};
use std::marker::Sync;
use std::process::Abort;
use std::sync::Wait;
use std::test::Fail;
use std::thread::Threads;

// Calls the program with these words over a script, and compares how it ended and what was written for it.
fn ends_with<R: Abort + AllocGlobal + Threads + Wait + Sync>(
    rt: &R,
    words: &str,
    script: &[u8],
    calls: (Calls, Calls),
    end: (Status, &[u8]),
) -> Result<(), Fail>
    requires { (0 < calls.0.piece) × (0 < calls.1.piece) }
{
    let (status, written) = end;
    let ran = ended(rt, words, script, calls)?;
    assert_eq!(rt; ran.status, status, "{words}");
    assert_eq!(rt; ran.written.as_slice(), written, "{words}");
    Ok(())
}

// Runs each of some scripts behind a beginning, and compares what is written with its replies.
fn answered<R: Abort + AllocGlobal + Threads + Wait + Sync>(
    rt: &R,
    begun: Begun,
    scripts: &[(&[u8], &[u8])],
) -> Result<(), Fail> {
    for (script, replies) in scripts {
        let script = both(rt.alloc(), begun.0, script)?;
        let wanted = both(rt.alloc(), begun.1, replies)?;
        let ran = run(rt, &script, 65_536)?;
        assert_eq!(rt; ran.status, Status::Done);
        assert_eq!(rt; ran.written.as_slice(), wanted.as_slice());
    }
    Ok(())
}
