// What no clause says: that runs succeed while there is memory, and the ends of a script.
use ifdb_io::{MemorySink, MemorySource};
use ifdb_script::*;
use std::alloc::Global;
use std::process::Abort;
use std::test::Fail;

const ROOM: usize = 4096;

// As many bytes of `x`, and then these, as a source.
fn long(alloc: Global, count: usize, behind: &str) -> Result<MemorySource, Fail> {
    let mut bytes = vec![in alloc; b'x'; count]?;
    bytes.extend_from_slice(behind.as_bytes())?;
    Ok(MemorySource::new(bytes, 40_000, Vec::new(alloc)))
}

// As many bytes of `x`, what stands behind them, and the limit; how the script ends, and the replies.
type Run = (usize, &'static str, u64, ScriptEnd, &'static str);

// Tests how a script ends and what it is answered.
fn is_run(rt: &impl Abort, alloc: Global, run: Run) -> Result<(), Fail> {
    let (count, behind, limit, end, replies) = run;
    assert!(rt; limit <= 1_000_000);
    let mut input = long(alloc, count, behind)?;
    let mut output = MemorySink::new(alloc, 64, ROOM, Vec::new(alloc))?;
    assert_eq!(rt;
        run_script(alloc, &mut input, &mut output, limit),
        end,
        "{count} {limit}"
    );
    assert_eq!(rt; output.bytes(), replies.as_bytes(), "{count} {limit}");
    Ok(())
}

#[test]
fn the_limit_is_exact(rt: HostRuntime) -> Result<(), Fail> {
    for run in [
        (0, "OPEN\n", 4, ScriptEnd::TooLarge, ""),
        (0, "OPEN\n", 5, ScriptEnd::Done, "1 OPEN\n"),
        (0, "OPEN\n", 6, ScriptEnd::Done, "1 OPEN\n"),
    ] {
        is_run(&rt, rt.alloc(), run)?;
    }
    Ok(())
}

#[test]
fn long_lines_are_refused_alone(rt: HostRuntime) -> Result<(), Fail> {
    const READ: &str = "0 ERR 1 Syntax 0\n1 OPEN\n";
    const LONG: &str = "0 ERR 21 TooLong\n1 OPEN\n";
    let table = [
        (65_535, "\nOPEN\n", 1_000_000, ScriptEnd::Done, READ),
        (65_536, "\nOPEN\n", 1_000_000, ScriptEnd::Done, LONG),
        (65_537, "\nOPEN\n", 1_000_000, ScriptEnd::Done, LONG),
        (65_534, "\r\nOPEN\n", 1_000_000, ScriptEnd::Done, READ),
        (65_535, "\r\nOPEN\n", 1_000_000, ScriptEnd::Done, LONG),
        (200_000, "\0\nOPEN", 1_000_000, ScriptEnd::Done, LONG),
        (65_535, "", 65_535, ScriptEnd::Done, "0 ERR 1 Syntax 0\n"),
        (65_536, "", 65_536, ScriptEnd::Done, "0 ERR 21 TooLong\n"),
        (65_537, "", 65_537, ScriptEnd::Done, "0 ERR 21 TooLong\n"),
        (65_535, "\n", 65_535, ScriptEnd::TooLarge, ""),
        (65_536, "\n", 65_535, ScriptEnd::TooLarge, ""),
        (
            65_536,
            "\n",
            65_536,
            ScriptEnd::TooLarge,
            "0 ERR 21 TooLong\n",
        ),
    ];
    for run in table {
        is_run(&rt, rt.alloc(), run)?;
    }
    Ok(())
}
