// Traces, accepted and refused.
use ifdb_io::MemorySource;
use ifdb_trace::{TraceEnd, check_trace};
use std::alloc::Global;
use std::test::Fail;

const LIMIT: u64 = 1_000_000;

// What the check finds, where a read gives at most so many bytes, and these reads fail.
fn check(
    alloc: Global,
    trace: &[u8],
    piece: usize,
    fails: &[u64],
    limit: u64,
) -> Result<TraceEnd, Fail> {
    let bytes = Vec::from_slice(alloc, trace)?;
    let fails = Vec::from_slice(alloc, fails)?;
    let mut input = MemorySource::new(bytes, piece.max(1), fails);
    Ok(check_trace(alloc, &mut input, limit.min(LIMIT)))
}

static SMALL: [(&str, TraceEnd); 18] = [
    (
        "> OPEN\n< 1 OPEN\n> 1 SHOW LABEL\n< 1 ERR 2 NotHello\n",
        TraceEnd::Accepted,
    ),
    (
        "> OPEN\n< 1 OPEN\n> 1 SHOW LABEL\n< 1 LABEL ()\n",
        TraceEnd::Refused(4),
    ),
    ("> OPEN\n< 1 OPEN\n> 1 SHOW LABEL\n", TraceEnd::Refused(4)),
    (
        "> OPEN\n< 1 OPEN\n> 1 SHOW LABEL\n< 1 ERR 20 OutOfMemory\n",
        TraceEnd::Accepted,
    ),
    // A session whose OPEN lacked memory has no number, and a request that lacked it wasn't asked.
    (
        "> OPEN\n< 0 ERR 20 OutOfMemory\n> OPEN\n< 1 OPEN",
        TraceEnd::Accepted,
    ),
    (
        "> OPEN\n< 0 ERR 20 OutOfMemory\n> OPEN\n< 2 OPEN\n",
        TraceEnd::Refused(4),
    ),
    (
        "> OPEN\n< 1 OPEN\n> 1 HELLO admin KEY 'admin'\n< 1 ERR 20 OutOfMemory\n> 1 SHOW LABEL\n< 1 ERR 2 NotHello\n",
        TraceEnd::Accepted,
    ),
    ("> OPEN\n< 1 ERR 20 OutOfMemory\n", TraceEnd::Refused(2)),
    ("", TraceEnd::Accepted),
    ("> # no step\n> \n> \r", TraceEnd::Accepted),
    ("> # no step\n< 0 OK\n", TraceEnd::Refused(2)),
    ("> hey\n< 0 ERR 1 Syntax 0\n", TraceEnd::Accepted),
    ("> hey\n< 0 ERR 20 OutOfMemory\n", TraceEnd::Refused(2)),
    ("> OPEN\n> OPEN\n< 1 OPEN\n", TraceEnd::Refused(2)),
    ("> OPEN\n< 1 OPEN\r\n", TraceEnd::Refused(2)),
    ("< 1 OPEN\n", TraceEnd::Refused(1)),
    ("> OPEN\n\n< 1 OPEN\n", TraceEnd::Refused(2)),
    ("> OPEN\n< 1 OPEN\n< 1 OPEN\n", TraceEnd::Refused(3)),
];

#[test]
fn small_traces(rt: HostRuntime) -> Result<(), Fail> {
    for (trace, end) in &SMALL {
        for piece in [1, 7, 4096] {
            let found = check(rt.alloc(), trace.as_bytes(), piece, &[], LIMIT)?;
            assert_eq!(rt; found, *end, "{trace}");
        }
    }
    Ok(())
}

// Lines of a trace, and whether it may end behind each.
static LINES: [(&str, bool); 11] = [
    ("> OPEN", false),
    ("< 1 OPEN", true),
    ("> 1 HELLO admin KEY 'admin'", false),
    ("< 1 OK", true),
    (
        "> 1 CREATE TABLE t (id INT, body TEXT, PRIMARY KEY (id))",
        false,
    ),
    ("< 1 OK", true),
    ("> 1 INSERT INTO t VALUES (1, 'x')", false),
    ("< 1 OK 1", true),
    ("> 1 SELECT id, body FROM t", false),
    ("< 1 ROWS 1 2", false),
    ("< 1 1\tx", true),
];

// How a trace ends that has so many lines, behind which it may end or not, and then so many bytes of a line of a script or
// of a reply, but not all.
fn end_of_front(count: u64, may_end: bool, of_script: bool, bytes: usize) -> TraceEnd {
    match bytes {
        0 if may_end => TraceEnd::Accepted,
        // Behind its mark alone a script's line is empty.
        2 if of_script => TraceEnd::Accepted,
        // Else it is one too where it is cut, and lacks its reply.
        3.. if of_script => TraceEnd::Refused(count.saturating_add(2)),
        _ => TraceEnd::Refused(count.saturating_add(1)),
    }
}

#[test]
fn cut_traces(rt: HostRuntime) -> Result<(), Fail> {
    let mut trace = Vec::new(rt.alloc());
    let mut count = 0u64;
    let mut may_end = true;
    for (line, may_end_behind) in &LINES {
        let of_script = line.starts_with("> ");
        for (cut, byte) in line.bytes().enumerate() {
            let found = check(rt.alloc(), &trace, 4096, &[], LIMIT)?;
            assert_eq!(rt;
                found,
                end_of_front(count, may_end, of_script, cut),
                "{line} {cut}"
            );
            trace.push(byte)?;
        }
        count = count.saturating_add(1);
        may_end = *may_end_behind;
        for end in ["", "\n"] {
            trace.extend_from_slice(end.as_bytes())?;
            let found = check(rt.alloc(), &trace, 4096, &[], LIMIT)?;
            assert_eq!(rt; found, end_of_front(count, may_end, false, 0), "{line}");
        }
    }
    Ok(())
}

#[test]
fn failing_reads(rt: HostRuntime) -> Result<(), Fail> {
    // The four reads that give 50 bytes, and the one that finds the end.
    let trace = SMALL[0].0.as_bytes();
    for read in 0..5 {
        let found = check(rt.alloc(), trace, 16, &[read], LIMIT)?;
        assert_eq!(rt; found, TraceEnd::ReadFault, "{read}");
    }
    let found = check(rt.alloc(), trace, 16, &[5], LIMIT)?;
    assert_eq!(rt; found, TraceEnd::Accepted);
    Ok(())
}

#[test]
fn limits(rt: HostRuntime) -> Result<(), Fail> {
    static TABLE: [(&str, u64, TraceEnd); 6] = [
        ("> OPEN\n< 1 OPEN\n", 16, TraceEnd::Accepted),
        ("> OPEN\n< 1 OPEN\n", 15, TraceEnd::TooLarge),
        ("> OPEN\n< 1 OPEN\n", 9, TraceEnd::TooLarge),
        ("> OPEN\n< 1 SHUT\n", 16, TraceEnd::Refused(2)),
        // The last line isn't read to its end, and so isn't judged.
        ("> OPEN\n< 1 SHUT\n", 15, TraceEnd::TooLarge),
        ("hey\n> OPEN\n", 4, TraceEnd::Refused(1)),
    ];
    for (trace, limit, end) in &TABLE {
        let found = check(rt.alloc(), trace.as_bytes(), 4096, &[], *limit)?;
        assert_eq!(rt; found, *end, "{trace} {limit}");
    }
    Ok(())
}

// As many bytes between two texts.
fn filled(
    alloc: Global,
    front: &str,
    byte: u8,
    count: usize,
    behind: &str,
) -> Result<Vec<u8>, Fail> {
    let mut text = Vec::from_slice(alloc, front.as_bytes())?;
    let fill = vec![in alloc; byte; count]?;
    text.extend_from_slice(&fill)?;
    text.extend_from_slice(behind.as_bytes())?;
    Ok(text)
}

#[test]
fn long_lines(rt: HostRuntime) -> Result<(), Fail> {
    static TABLE: [(&str, usize, &str, TraceEnd); 4] = [
        ("> ", 65_533, "\n< 0 ERR 1 Syntax 0\n", TraceEnd::Accepted),
        ("> ", 65_534, "\n< 0 ERR 1 Syntax 0\n", TraceEnd::Refused(1)),
        ("> ", 65_534, "\n< 0 ERR 21 TooLong\n", TraceEnd::Refused(1)),
        ("> OPEN\n< 1 OPEN\n> # ", 65_532, "", TraceEnd::Refused(3)),
    ];
    for (front, count, behind, end) in &TABLE {
        let trace = filled(rt.alloc(), front, b'x', *count, behind)?;
        let found = check(rt.alloc(), &trace, 4096, &[], LIMIT)?;
        assert_eq!(rt; found, *end, "{count}");
    }
    Ok(())
}

// A reply with a line that is too long for a trace is wrong from its first line on, and want of memory in its place is not.
#[test]
fn long_replies(rt: HostRuntime) -> Result<(), Fail> {
    const FRONT: &str = "> OPEN\n< 1 OPEN\n> 1 HELLO admin KEY 'admin'\n< 1 OK\n\
        > 1 CREATE TABLE t (id INT, body TEXT, PRIMARY KEY (id))\n< 1 OK\n> 1 INSERT INTO t VALUES (1, '";
    static TABLE: [(usize, &str, TraceEnd); 4] = [
        (
            40_000,
            "')\n< 1 OK 1\n> 1 SELECT id FROM t\n< 1 ROWS 1 1\n< 1 1\n",
            TraceEnd::Accepted,
        ),
        (
            40_000,
            "')\n< 1 OK 1\n> 1 SELECT body FROM t\n< 1 ERR 20 OutOfMemory\n",
            TraceEnd::Accepted,
        ),
        (
            40_000,
            "')\n< 1 OK 1\n> 1 SELECT body FROM t\n< 1 ROWS 1 1\n",
            TraceEnd::Refused(10),
        ),
        (
            32_000,
            "')\n< 1 OK 1\n> 1 SELECT body FROM t\n< 1 ROWS 1 1\n",
            TraceEnd::Refused(11),
        ),
    ];
    for (count, behind, end) in &TABLE {
        let trace = filled(rt.alloc(), FRONT, b'\t', *count, behind)?;
        let found = check(rt.alloc(), &trace, 4096, &[], LIMIT)?;
        assert_eq!(rt; found, *end, "{count} {behind}");
    }
    Ok(())
}
