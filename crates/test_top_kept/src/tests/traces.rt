// The words of `check` and `project`.
ghost use Rattle.std.specs.Prelude.{◌<◌};

use super::*;

// A trace, and the same with other last lines.
const NOT_HELLO: &str = "> OPEN\n< 1 OPEN\n> 1 SHOW LABEL\n< 1 ERR 2 NotHello\n";

const NO_LABEL: &str = "> OPEN\n< 1 OPEN\n> 1 SHOW LABEL\n< 1 LABEL ()\n";

const NO_REPLY: &str = "> OPEN\n< 1 OPEN\n> 1 SHOW LABEL\n";

const NO_MEMORY: &str = "> OPEN\n< 1 OPEN\n> 1 SHOW LABEL\n< 1 ERR 20 OutOfMemory\n";

const DONE: MoreStatus = MoreStatus::Base(Status::Done);

const TOO_LARGE: MoreStatus = MoreStatus::Base(Status::TooLarge);

const USAGE: MoreStatus = MoreStatus::Base(Status::Usage);

// Words, a trace, how its check ends, and what is written.
static CHECKS: [(&str, &str, MoreStatus, &str); 9] = [
    ("check", NOT_HELLO, DONE, "ACCEPTED\n"),
    ("check", NO_LABEL, MoreStatus::TraceRefused, "REFUSED 4\n"),
    ("check", NO_REPLY, MoreStatus::TraceRefused, "REFUSED 4\n"),
    ("check", NO_MEMORY, DONE, "ACCEPTED\n"),
    ("check", "", DONE, "ACCEPTED\n"),
    ("check", "OPEN\n", MoreStatus::TraceRefused, "REFUSED 1\n"),
    ("check --limit 50", NOT_HELLO, DONE, "ACCEPTED\n"),
    ("check --limit=49", NOT_HELLO, TOO_LARGE, ""),
    ("check --limit=43", NO_LABEL, TOO_LARGE, ""),
];

#[test]
fn traces_are_judged(rt: HostRuntime) -> Result<(), Fail> {
    for (words, trace, end, written) in &CHECKS {
        let end = (*end, written.as_bytes());
        ends_more(&rt, words, trace.as_bytes(), (all_of(64), all_of(64)), end)?;
    }
    Ok(())
}

// Words that begin with a command and aren't well formed, or don't begin with one.
const CHECK_USAGE: &str = "usage: ifdb check [--limit N]\n";

const PROJECT_USAGE: &str = "usage: ifdb project --tags T [--limit N]\n";

static USAGES: [(&str, &str); 9] = [
    ("check --limit 0", CHECK_USAGE),
    ("check now", CHECK_USAGE),
    ("check --tags none", CHECK_USAGE),
    ("project", PROJECT_USAGE),
    ("project --limit 9", PROJECT_USAGE),
    ("project --tags", PROJECT_USAGE),
    ("project --tags 1,", PROJECT_USAGE),
    ("project --tags none --limit 0", PROJECT_USAGE),
    ("project --tags none --tags none", PROJECT_USAGE),
];

#[test]
fn malformed_words_get_their_usage_line(rt: HostRuntime) -> Result<(), Fail> {
    for (words, line) in &USAGES {
        let end = (USAGE, line.as_bytes());
        ends_more(&rt, words, b"", (all_of(64), all_of(64)), end)?;
    }
    Ok(())
}

#[test]
fn other_words_are_those_of_top(rt: HostRuntime) -> Result<(), Fail> {
    for words in ["run", "dance", "Check", "generate 1"] {
        let base = ended(&rt, words, b"OPEN\n", (all_of(64), all_of(64)))?;
        let end = (MoreStatus::Base(base.status), base.written.as_slice());
        ends_more(&rt, words, b"OPEN\n", (all_of(64), all_of(64)), end)?;
    }
    Ok(())
}

// Words, an input, which read and which write fails, the status then, and what is written.
static FAULTS: [(&str, &str, Option<u64>, Option<u64>, Status, &str); 7] = [
    ("check", NO_LABEL, Some(0), None, Status::ReadFault, ""),
    ("check", NO_LABEL, Some(3), None, Status::ReadFault, ""),
    ("check", NOT_HELLO, None, Some(0), Status::WriteFault, ""),
    ("check", NO_LABEL, None, Some(0), Status::WriteFault, ""),
    (
        "check",
        NO_LABEL,
        None,
        Some(1),
        Status::WriteFault,
        "REFUSED",
    ),
    (
        "project --tags none",
        "OPEN\n1 SHOW LABEL\n",
        Some(1),
        None,
        Status::ReadFault,
        "OPEN\n",
    ),
    (
        "project --tags 0,7",
        "OPEN\n1 SHOW LABEL\n",
        None,
        Some(2),
        Status::WriteFault,
        "OPEN\n",
    ),
];

#[test]
fn faults_have_their_status(rt: HostRuntime) -> Result<(), Fail> {
    for (words, bytes, read, write, status, written) in &FAULTS {
        let reads = Calls {
            piece: 8,
            fails: *read,
        };
        let writes = Calls {
            piece: 8,
            fails: *write,
        };
        let end = (MoreStatus::Base(*status), written.as_bytes());
        ends_more(&rt, words, bytes.as_bytes(), (reads, writes), end)?;
    }
    Ok(())
}

// A recorded run.
static RECORDED: [&str; 24] = [
    "> OPEN",
    "< 1 OPEN",
    "> 1 HELLO admin KEY 'admin'",
    "< 1 OK",
    "> 1 CREATE TAG a",
    "< 1 OK",
    "> 1 CREATE TABLE note (id INT, body TEXT, PRIMARY KEY (id))",
    "< 1 OK",
    "> # two rows",
    "> 1 INSERT INTO note VALUES (1, 'x')",
    "< 1 OK 1",
    "> 1 SET LABEL (a)",
    "< 1 OK",
    "> 1 INSERT INTO note VALUES (2, 'y')",
    "< 1 OK 1",
    "> 1 SELECT id, body FROM note ORDER BY 2",
    "< 1 ROWS 2 2",
    "< 1 1\tx",
    "< 1 2\ty",
    "> 1 INSERT INTO note VALUES (1, 'z')",
    "< 1 ERR 13 DuplicateKey",
    "> ",
    "> 2 SHOW LABEL",
    "< 2 ERR 28 NoSession",
];

// The lines of the recorded run behind this mark, without it.
fn recorded_behind(alloc: Global, mark: &str) -> Result<Vec<u8>, Fail> {
    let mut lines = Vec::new(alloc);
    for line in &RECORDED {
        if let Some(text) = line.strip_prefix(mark) {
            lines.extend_from_slice(text.as_bytes())?;
            lines.push(b'\n')?;
        }
    }
    Ok(lines)
}

// What stands in place of one line of the recorded run.
#[derive(Clone, Copy, Debug)]
enum Change {
    Altered,
    Dropped,
    Doubled,
}

impl Change {
    // The pieces that are put for the line.
    fn pieces(self) -> &'static [&'static str] {
        match self {
            Change::Altered => &["!\n"],
            Change::Dropped => &[],
            Change::Doubled => &["\n", "\n"],
        }
    }

    // How many lines behind the changed one's place the first wrong line stands.
    fn lines_before(self) -> usize {
        match self {
            Change::Altered | Change::Dropped => 0,
            Change::Doubled => 1,
        }
    }
}

// The recorded run with one line changed.
fn changed_at(alloc: Global, place: usize, change: Change) -> Result<Vec<u8>, Fail> {
    let mut trace = Vec::new(alloc);
    for (at, line) in RECORDED.iter().enumerate() {
        let ends: &[&str] = if at == place {
            change.pieces()
        } else {
            &["\n"]
        };
        for end in ends {
            trace.extend_from_slice(line.as_bytes())?;
            trace.extend_from_slice(end.as_bytes())?;
        }
    }
    Ok(trace)
}

#[test]
fn the_recorded_run_is_one(rt: HostRuntime) -> Result<(), Fail> {
    let script = recorded_behind(rt.alloc(), "> ")?;
    let replies = recorded_behind(rt.alloc(), "< ")?;
    let end = (Status::Done, replies.as_slice());
    let ran = ended(&rt, "run", &script, (all_of(64), all_of(64)))?;
    assert_eq!(rt; (ran.status, ran.written.as_slice()), end);
    let trace = changed_at(rt.alloc(), RECORDED.len(), Change::Dropped)?;
    let end = (DONE, b"ACCEPTED\n".as_slice());
    ends_more(&rt, "check", &trace, (all_of(64), all_of(64)), end)
}

#[test]
fn changed_replies_are_refused(rt: HostRuntime) -> Result<(), Fail> {
    for (at, line) in RECORDED.iter().enumerate() {
        if line.starts_with("< ") {
            for change in [Change::Altered, Change::Dropped, Change::Doubled] {
                is_refused(&rt, at, change)?;
            }
        }
    }
    Ok(())
}

// Tests that the recorded run with one line changed is refused at its first wrong line.
fn is_refused<R: Abort + AllocGlobal + Threads + Wait + Sync>(
    rt: &R,
    place: usize,
    change: Change,
) -> Result<(), Fail> {
    let trace = changed_at(rt.alloc(), place, change)?;
    let line = place
        .saturating_add(change.lines_before())
        .saturating_add(1);
    let wanted = format!(in rt.alloc(); "REFUSED {line}\n")?;
    let end = (MoreStatus::TraceRefused, wanted.as_bytes());
    ends_more(rt, "check", &trace, (all_of(64), all_of(64)), end)
}

// Session 1 is an administrator at the empty label, and session 2 a guest at the label of the tag a.
const BEGINNING: &str = "OPEN\n1 HELLO admin KEY 'admin'\n1 CREATE TAG a\n1 CREATE TAG b\n\
    1 CREATE TABLE note (id INT, body TEXT, PRIMARY KEY (id))\n1 CREATE PRINCIPAL guest KEY 'g'\nOPEN\n\
    2 HELLO guest KEY 'g'\n2 SET LABEL (a)\n";

// Two scripts that agree below the empty level, and what both come to there.
const WORLDS: [&str; 2] = [
    "1 BEGIN\n2 BEGIN\n2 INSERT INTO note VALUES (1, 's')\n2 COMMIT\n1 INSERT INTO note VALUES (1, 'p')\n2 BEGIN\n\
        1 COMMIT\n1 SELECT id, body FROM note\n",
    "2 BEGIN\n1 BEGIN\n2 SELECT id FROM note\n1 INSERT INTO note VALUES (1, 'p')\n1 COMMIT\n\
        1 SELECT id, body FROM note\n2 SELECT id FROM note\n",
];

const BELOW: &str =
    "1 BEGIN\n1 INSERT INTO note VALUES (1, 'p')\n1 COMMIT\n1 SELECT id, body FROM note\n";

#[test]
fn worlds_are_alike_below(rt: HostRuntime) -> Result<(), Fail> {
    let wanted = both(rt.alloc(), BEGINNING.as_bytes(), BELOW.as_bytes())?;
    for world in WORLDS {
        let script = both(rt.alloc(), BEGINNING.as_bytes(), world.as_bytes())?;
        let words = "project --tags none";
        let end = (DONE, wanted.as_slice());
        ends_more(&rt, words, &script, (all_of(64), all_of(64)), end)?;
    }
    Ok(())
}
