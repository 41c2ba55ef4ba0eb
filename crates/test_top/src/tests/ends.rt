// Faults of the input and the output, and words that ask for nothing.
use super::*;

// Which read and which write fails, how a script ends then, and what is written.
static FAULTS: [(Option<u64>, Option<u64>, Status, &str); 4] = [
    (Some(0), None, Status::ReadFault, ""),
    (Some(1), None, Status::ReadFault, "1 OPEN\n"),
    (None, Some(0), Status::WriteFault, ""),
    (None, Some(1), Status::WriteFault, "1 O"),
];

#[test]
fn faults_have_their_status(rt: HostRuntime) -> Result<(), Fail> {
    for (read, write, status, written) in &FAULTS {
        let reads = Calls {
            piece: 5,
            fails: *read,
        };
        let writes = Calls {
            piece: 3,
            fails: *write,
        };
        let end = (*status, written.as_bytes());
        ends_with(&rt, "run", b"OPEN\n1 SHOW LABEL\n", (reads, writes), end)?;
    }
    Ok(())
}

// Words with a limit, and how a script of five bytes ends.
static LIMITS: [(&str, Status, &str); 4] = [
    ("run --limit 4", Status::TooLarge, ""),
    ("run --limit=5", Status::Done, "1 OPEN\n"),
    ("run --limit 1099511627776", Status::Done, "1 OPEN\n"),
    ("run", Status::Done, "1 OPEN\n"),
];

#[test]
fn the_limit_of_the_words_is_kept(rt: HostRuntime) -> Result<(), Fail> {
    for (words, status, written) in &LIMITS {
        let end = (*status, written.as_bytes());
        ends_with(&rt, words, b"OPEN\n", (all_of(64), all_of(64)), end)?;
    }
    Ok(())
}

// Words that ask for nothing.
static OTHERS: [&str; 9] = [
    "dance",
    "",
    "Run",
    "run run",
    "run --limit 0",
    "serve",
    "serve --port 0",
    "generate",
    "generate --run=8",
];

// The line that they get.
const USAGE: &str =
    "usage: ifdb run [--limit N] | ifdb serve --port P [--workers W] [--links K] [--limit N] | \
    ifdb generate [--run] N\n";

#[test]
fn other_words_get_the_usage_line(rt: HostRuntime) -> Result<(), Fail> {
    for words in &OTHERS {
        let end = (Status::Usage, USAGE.as_bytes());
        ends_with(&rt, words, b"OPEN\n", (all_of(64), all_of(64)), end)?;
    }
    Ok(())
}
