// The words of `closures`: worked scripts with their replies as they were written by hand, the limit, faults and other words.
use super::*;

/// A closure lowers its label with its owner's authority, for a caller that has none.
const PUBLISHED: (&[u8], &[u8]) = (
    b"1 CREATE CLOSURE publish AS SET LABEL (); INSERT INTO note VALUES (9, 'done')\n2 SET LABEL (a)\n2 SET LABEL ()\n\
    2 CALL publish\n2 SHOW LABEL\n1 SELECT id, body FROM note\n2 CALL publish\nOPEN\n",
    b"1 OK\n2 OK\n2 ERR 8 NoAuthority\n2 OK 1\n2 LABEL (a)\n1 ROWS 1 2\n1 9\tdone\n2 ERR 13 DuplicateKey\n3 OPEN\n",
);

/// Refusals: a name that is taken, a label above the caller's, a transaction, an unknown name, no name, and a label.
const REFUSED: (&[u8], &[u8]) = (
    b"1 CREATE CLOSURE peek AS SET LABEL (a); SELECT id FROM note\n1 CREATE CLOSURE peek AS DELETE FROM note\n2 CALL peek\n\
    2 BEGIN\n2 CALL peek\n2 ROLLBACK\n2 CALL nope\n2 CALL 7\n1 SET LABEL (a)\n1 CREATE CLOSURE p AS DELETE FROM note\n",
    b"1 OK\n1 ERR 5 Taken\n2 ERR 30 ClosureLabel\n2 OK\n2 ERR 9 InTransaction\n2 OK\n2 ERR 6 UnknownName\n\
    2 ERR 1 Syntax 0\n1 OK\n1 ERR 7 LabelNotEmpty\n",
);

/// A call that is refused commits nothing of what its statements wrote.
const UNCOMMITTED: (&[u8], &[u8]) = (
    b"1 CREATE CLOSURE both AS INSERT INTO note VALUES (1, 'x'); INSERT INTO note VALUES (1, 'y')\n2 CALL both\n\
    1 SELECT id FROM note\n",
    b"1 OK\n2 ERR 13 DuplicateKey\n1 ROWS 0 1\n",
);

static WORKED: [(&[u8], &[u8]); 3] = [PUBLISHED, REFUSED, UNCOMMITTED];

#[test]
fn closures_have_their_replies(rt: HostRuntime) -> Result<(), Fail> {
    for (script, replies) in &WORKED {
        let script = both(rt.alloc(), NOTES.0, script)?;
        let wanted = both(rt.alloc(), NOTES.1, replies)?;
        let end = (MoreStatus::Base(Status::Done), wanted.as_slice());
        for piece in [1, 3, 65_536] {
            ends_more(
                &rt,
                "closures",
                &script,
                (all_of(piece), all_of(piece)),
                end,
            )?;
        }
    }
    Ok(())
}

// Words, a script, its status, and what is written: a script within its limit and past it, and one that has no closures.
static LIMITS: [(&str, &str, Status, &str); 6] = [
    ("closures", "", Status::Done, ""),
    ("closures --limit 5", "OPEN\n", Status::Done, "1 OPEN\n"),
    ("closures --limit=4", "OPEN\n", Status::TooLarge, ""),
    (
        "closures --limit 5",
        "OPEN\nOPEN\n",
        Status::TooLarge,
        "1 OPEN\n",
    ),
    (
        "closures",
        "OPEN\n1 CALL p\n",
        Status::Done,
        "1 OPEN\n1 ERR 2 NotHello\n",
    ),
    (
        "run",
        "OPEN\n1 CALL p\n",
        Status::Done,
        "1 OPEN\n1 ERR 1 Syntax 0\n",
    ),
];

#[test]
fn scripts_keep_to_their_limit(rt: HostRuntime) -> Result<(), Fail> {
    for (words, script, status, written) in &LIMITS {
        let end = (MoreStatus::Base(*status), written.as_bytes());
        ends_more(&rt, words, script.as_bytes(), (all_of(64), all_of(64)), end)?;
    }
    Ok(())
}

// Which read and which write of eight bytes fails, the status then, and what is written.
static FAULTS: [(Option<u64>, Option<u64>, Status, &str); 5] = [
    (Some(0), None, Status::ReadFault, ""),
    (Some(1), None, Status::ReadFault, "1 OPEN\n"),
    (None, Some(0), Status::WriteFault, ""),
    (None, Some(1), Status::WriteFault, "1 OPEN\n"),
    (None, Some(2), Status::WriteFault, "1 OPEN\n1 ERR 2 "),
];

#[test]
fn faults_have_their_status(rt: HostRuntime) -> Result<(), Fail> {
    for (read, write, status, written) in &FAULTS {
        let reads = Calls {
            piece: 8,
            fails: *read,
        };
        let writes = Calls {
            piece: 8,
            fails: *write,
        };
        let end = (MoreStatus::Base(*status), written.as_bytes());
        ends_more(
            &rt,
            "closures",
            b"OPEN\n1 SHOW LABEL\n",
            (reads, writes),
            end,
        )?;
    }
    Ok(())
}

// Words that begin with `closures` and aren't well formed.
static MALFORMED: [&str; 5] = [
    "closures --limit 0",
    "closures --limit",
    "closures --limit 1 --limit 2",
    "closures --tags none",
    "closures now",
];

#[test]
fn malformed_words_get_their_usage_line(rt: HostRuntime) -> Result<(), Fail> {
    for words in MALFORMED {
        let end = (
            MoreStatus::Base(Status::Usage),
            b"usage: ifdb closures [--limit N]\n".as_slice(),
        );
        ends_more(&rt, words, b"", (all_of(64), all_of(64)), end)?;
    }
    Ok(())
}
