// Worked scripts of transactions, with their replies as they were written by hand.
use super::*;

/// A label that was raised since does not flow to what was written.
const COMMIT_LABEL: (&[u8], &[u8]) = (
    b"2 BEGIN\n2 INSERT INTO note VALUES (3, 'w')\n2 SET LABEL (a)\n2 COMMIT\n2 COMMIT\n1 SELECT id FROM note\n",
    b"2 OK\n2 OK 1\n2 OK\n2 ERR 16 CommitLabel\n2 ERR 10 NoTransaction\n1 ROWS 0 1\n",
);

/// The label of now counts at a COMMIT, which was lowered with authority.
const LOWERED: (&[u8], &[u8]) = (
    b"1 BEGIN\n1 SET LABEL (a)\n1 INSERT INTO note VALUES (4, 'k')\n1 SET LABEL ()\n1 SELECT id FROM note\n1 COMMIT\n\
    1 SHOW LABEL\n2 SET LABEL (a)\n2 SELECT id FROM note\n",
    b"1 OK\n1 OK\n1 OK 1\n1 OK\n1 ROWS 0 1\n1 OK\n1 LABEL ()\n2 OK\n2 ROWS 1 1\n2 4\n",
);

/// The first to commit a slot, or a lower one of its key, wins.
const FIRST_COMMITTER: (&[u8], &[u8]) = (
    b"1 INSERT INTO note VALUES (1, 'o')\n1 BEGIN\n2 BEGIN\n1 UPDATE note SET body = 'p' WHERE id = 1\n\
    2 UPDATE note SET body = 'q' WHERE id = 1\n1 COMMIT\n2 COMMIT\n2 SELECT body FROM note\n1 BEGIN\n2 BEGIN\n\
    1 INSERT INTO note VALUES (2, 'l')\n2 SET LABEL (a)\n2 INSERT INTO note VALUES (2, 'h')\n1 COMMIT\n2 COMMIT\n2 BEGIN\n\
    1 BEGIN\n2 INSERT INTO note VALUES (3, 'h')\n1 INSERT INTO note VALUES (3, 'l')\n2 COMMIT\n1 COMMIT\n",
    b"1 OK 1\n1 OK\n2 OK\n1 OK 1\n2 OK 1\n1 OK\n2 ERR 17 Conflict\n2 ROWS 1 1\n2 p\n1 OK\n2 OK\n1 OK 1\n2 OK\n2 OK 1\n1 OK\n\
    2 ERR 17 Conflict\n2 OK\n1 OK\n2 OK 1\n1 OK 1\n2 OK\n1 OK\n",
);

/// A transaction sees what was there at its BEGIN, and its own writes.
const SNAPSHOT: (&[u8], &[u8]) = (
    b"1 BEGIN\n2 INSERT INTO note VALUES (1, 'x')\n1 SELECT id FROM note\n1 INSERT INTO note VALUES (2, 'y')\n\
    1 SELECT id FROM note\n2 SELECT id FROM note\n1 COMMIT\n2 SELECT id FROM note\n",
    b"1 OK\n2 OK 1\n1 ROWS 0 1\n1 OK 1\n1 ROWS 1 1\n1 2\n2 ROWS 1 1\n2 1\n1 OK\n2 ROWS 2 1\n2 1\n2 2\n",
);

/// A slot that was deleted since, which another transaction writes.
const DELETED_SLOT: (&[u8], &[u8]) = (
    b"1 INSERT INTO note VALUES (1, 'x')\n1 BEGIN\n1 UPDATE note SET body = 'y'\n2 DELETE FROM note WHERE id = 1\n\
    2 INSERT INTO note VALUES (9, 'z')\n1 COMMIT\n1 SELECT id FROM note\n",
    b"1 OK 1\n1 OK\n1 OK 1\n2 OK 1\n2 OK 1\n1 ERR 17 Conflict\n1 ROWS 1 1\n1 9\n",
);

/// Names and authority in a transaction are those of its BEGIN; public changes wait for its end.
const NAMES_OF_BEGIN: (&[u8], &[u8]) = (
    b"1 GRANT a TO guest\n2 BEGIN\n1 REVOKE a FROM guest\n1 CREATE TAG c\n2 SET LABEL (c)\n2 SET LABEL (a)\n2 SET LABEL ()\n\
    2 CREATE TAG d\n2 BEGIN\n2 ROLLBACK\n2 ROLLBACK\n2 SET LABEL (a)\n2 SET LABEL ()\n",
    b"1 OK\n2 OK\n1 OK\n1 OK\n2 ERR 6 UnknownName\n2 OK\n2 OK\n2 ERR 9 InTransaction\n2 ERR 9 InTransaction\n2 OK\n\
    2 ERR 10 NoTransaction\n2 OK\n2 ERR 8 NoAuthority\n",
);

/// What a transaction wrote goes with its ROLLBACK, and with its session.
const ROLLED_BACK: (&[u8], &[u8]) = (
    b"1 BEGIN\n1 INSERT INTO note VALUES (1, 'x')\n1 ROLLBACK\n2 BEGIN\n2 INSERT INTO note VALUES (2, 'y')\n2 BYE\n\
    1 SELECT COUNT(*) FROM note\n",
    b"1 OK\n1 OK 1\n1 OK\n2 OK\n2 OK 1\n2 OK\n1 ROWS 1 1\n1 0\n",
);

/// A parent that is deleted while its child is written.
const BROKEN: (&[u8], &[u8]) = (
    b"1 INSERT INTO note VALUES (1, 'n')\n2 BEGIN\n2 INSERT INTO visit VALUES (20, 1)\n1 DELETE FROM note WHERE id = 1\n\
    2 COMMIT\n",
    b"1 OK 1\n2 OK\n2 OK 1\n1 OK 1\n2 ERR 18 BrokenReference\n",
);

/// A parent that is deleted in a transaction, and a parent that is deleted and inserted again.
const REFERENCED: (&[u8], &[u8]) = (
    b"1 INSERT INTO note VALUES (1, 'n')\n1 SET LABEL (a)\n1 INSERT INTO visit VALUES (10, 1) DECLASSIFYING (a)\n\
    1 SET LABEL ()\n1 BEGIN\n1 DELETE FROM note WHERE id = 1\n1 COMMIT\n1 BEGIN\n1 DELETE FROM note WHERE id = 1\n\
    1 INSERT INTO note VALUES (1, 'm')\n1 COMMIT\n1 SELECT body FROM note\n",
    b"1 OK 1\n1 OK\n1 OK 1\n1 OK\n1 OK\n1 OK 1\n1 ERR 19 StillReferenced\n1 OK\n1 OK 1\n1 OK 1\n1 OK\n1 ROWS 1 1\n1 m\n",
);

// Scripts without references, and their replies.
static WORKED: [(&[u8], &[u8]); 7] = [
    COMMIT_LABEL,
    LOWERED,
    FIRST_COMMITTER,
    SNAPSHOT,
    DELETED_SLOT,
    NAMES_OF_BEGIN,
    ROLLED_BACK,
];

#[test]
fn transactions_have_their_replies(rt: HostRuntime) -> Result<(), Fail> {
    answered(&rt, NOTES, &WORKED)
}

#[test]
fn commits_keep_references(rt: HostRuntime) -> Result<(), Fail> {
    answered(&rt, VISITS, &[BROKEN, REFERENCED])
}
