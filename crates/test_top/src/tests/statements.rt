// Worked scripts of tables, views and references, with their replies as they were written by hand.
use super::*;

/// A hidden row.
const HIDDEN: (&[u8], &[u8]) = (
    b"1 SET LABEL (a)\n1 INSERT INTO note VALUES (1, 'x')\n2 SELECT id, body FROM note\n2 SET LABEL (a)\n\
    2 SELECT id, body FROM note\n2 SELECT * FROM note WHERE body = 'y'\n",
    b"1 OK\n1 OK 1\n2 ROWS 0 2\n2 OK\n2 ROWS 1 2\n2 1\tx\n2 ROWS 0 2\n",
);

/// A compound tag shows the rows of a member that is made later.
const COMPOUND: (&[u8], &[u8]) = (
    b"1 CREATE COMPOUND TAG every\n2 SET LABEL (every)\n1 CREATE TAG c IN (every)\n1 SET LABEL (c)\n\
    1 INSERT INTO note VALUES (1, 'r')\n2 SELECT LABEL OF note, body FROM note\n2 INSERT INTO note VALUES (1, 'd')\n\
    2 SET LABEL (c, every)\n2 SHOW LABEL\n",
    b"1 OK\n2 OK\n1 OK\n1 OK\n1 OK 1\n2 ROWS 1 2\n2 {c}\tr\n2 ERR 13 DuplicateKey\n2 OK\n2 LABEL (every)\n",
);

/// One key at two labels, and an UPDATE that is for one of its rows.
const TWO_LABELS: (&[u8], &[u8]) = (
    b"1 SET LABEL (a)\n1 INSERT INTO note VALUES (1, 's')\n2 INSERT INTO note VALUES (1, 'p')\n\
    1 SELECT LABEL OF note, body FROM note\n2 INSERT INTO note VALUES (2, 'p')\n1 INSERT INTO note VALUES (2, 's')\n\
    1 UPDATE note SET body = 'z' WHERE id = 1\n1 UPDATE note SET body = 'z' WHERE body = 's'\n\
    1 SELECT body FROM note WHERE id = 1\n",
    b"1 OK\n1 OK 1\n2 OK 1\n1 ROWS 2 2\n1 {}\tp\n1 {a}\ts\n2 OK 1\n1 ERR 13 DuplicateKey\n1 ERR 12 WriteLabel\n1 OK 1\n\
    1 ROWS 2 1\n1 p\n1 z\n",
);

/// A child that the parent's session doesn't see.
const SECRET_CHILD: (&[u8], &[u8]) = (
    b"1 INSERT INTO note VALUES (1, 'n')\n1 SET LABEL (a)\n1 INSERT INTO visit VALUES (10, 1)\n\
    1 INSERT INTO visit VALUES (10, 1) DECLASSIFYING (a)\n2 SET LABEL (a)\n\
    2 INSERT INTO visit VALUES (11, 1) DECLASSIFYING (a)\n1 SET LABEL ()\n1 DELETE FROM note WHERE id = 1\n\
    1 SELECT COUNT(*) FROM note\n",
    b"1 OK 1\n1 OK\n1 ERR 14 NoReference\n1 OK 1\n2 OK\n2 ERR 8 NoAuthority\n1 OK\n1 ERR 19 StillReferenced\n1 ROWS 1 1\n1 1\n",
);

/// A child that is bound anew.
const BOUND_ANEW: (&[u8], &[u8]) = (
    b"1 INSERT INTO note VALUES (1, 'n'), (2, 'm')\n1 INSERT INTO visit VALUES (10, 1)\n1 UPDATE visit SET note_id = 2\n\
    1 DELETE FROM note WHERE id = 1\n1 DELETE FROM note WHERE id = 2\n1 UPDATE visit SET note_id = 3\n",
    b"1 OK 2\n1 OK 1\n1 OK 1\n1 OK 1\n1 ERR 19 StillReferenced\n1 ERR 14 NoReference\n",
);

/// A view that takes a tag off, as long as its owner holds it.
const VIEW: (&[u8], &[u8]) = (
    b"1 CREATE TABLE bill (id INT, pence INT, PRIMARY KEY (id))\n1 GRANT a TO guest\n\
    2 CREATE VIEW due AS SELECT note.id, bill.pence FROM note, bill WHERE note.id = bill.id WITH DECLASSIFYING (a)\n\
    1 INSERT INTO bill VALUES (1, 250), (2, 90)\n1 SET LABEL (a)\n1 INSERT INTO note VALUES (1, 'x')\n1 SET LABEL (a, b)\n\
    1 INSERT INTO note VALUES (2, 'y')\n1 SET LABEL ()\n1 SELECT id FROM note\n1 SELECT id, pence, LABEL OF due FROM due\n\
    1 SELECT COUNT(*) FROM due\n1 SET LABEL (b)\n1 SELECT id, LABEL OF due FROM due\n1 SET LABEL ()\n\
    1 REVOKE a FROM guest\n1 SELECT id FROM due\n",
    b"1 OK\n1 OK\n2 OK\n1 OK 2\n1 OK\n1 OK 1\n1 OK\n1 OK 1\n1 OK\n1 ROWS 0 1\n1 ROWS 1 3\n1 1\t250\t{}\n1 ERR 11 TypeMismatch\n\
    1 OK\n1 ROWS 2 2\n1 1\t{}\n1 2\t{b}\n1 OK\n1 OK\n1 ERR 27 ViewAuthority\n",
);

/// The ends of the range of numbers.
const ENDS: (&[u8], &[u8]) = (
    b"1 CREATE TABLE num (k INT, g INT, v INT, PRIMARY KEY (k))\n1 INSERT INTO num VALUES (1, 1, 9223372036854775807)\n\
    1 SELECT v + 1 FROM num\n1 INSERT INTO num VALUES (2, 1, 9223372036854775807)\n\
    1 SELECT g, SUM(v) FROM num GROUP BY g\n1 INSERT INTO num VALUES (3, 1, -9223372036854775807)\n\
    1 SELECT g, SUM(v) FROM num GROUP BY g\n1 INSERT INTO num VALUES (4, 2, -9223372036854775808)\n\
    1 SELECT v - 1 FROM num WHERE k = 4\n1 INSERT INTO num VALUES (5, 2, 9223372036854775808)\n",
    b"1 OK\n1 OK 1\n1 ERR 15 OutOfRange\n1 OK 1\n1 ERR 15 OutOfRange\n1 OK 1\n1 ROWS 1 2\n1 1\t9223372036854775807\n1 OK 1\n\
    1 ERR 15 OutOfRange\n1 ERR 22 Limit\n",
);

/// Conditions over two tables, and names that more than one of them has.
const JOINED: (&[u8], &[u8]) = (
    b"1 CREATE TABLE part (id INT, note_id INT, PRIMARY KEY (id))\n1 INSERT INTO note VALUES (1, 'x'), (2, 'y')\n\
    1 INSERT INTO part VALUES (5, 2), (6, 1), (7, 2)\n1 SELECT part.id, body FROM part, note WHERE note.id = note_id\n\
    1 SELECT id FROM part, note\n1 SELECT COUNT(*) FROM part, note\n",
    b"1 OK\n1 OK 2\n1 OK 3\n1 ROWS 3 2\n1 5\ty\n1 6\tx\n1 7\ty\n1 ERR 6 UnknownName\n1 ERR 11 TypeMismatch\n",
);

/// Order, whole statements and escapes.
const ORDERED: (&[u8], &[u8]) = (
    b"1 INSERT INTO note VALUES (1, 'x'), (2, 'y'), (3, 'x')\n1 SELECT id, body FROM note ORDER BY body DESC\n\
    1 INSERT INTO note VALUES (4, 'z'), (1, 'q')\n1 SELECT COUNT(*) FROM note\n\
    1 SELECT body, COUNT(*) FROM note GROUP BY body\n1 INSERT INTO note VALUES (5, 'it''s a\\b')\n\
    1 SELECT body FROM note WHERE id = 5\n1 DELETE FROM note WHERE id = 9\n",
    b"1 OK 3\n1 ROWS 3 2\n1 2\ty\n1 1\tx\n1 3\tx\n1 ERR 13 DuplicateKey\n1 ROWS 1 1\n1 3\n1 ROWS 2 2\n1 x\t2\n1 y\t1\n1 OK 1\n\
    1 ROWS 1 1\n1 it's a\\\\b\n1 OK 0\n",
);

// Scripts without references, and their replies.
static WORKED: [(&[u8], &[u8]); 7] = [HIDDEN, COMPOUND, TWO_LABELS, VIEW, ENDS, JOINED, ORDERED];

#[test]
fn statements_have_their_replies(rt: HostRuntime) -> Result<(), Fail> {
    answered(&rt, NOTES, &WORKED)
}

#[test]
fn references_hold_across_labels(rt: HostRuntime) -> Result<(), Fail> {
    answered(&rt, VISITS, &[SECRET_CHILD, BOUND_ANEW])
}
