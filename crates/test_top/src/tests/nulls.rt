// Worked scripts of NULL, with their replies as they were written by hand.
use super::*;

/// NULL in rows, conditions, aggregates and references.
const ROWS: (&[u8], &[u8]) = (
    b"1 INSERT INTO note VALUES (1, NULL), (2, 'b')\n1 INSERT INTO visit VALUES (10, NULL), (11, 1)\n\
    1 SELECT id, body FROM note\n1 SELECT id FROM note WHERE body <> 'b'\n\
    1 SELECT id FROM note WHERE NOT body = 'b' OR body IS NULL\n\
    1 SELECT SUM(note_id), MIN(note_id), COUNT(*) FROM visit\n1 SELECT SUM(v) FROM visit WHERE v > 99\n\
    1 UPDATE visit SET note_id = NULL\n1 DELETE FROM note\n1 INSERT INTO note VALUES (NULL, 'x')\n",
    b"1 OK 2\n1 OK 2\n1 ROWS 2 2\n1 1\t\\N\n1 2\tb\n1 ROWS 0 1\n1 ROWS 1 1\n1 1\n1 ROWS 1 3\n1 1\t1\t2\n1 ROWS 1 1\n1 \\N\n\
    1 OK 2\n1 OK 2\n1 ERR 11 TypeMismatch\n",
);

/// What is unknown, what one part decides, and a key that equals nothing.
const CONDITIONS: (&[u8], &[u8]) = (
    b"1 INSERT INTO note VALUES (1, NULL), (2, 'b'), (3, '\\N')\n1 SELECT id FROM note WHERE NOT body = 'b'\n\
    1 SELECT id FROM note WHERE NOT (id = 1 AND body = 'b')\n1 SELECT id FROM note WHERE NOT (id = 2 AND body = 'c')\n\
    1 SELECT id FROM note WHERE body = 'b' OR id < 3\n1 SELECT id FROM note WHERE NOT (body = 'b' OR id = 9)\n\
    1 SELECT id FROM note WHERE body = NULL OR NULL <> NULL\n1 SELECT id FROM note WHERE id = NULL\n\
    1 SELECT id FROM note WHERE NULL IS NULL AND body IS NOT NULL\n1 SELECT a.id FROM note AS a, note AS b WHERE a.body = b.body\n\
    1 UPDATE note SET body = 'z' WHERE body <> 'z'\n1 DELETE FROM note WHERE body = NULL\n1 SELECT body FROM note\n",
    b"1 OK 3\n1 ROWS 1 1\n1 3\n1 ROWS 2 1\n1 2\n1 3\n1 ROWS 3 1\n1 1\n1 2\n1 3\n1 ROWS 2 1\n1 1\n1 2\n1 ROWS 1 1\n1 3\n\
    1 ROWS 0 1\n1 ROWS 0 1\n1 ROWS 2 1\n1 2\n1 3\n1 ROWS 2 1\n1 2\n1 3\n1 OK 2\n1 OK 0\n1 ROWS 3 1\n1 \\N\n1 z\n1 z\n",
);

/// Operations, order, groups and aggregates of NULL, also over a view.
const ANSWERS: (&[u8], &[u8]) = (
    b"1 INSERT INTO note VALUES (1, NULL), (2, 'b'), (3, NULL), (4, 'a')\n1 INSERT INTO visit VALUES (10, NULL), (11, 1), (12, NULL)\n\
    1 SELECT v, note_id + 1, 3 - NULL FROM visit\n1 SELECT note_id * (v + 9223372036854775807) FROM visit\n\
    1 SELECT v - 9223372036854775807 + NULL - 99 FROM visit WHERE v = 10\n\
    1 SELECT id, body FROM note ORDER BY body, id DESC\n1 SELECT id, body FROM note ORDER BY body DESC, id\n\
    1 SELECT body, COUNT(*), MIN(id) FROM note GROUP BY body\n1 SELECT MIN(body), MAX(body), COUNT(*) FROM note\n\
    1 SELECT MIN(body), SUM(id), COUNT(*) FROM note WHERE id > 9\n1 SELECT note_id, SUM(note_id) FROM visit GROUP BY note_id\n\
    1 CREATE VIEW free AS SELECT v, note_id, v + NULL AS n FROM visit WHERE note_id IS NULL WITH DECLASSIFYING (a)\n\
    1 SELECT SUM(note_id), MAX(n), SUM(v), COUNT(*) FROM free\n\
    1 CREATE VIEW none AS SELECT v, NULL AS n FROM visit WITH DECLASSIFYING (a)\n1 SELECT NULL FROM note WHERE id = 1\n\
    1 SELECT NULL, COUNT(*) FROM note\n",
    b"1 OK 4\n1 OK 3\n1 ROWS 3 3\n1 10\t\\N\t\\N\n1 11\t2\t\\N\n1 12\t\\N\t\\N\n1 ERR 15 OutOfRange\n1 ROWS 1 1\n1 \\N\n\
    1 ROWS 4 2\n1 3\t\\N\n1 1\t\\N\n1 4\ta\n1 2\tb\n1 ROWS 4 2\n1 2\tb\n1 4\ta\n1 1\t\\N\n1 3\t\\N\n\
    1 ROWS 3 3\n1 \\N\t2\t1\n1 b\t1\t2\n1 a\t1\t4\n1 ROWS 1 3\n1 a\tb\t4\n1 ROWS 1 3\n1 \\N\t\\N\t0\n\
    1 ROWS 2 2\n1 \\N\t\\N\n1 1\t1\n1 OK\n1 ROWS 1 4\n1 \\N\t\\N\t22\t2\n1 ERR 11 TypeMismatch\n1 ROWS 1 1\n1 \\N\n\
    1 ERR 11 TypeMismatch\n",
);

/// Two foreign keys of a row, each with NULL and without; and authority that is asked where nothing is bound.
const REFERENCES: (&[u8], &[u8]) = (
    b"1 INSERT INTO note VALUES (1, NULL), (2, 'b')\n1 INSERT INTO visit VALUES (10, NULL), (11, NULL)\n\
    1 CREATE TABLE link (k INT, a INT, b INT, PRIMARY KEY (k), FOREIGN KEY (a) REFERENCES note, FOREIGN KEY (b) REFERENCES visit)\n\
    1 INSERT INTO link VALUES (1, NULL, 10)\n1 DELETE FROM visit WHERE v = 10\n1 UPDATE link SET a = 1\n\
    1 DELETE FROM note WHERE id = 1\n1 DELETE FROM visit WHERE v = 10\n1 UPDATE link SET a = NULL\n1 DELETE FROM note WHERE id = 1\n\
    1 DELETE FROM visit WHERE v = 10\n1 UPDATE link SET b = NULL, a = NULL\n1 DELETE FROM visit WHERE v = 10\n\
    1 UPDATE link SET b = 10\n1 UPDATE link SET b = 11, a = 2\n1 DELETE FROM visit\n1 DELETE FROM note\n1 UPDATE link SET k = NULL\n\
    2 INSERT INTO visit VALUES (20, NULL) DECLASSIFYING (a)\n2 INSERT INTO visit VALUES (20, NULL) DECLASSIFYING (c)\n\
    2 UPDATE visit SET note_id = NULL DECLASSIFYING (a)\n",
    b"1 OK 2\n1 OK 2\n1 OK\n1 OK 1\n1 ERR 19 StillReferenced\n1 OK 1\n1 ERR 19 StillReferenced\n1 ERR 19 StillReferenced\n\
    1 OK 1\n1 OK 1\n1 ERR 19 StillReferenced\n1 OK 1\n1 OK 1\n1 ERR 14 NoReference\n1 OK 1\n1 ERR 19 StillReferenced\n\
    1 ERR 19 StillReferenced\n1 ERR 24 KeyColumn\n2 ERR 8 NoAuthority\n2 ERR 6 UnknownName\n2 ERR 8 NoAuthority\n",
);

/// A foreign key of two columns, one of which is NULL; and commits of rows that are bound to nothing.
const TWO_COLUMNS: (&[u8], &[u8]) = (
    b"1 CREATE TABLE bed (w INT, n INT, PRIMARY KEY (w, n))\n\
    1 CREATE TABLE stay (k INT, w INT, n INT, PRIMARY KEY (k), FOREIGN KEY (w, n) REFERENCES bed)\n\
    1 INSERT INTO bed VALUES (1, 1)\n1 INSERT INTO bed VALUES (1, NULL)\n1 BEGIN\n1 INSERT INTO stay VALUES (1, 1, NULL), (2, NULL, 9)\n\
    1 COMMIT\n1 DELETE FROM bed\n1 INSERT INTO stay VALUES (3, 1, 1)\n1 UPDATE stay SET n = 1 WHERE k = 1\n\
    1 INSERT INTO bed VALUES (1, 1)\n1 BEGIN\n1 UPDATE stay SET n = 1 WHERE k = 1\n2 DELETE FROM bed\n1 COMMIT\n\
    1 SELECT k, w, n FROM stay\n",
    b"1 OK\n1 OK\n1 OK 1\n1 ERR 11 TypeMismatch\n1 OK\n1 OK 2\n1 OK\n1 OK 1\n1 ERR 14 NoReference\n1 ERR 14 NoReference\n1 OK 1\n\
    1 OK\n1 OK 1\n2 OK 1\n1 ERR 18 BrokenReference\n1 ROWS 2 3\n1 1\t1\t\\N\n1 2\t\\N\t9\n",
);

static WORKED: [(&[u8], &[u8]); 5] = [ROWS, CONDITIONS, ANSWERS, REFERENCES, TWO_COLUMNS];

#[test]
fn null_has_its_replies(rt: HostRuntime) -> Result<(), Fail> {
    answered(&rt, VISITS, &WORKED)
}
