// Odd lines, with their replies as the grammar and the forms that are built give them.
use super::*;

const NOTES: Begun = Begun(
    b"OPEN\n1 HELLO admin KEY 'admin'\n1 CREATE TABLE note (id INT, PRIMARY KEY (id))\n",
    b"1 OPEN\n1 OK\n1 OK\n",
);

// Lines, and how they are answered by their sessions.
static SESSIONS: [(&[u8], &[u8]); 20] = [
    (b"1\n", b"1 ERR 1 Syntax 0\n"),
    (b"1 \n", b"1 ERR 1 Syntax 0\n"),
    (b"1\r\n", b"1 ERR 1 Syntax 0\n"),
    (b"1\r\r\n", b"0 ERR 1 Syntax 0\n"),
    (b"1   \n", b"1 ERR 1 Syntax 2\n"),
    (b"01 SHOW LABEL\n", b"0 ERR 1 Syntax 0\n"),
    (b"0 SHOW LABEL\n", b"0 ERR 1 Syntax 0\n"),
    (b" 1 SHOW LABEL\n", b"0 ERR 1 Syntax 0\n"),
    (b"1\tSHOW LABEL\n", b"0 ERR 1 Syntax 0\n"),
    (b"2 SHOW LABEL\n", b"2 ERR 28 NoSession\n"),
    (b"2 SELECT '\n", b"2 ERR 28 NoSession\n"),
    (
        b"999999999999999999 BYE\n",
        b"999999999999999999 ERR 28 NoSession\n",
    ),
    (b"1000000000000000000 BYE\n", b"0 ERR 1 Syntax 0\n"),
    (b"OPEN\r\n", b"2 OPEN\n"),
    (b"OPEN\r\r\n", b"0 ERR 1 Syntax 0\n"),
    (b"OPEN \n", b"0 ERR 1 Syntax 0\n"),
    (b"open\n", b"0 ERR 1 Syntax 0\n"),
    (b"\xff\n", b"0 ERR 1 Syntax 0\n"),
    (b"\r\n", b""),
    (b"#1 SHOW LABEL\n", b""),
];

#[test]
fn lines_have_their_sessions(rt: HostRuntime) -> Result<(), Fail> {
    answered(&rt, NOTES, &SESSIONS)
}

// Spellings of requests.
static SPELLINGS: [(&[u8], &[u8]); 14] = [
    (b"1 show label;\n", b"1 LABEL ()\n"),
    (b"1  SHOW LABEL\n", b"1 LABEL ()\n"),
    (b"1 \tShow\t \tLABEL ; \n", b"1 LABEL ()\n"),
    (b"1 SHOW LABEL\r\n", b"1 LABEL ()\n"),
    (b"1 SHOW LABEL\r\r\n", b"1 LABEL ()\n"),
    (b"1 SHOW LABEL\r\r\r\n", b"1 ERR 1 Syntax 10\n"),
    (b"1 INSERT into NOTE values(007);\n", b"1 OK 1\n"),
    (b"1 INSERT INTO note VALUES ( - 5 )\n", b"1 OK 1\n"),
    (
        b"1 INSERT INTO note VALUES (-9223372036854775808)\n",
        b"1 OK 1\n",
    ),
    (
        b"1 INSERT INTO note VALUES (9223372036854775808)\n",
        b"1 ERR 22 Limit\n",
    ),
    (
        b"1 CREATE TABLE t (Id INTEGER, PRIMARY KEY (iD))\n",
        b"1 OK\n",
    ),
    (b"1 SELECT ID FROM Note;\n", b"1 ROWS 0 1\n"),
    (b"1 hello Admin KEY 'admin'\n", b"1 ERR 3 HelloTwice\n"),
    (b"1 bye\n", b"1 OK\n"),
];

#[test]
fn requests_are_read_in_every_spelling(rt: HostRuntime) -> Result<(), Fail> {
    answered(&rt, NOTES, &SPELLINGS)
}

// Lines that are no requests.
static REFUSED: [(&[u8], &[u8]); 7] = [
    (b"1 SHOW\n", b"1 ERR 1 Syntax 4\n"),
    (b"1 SHOW LABEL x\n", b"1 ERR 1 Syntax 11\n"),
    (b"1 SHOW LABEL ;;\n", b"1 ERR 1 Syntax 12\n"),
    (b"1 SHOW LABEL \xff\n", b"1 ERR 1 Syntax 11\n"),
    (b"1 HELLO admin KEY 'x\n", b"1 ERR 1 Syntax 16\n"),
    (b"1 BEGINS\n", b"1 ERR 1 Syntax 0\n"),
    (
        b"1 DELETE FROM note WHERE id = 9223372036854775809\n",
        b"1 ERR 22 Limit\n",
    ),
];

#[test]
fn what_is_no_request_is_refused_at_its_place(rt: HostRuntime) -> Result<(), Fail> {
    answered(&rt, NOTES, &REFUSED)
}

#[test]
fn forms_come_before_sessions_without_a_principal(rt: HostRuntime) -> Result<(), Fail> {
    let script = b"OPEN\n1 BEGINS\n1 BEGIN\n1 SHOW LABEL\n1 BYE\n1 BYE\n";
    let replies =
        b"1 OPEN\n1 ERR 1 Syntax 0\n1 ERR 2 NotHello\n1 ERR 2 NotHello\n1 OK\n1 ERR 28 NoSession\n";
    answered(&rt, Begun(b"", b""), &[(script, replies)])
}
