// Worked scripts, with their replies as they were written by hand.
ghost use Rattle.std.specs.Prelude.{◌≤◌};

use super::*;

// Beginning of a script: an administrator with two tags and a table, and a guest.
const BEGINNING: &[u8] =
    b"OPEN\n1 HELLO admin KEY 'admin'\n1 CREATE TAG a\n1 CREATE TAG b\n1 CREATE TABLE note (id INT, PRIMARY KEY (id))\n\
    1 CREATE PRINCIPAL guest KEY 'g'\nOPEN\n2 HELLO guest KEY 'g'\n";

const BEGUN: &[u8] = b"1 OPEN\n1 OK\n1 OK\n1 OK\n1 OK\n1 OK\n2 OPEN\n2 OK\n";

// A compound tag shows what its member hides.
const COMPOUND: &[u8] =
    b"OPEN\n1 HELLO admin KEY 'admin'\n1 CREATE TABLE note (id INT, PRIMARY KEY (id))\n1 CREATE COMPOUND TAG every\n\
    1 CREATE TAG c IN (every)\n1 SET LABEL (c)\n1 INSERT INTO note VALUES (1)\n1 SET LABEL (c, every)\n1 SHOW LABEL\n\
    1 SELECT id FROM note\n1 INSERT INTO note VALUES (1)\n";

const COMPOUND_REPLIES: &[u8] =
    b"1 OPEN\n1 OK\n1 OK\n1 OK\n1 OK\n1 OK\n1 OK 1\n1 OK\n1 LABEL (every)\n1 ROWS 1 1\n1 1\n1 ERR 13 DuplicateKey\n";

// A chain of grants holds while its links stand.
const GRANTS: &[u8] =
    b"OPEN\n1 HELLO admin KEY 'admin'\n1 CREATE TAG a\n1 CREATE TAG b\n1 CREATE PRINCIPAL guest KEY 'g'\nOPEN\n2 HELLO guest KEY 'g'\n\
    1 CREATE PRINCIPAL h KEY 'h'\nOPEN\n3 HELLO h KEY 'h'\n1 GRANT a TO guest\n2 GRANT a TO h\n3 SET LABEL (a)\n3 SET LABEL ()\n\
    3 SET LABEL (a)\n1 REVOKE a FROM guest\n3 SET LABEL ()\n3 SHOW LABEL\n1 REVOKE a FROM guest\n2 GRANT a TO h\n";

const GRANTS_REPLIES: &[u8] =
    b"1 OPEN\n1 OK\n1 OK\n1 OK\n1 OK\n2 OPEN\n2 OK\n1 OK\n3 OPEN\n3 OK\n1 OK\n2 OK\n3 OK\n3 OK\n3 OK\n1 OK\n\
    3 ERR 8 NoAuthority\n3 LABEL (a)\n1 ERR 23 NotGranted\n2 ERR 8 NoAuthority\n";

// States of a session, and names of each kind.
const STATES: &[u8] =
    b"OPEN\n1 SHOW LABEL\n1 HELLO admin KEY 'x'\n1 HELLO ADMIN KEY 'admin'\n1 HELLO admin KEY 'admin'\n1 ROLLBACK\n1 BEGIN\n\
    1 CREATE TAG z\n1 ROLLBACK\n1 CREATE TAG z\n1 CREATE TAG z\n1 CREATE TAG y IN (z)\n1 CREATE TAG y IN (nope)\n\
    1 CREATE TABLE note (id INT, body TEXT, PRIMARY KEY (id))\n1 SELECT body + 1 FROM note\n1 UPDATE note SET id = 2\n\
    1 CREATE VIEW w AS SELECT id FROM note WITH DECLASSIFYING (z)\n1 INSERT INTO w VALUES (1)\n1 SET LABEL (z)\n\
    1 CREATE TAG y\n1 BYE\n1 SHOW LABEL\n";

const STATES_REPLIES: &[u8] =
    b"1 OPEN\n1 ERR 2 NotHello\n1 ERR 4 BadKey\n1 OK\n1 ERR 3 HelloTwice\n1 ERR 10 NoTransaction\n1 OK\n\
    1 ERR 9 InTransaction\n1 OK\n1 OK\n1 ERR 5 Taken\n1 ERR 25 NotCompound\n1 ERR 6 UnknownName\n1 OK\n\
    1 ERR 11 TypeMismatch\n1 ERR 24 KeyColumn\n1 OK\n1 ERR 26 NotATable\n1 OK\n1 ERR 7 LabelNotEmpty\n1 OK\n1 ERR 28 NoSession\n";

// Scripts, and their replies.
static SCRIPTS: [(&[u8], &[u8]); 5] = [
    (b"", b""),
    (b"# one\n\n# two\n", b""),
    (COMPOUND, COMPOUND_REPLIES),
    (GRANTS, GRANTS_REPLIES),
    (STATES, STATES_REPLIES),
];

#[test]
fn scripts_have_their_replies(rt: HostRuntime) -> Result<(), Fail> {
    for (script, replies) in &SCRIPTS {
        for piece in [1, 3, 65_536] {
            let ran = run(&rt, script, piece)?;
            assert_eq!(rt; ran.status, Status::Done);
            assert_eq!(rt; ran.written.as_slice(), *replies, "{piece}");
        }
    }
    Ok(())
}

#[test]
fn faults_of_a_line_have_their_places(rt: HostRuntime) -> Result<(), Fail> {
    let script = b"1 SELEC id\n1 SELECT id FROM\n1 SELECT 'abc\n1\n7 BEGIN\nfoo\n";
    let replies =
        b"1 ERR 1 Syntax 0\n1 ERR 1 Syntax 14\n1 ERR 1 Syntax 7\n1 ERR 1 Syntax 0\n7 ERR 28 NoSession\n0 ERR 1 Syntax 0\n";
    answered(&rt, Begun(BEGINNING, BEGUN), &[(script, replies)])
}

// A request, and as many spaces behind it as make a line of this length; and then a line more.
fn padded(alloc: Global, length: usize) -> Result<Vec<u8>, Fail>
    requires { length ≤ 100000 }
{
    let mut script = both(alloc, BEGINNING, b"1 SHOW LABEL")?;
    for _ in 12..length {
        script.push(b' ')?;
    }
    script.extend_from_slice(b"\n2 SHOW LABEL\n")?;
    Ok(script)
}

#[test]
fn a_line_may_be_long(rt: HostRuntime) -> Result<(), Fail> {
    let table = [
        (65_535, b"1 LABEL ()\n2 LABEL ()\n".as_slice()),
        (65_536, b"0 ERR 21 TooLong\n2 LABEL ()\n".as_slice()),
    ];
    for (length, behind) in table {
        let script = padded(rt.alloc(), length)?;
        let replies = both(rt.alloc(), BEGUN, behind)?;
        let ran = run(&rt, &script, 65_536)?;
        assert_eq!(rt; ran.status, Status::Done);
        assert_eq!(rt; ran.written.as_slice(), replies.as_slice(), "{length}");
    }
    Ok(())
}

// The clinic: its tables, principals and sessions.
const CLINIC: &[u8] = b"OPEN\n1 HELLO admin KEY 'admin'\n1 CREATE COMPOUND TAG patients\n\
    1 CREATE TABLE patient (id INT, name TEXT, PRIMARY KEY (id))\n\
    1 CREATE TABLE visit (id INT, pid INT, fee INT, why TEXT, PRIMARY KEY (id), FOREIGN KEY (pid) REFERENCES patient)\n\
    1 CREATE PRINCIPAL doctor KEY 'd'\n1 CREATE PRINCIPAL billing KEY 'b'\n1 GRANT patients TO doctor\n\
    OPEN\n2 HELLO doctor KEY 'd'\nOPEN\n3 HELLO billing KEY 'b'\n";

const CLINIC_REPLIES: &[u8] =
    b"1 OPEN\n1 OK\n1 OK\n1 OK\n1 OK\n1 OK\n1 OK\n1 OK\n2 OPEN\n2 OK\n3 OPEN\n3 OK\n";

// What is asked of forty patients, their doctor's view, and its end.
const BILLS: &[u8] =
    b"2 CREATE VIEW fees AS SELECT visit.id, visit.pid, visit.fee FROM visit WITH DECLASSIFYING (patients)\n\
    3 SELECT COUNT(*) FROM visit\n3 SELECT COUNT(*) FROM fees\n\
    3 SELECT pid, SUM(fee) FROM fees WHERE fee >= 3900 GROUP BY pid\n3 SELECT why FROM visit\n3 SET LABEL (p7)\n\
    3 SELECT name FROM patient\n3 SET LABEL ()\n1 REVOKE patients FROM doctor\nOPEN\n4 HELLO billing KEY 'b'\n\
    4 SELECT COUNT(*) FROM fees\n";

const BILLS_REPLIES: &[u8] =
    b"2 OK\n3 ROWS 1 1\n3 0\n3 ROWS 1 1\n3 40\n3 ROWS 2 2\n3 39\t3900\n3 40\t4000\n3 ROWS 0 1\n3 OK\n3 ROWS 1 1\n3 n7\n\
    3 ERR 8 NoAuthority\n1 OK\n4 OPEN\n4 OK\n4 ERR 27 ViewAuthority\n";

#[test]
fn a_clinic_of_forty_patients(rt: HostRuntime) -> Result<(), Fail> {
    let mut script = Vec::from_slice(rt.alloc(), CLINIC)?;
    let mut replies = Vec::from_slice(rt.alloc(), CLINIC_REPLIES)?;
    for i in 1..=40u32 {
        let lines = format!(in rt.alloc();
            "1 CREATE TAG p{i} IN (patients)\n2 SET LABEL (p{i})\n2 INSERT INTO patient VALUES ({i}, 'n{i}')\n\
            2 INSERT INTO visit VALUES ({i}, {i}, {i}00, 'flu')\n2 SET LABEL ()\n"
        )?;
        script.extend_from_slice(lines.as_bytes())?;
        replies.extend_from_slice(b"1 OK\n2 OK\n2 OK 1\n2 OK 1\n2 OK\n")?;
    }
    script.extend_from_slice(BILLS)?;
    replies.extend_from_slice(BILLS_REPLIES)?;
    let ran = run(&rt, &script, 65_536)?;
    assert_eq!(rt; ran.status, Status::Done);
    assert_eq!(rt; ran.written.as_slice(), replies.as_slice());
    Ok(())
}
