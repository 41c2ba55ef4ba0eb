// Pairs of scripts that agree below the empty level: who is there hears the same of both.
use super::*;

// Session 1 is an administrator at the empty label, and session 2 a guest at the label of the tag a.
const BEGINNING: &[u8] =
    b"OPEN\n1 HELLO admin KEY 'admin'\n1 CREATE TAG a\n1 CREATE TAG b\n1 CREATE TABLE note (id INT, PRIMARY KEY (id))\n\
    1 CREATE PRINCIPAL guest KEY 'g'\nOPEN\n2 HELLO guest KEY 'g'\n2 SET LABEL (a)\n";

// What session 1 is told of that.
const BEGUN: &[u8] = b"1 OPEN\n1 OK\n1 OK\n1 OK\n1 OK\n1 OK\n";

// The lines that are told to session 1.
fn told_to_the_first(alloc: Global, replies: &[u8]) -> Result<Vec<u8>, Fail> {
    let mut told = Vec::new(alloc);
    for line in replies.split_inclusive(|b| *b == b'\n') {
        if line.starts_with(b"1 ") {
            told.extend_from_slice(line)?;
        }
    }
    Ok(told)
}

// Two scripts that differ above the first session's label alone, and what it is told of each.
static WORLDS: [(&str, &str, &str); 3] = [
    (
        "1 BEGIN\n2 BEGIN\n2 INSERT INTO note VALUES (1)\n2 COMMIT\n1 INSERT INTO note VALUES (1)\n2 BEGIN\n1 COMMIT\n\
            1 SELECT id FROM note\n",
        "2 BEGIN\n1 BEGIN\n2 SELECT id FROM note\n1 INSERT INTO note VALUES (1)\n1 COMMIT\n1 SELECT id FROM note\n\
            2 SELECT id FROM note\n",
        "1 OK\n1 OK 1\n1 OK\n1 ROWS 1 1\n1 1\n",
    ),
    (
        "2 INSERT INTO note VALUES (1)\n1 INSERT INTO note VALUES (1)\n1 SELECT id FROM note\n",
        "1 INSERT INTO note VALUES (1)\n2 SELECT id FROM note\n1 SELECT id FROM note\n",
        "1 OK 1\n1 ROWS 1 1\n1 1\n",
    ),
    (
        "1 INSERT INTO note VALUES (5)\n2 INSERT INTO note VALUES (5)\n2 SET LABEL (a, b)\n2 INSERT INTO note VALUES (6)\n\
            1 INSERT INTO note VALUES (6)\n2 SET LABEL ()\n1 INSERT INTO note VALUES (5)\n1 SELECT id FROM note\n",
        "1 INSERT INTO note VALUES (5)\n1 INSERT INTO note VALUES (6)\n1 INSERT INTO note VALUES (5)\n1 SELECT id FROM note\n",
        "1 OK 1\n1 OK 1\n1 ERR 13 DuplicateKey\n1 ROWS 2 1\n1 5\n1 6\n",
    ),
];

#[test]
fn nobody_below_hears_what_happens_above(rt: HostRuntime) -> Result<(), Fail> {
    for (first, second, behind) in &WORLDS {
        let wanted = both(rt.alloc(), BEGUN, behind.as_bytes())?;
        for rest in [*first, *second] {
            let script = both(rt.alloc(), BEGINNING, rest.as_bytes())?;
            let ran = run(&rt, &script, 64)?;
            assert_eq!(rt; ran.status, Status::Done);
            let told = told_to_the_first(rt.alloc(), &ran.written)?;
            assert_eq!(rt; told.as_slice(), wanted.as_slice(), "{rest}");
        }
    }
    Ok(())
}
