// Worked scripts with closures, and what no clause says: that runs succeed while there is memory.
use ifdb_closure::*;
use ifdb_io::{MemorySink, MemorySource};
use std::alloc::Global;
use std::process::Abort;
use std::test::Fail;

const ROOM: usize = 8192;

// Sessions 1 of admin and 2 of guest, a tag and a table.
const SETUP: &str = "OPEN\n1 HELLO admin KEY 'admin'\n1 CREATE TAG a\n\
    1 CREATE TABLE note (id INT, body TEXT, PRIMARY KEY (id))\n\
    1 CREATE PRINCIPAL guest KEY 'g'\nOPEN\n2 HELLO guest KEY 'g'\n";

const SET_UP: &str = "1 OPEN\n1 OK\n1 OK\n1 OK\n1 OK\n2 OPEN\n2 OK\n";

// What a script is told behind the setup.
fn told(alloc: Global, script: &str) -> Result<Vec<u8>, Fail> {
    let mut bytes = Vec::from_slice(alloc, SETUP.as_bytes())?;
    bytes.extend_from_slice(script.as_bytes())?;
    let mut input = MemorySource::new(bytes, 4096, Vec::new(alloc));
    let mut output = MemorySink::new(alloc, 64, ROOM, Vec::new(alloc))?;
    closure_script(alloc, &mut input, &mut output, 1_000_000);
    Ok(Vec::from_slice(alloc, output.bytes())?)
}

// Behind the setup, each script is told its replies.
fn are_told(rt: &impl Abort, alloc: Global, table: &[(&str, &str)]) -> Result<(), Fail> {
    for (script, replies) in table {
        let mut wanted = Vec::from_slice(alloc, SET_UP.as_bytes())?;
        wanted.extend_from_slice(replies.as_bytes())?;
        assert_eq!(rt;
            told(alloc, script)?.as_slice(),
            wanted.as_slice(),
            "{script}"
        );
    }
    Ok(())
}

#[test]
fn a_closure_has_its_owners_authority(rt: HostRuntime) -> Result<(), Fail> {
    are_told(
        &rt,
        rt.alloc(),
        &[
            (
                "1 CREATE CLOSURE publish AS SET LABEL (); INSERT INTO note VALUES (9, 'done')\n\
                2 SET LABEL (a)\n2 SET LABEL ()\n2 CALL publish\n2 SHOW LABEL\n\
                1 SELECT id, body FROM note\n2 CALL publish\nOPEN\n",
                "1 OK\n2 OK\n2 ERR 8 NoAuthority\n2 OK 1\n2 LABEL (a)\n1 ROWS 1 2\n1 9\tdone\n\
                2 ERR 13 DuplicateKey\n3 OPEN\n",
            ),
            (
                "1 CREATE CLOSURE peek AS SET LABEL (a); SELECT id FROM note\n\
                1 CREATE CLOSURE peek AS DELETE FROM note\n2 CALL peek\n2 BEGIN\n2 CALL peek\n\
                2 ROLLBACK\n2 CALL nope\n2 CALL 7\n1 SET LABEL (a)\n\
                1 CREATE CLOSURE p AS DELETE FROM note\n",
                "1 OK\n1 ERR 5 Taken\n2 ERR 30 ClosureLabel\n2 OK\n2 ERR 9 InTransaction\n2 OK\n\
                2 ERR 6 UnknownName\n2 ERR 1 Syntax 0\n1 OK\n1 ERR 7 LabelNotEmpty\n",
            ),
        ],
    )
}

#[test]
fn a_call_is_one_transaction(rt: HostRuntime) -> Result<(), Fail> {
    are_told(
        &rt,
        rt.alloc(),
        &[
            // Where a statement is refused the ones before it come to nothing.
            (
                "1 CREATE CLOSURE both AS INSERT INTO note VALUES (1, 'x'); \
                INSERT INTO note VALUES (1, 'y')\n2 CALL both\n1 SELECT id FROM note\n",
                "1 OK\n2 ERR 13 DuplicateKey\n1 ROWS 0 1\n",
            ),
            // The COMMIT judges the label of the end.
            (
                "1 CREATE CLOSURE sink AS SET LABEL (); INSERT INTO note VALUES (1, 'x'); \
                SET LABEL (a)\n2 SET LABEL (a)\n2 CALL sink\n1 SELECT id FROM note\n",
                "1 OK\n2 OK\n2 ERR 16 CommitLabel\n1 ROWS 0 1\n",
            ),
            // It tells what its last statement is told.
            (
                "1 CREATE CLOSURE look AS INSERT INTO note VALUES (1, 'x'); SELECT body FROM note;\n\
                2 CALL look;\n",
                "1 OK\n2 ROWS 1 1\n2 x\n",
            ),
        ],
    )
}

#[test]
fn an_owner_has_the_authority_of_now(rt: HostRuntime) -> Result<(), Fail> {
    are_told(
        &rt,
        rt.alloc(),
        &[(
            "1 GRANT a TO guest\n2 CREATE CLOSURE clear AS SET LABEL (); SELECT id FROM note\n\
            1 SET LABEL (a)\n1 CALL clear\n1 SET LABEL ()\n1 REVOKE a FROM guest\n\
            1 SET LABEL (a)\n1 CALL clear\n",
            "1 OK\n2 OK\n1 OK\n1 ROWS 0 1\n1 OK\n1 OK\n1 OK\n1 ERR 8 NoAuthority\n",
        )],
    )
}

#[test]
fn forms_are_read_exactly(rt: HostRuntime) -> Result<(), Fail> {
    are_told(
        &rt,
        rt.alloc(),
        &[
            ("1 CREATE CLOSURE p AS\n", "1 ERR 1 Syntax 0\n"),
            ("1 CREATE CLOSURE p AS ;\n", "1 ERR 1 Syntax 0\n"),
            ("1 CREATE CLOSURE p AS BEGIN\n", "1 ERR 1 Syntax 0\n"),
            ("1 CREATE CLOSURE p AS SHOW LABEL\n", "1 ERR 1 Syntax 0\n"),
            (
                "1 CREATE CLOSURE AS AS DELETE FROM note\n",
                "1 ERR 1 Syntax 0\n",
            ),
            (
                "1 CREATE CLOSURE p DELETE FROM note\n",
                "1 ERR 1 Syntax 0\n",
            ),
            (
                "1 CREATE CLOSURE p AS DELETE FROM note;;\n",
                "1 ERR 1 Syntax 0\n",
            ),
            ("1 CREATE CLOSURE p AS DELETE FROM note; \n", "1 OK\n"),
            (
                "1 create closure P as delete from note\n1 Call p\n",
                "1 OK\n1 OK 0\n",
            ),
            ("1 CALL\n", "1 ERR 1 Syntax 0\n"),
            ("1 CALL p p\n", "1 ERR 1 Syntax 0\n"),
            ("1 CALL p;;\n", "1 ERR 1 Syntax 0\n"),
            // Faults of tokens come first, with their places.
            ("1 CALL p ?\n", "1 ERR 1 Syntax 7\n"),
            (
                "3 CALL p\n3 CALL 7\n",
                "3 ERR 28 NoSession\n3 ERR 28 NoSession\n",
            ),
            ("OPEN\n3 CALL p\n", "3 OPEN\n3 ERR 2 NotHello\n"),
            // A semicolon in a text parts nothing.
            (
                "1 CREATE CLOSURE p AS INSERT INTO note VALUES (1, 'a;b'); SELECT body FROM note\n\
                2 CALL p\n",
                "1 OK\n2 ROWS 1 1\n2 a;b\n",
            ),
        ],
    )
}

// CREATE CLOSURE of so many statements.
fn of_statements(alloc: Global, count: usize) -> Result<String, Fail> {
    let mut script = String::from_str(alloc, "1 CREATE CLOSURE p AS DELETE FROM note")?;
    for _ in 1..count {
        script.push_str("; DELETE FROM note")?;
    }
    script.push_str("\n1 CALL p\n")?;
    Ok(script)
}

#[test]
fn a_closure_has_64_statements_at_most(rt: HostRuntime) -> Result<(), Fail> {
    let table = [
        (64, "1 OK\n1 OK 0\n"),
        (65, "1 ERR 22 Limit\n1 ERR 6 UnknownName\n"),
    ];
    for (count, replies) in table {
        let script = of_statements(rt.alloc(), count)?;
        are_told(&rt, rt.alloc(), &[(script.as_str(), replies)])?;
    }
    Ok(())
}
