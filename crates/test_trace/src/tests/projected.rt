// Scripts below a level.
use ifdb_io::{MemorySink, MemorySource};
use ifdb_label::Tag;
use ifdb_trace::{ProjectEnd, project};
use std::alloc::Global;
use std::test::Fail;

const LIMIT: u64 = 1_000_000;

// What a projection came to.
#[derive(Drop)]
struct Projected {
    end: ProjectEnd,
    written: Vec<u8>,
}

// The projection of a script, where these reads and these writes fail.
fn project_with(
    alloc: Global,
    script: &[u8],
    tags: &[u64],
    limit: u64,
    reads: &[u64],
    writes: &[u64],
) -> Result<Projected, Fail> {
    let bytes = Vec::from_slice(alloc, script)?;
    let mut input = MemorySource::new(bytes, 16, Vec::from_slice(alloc, reads)?);
    let mut output = MemorySink::new(alloc, 64, 200_000, Vec::from_slice(alloc, writes)?)?;
    let mut level = Vec::new(alloc);
    for tag in tags {
        level.push(Tag(*tag))?;
    }
    let end = project(alloc, &mut input, &mut output, &level, limit.min(LIMIT));
    let written = Vec::from_slice(alloc, output.bytes())?;
    Ok(Projected { end, written })
}

// Session 1 is an administrator at the empty label, and session 2 a guest at the label of the tag a, which is tag 0.
const SETUP: &str = "OPEN\n1 HELLO admin KEY 'admin'\n1 CREATE TAG a\n1 CREATE TAG b\n\
    1 CREATE TABLE note (id INT, body TEXT, PRIMARY KEY (id))\n1 CREATE PRINCIPAL guest KEY 'g'\nOPEN\n\
    2 HELLO guest KEY 'g'\n2 SET LABEL (a)\n";

const FIRST: &str =
    "1 BEGIN\n2 BEGIN\n2 INSERT INTO note VALUES (1, 's')\n2 COMMIT\n1 INSERT INTO note VALUES (1, 'p')\n\
    2 BEGIN\n1 COMMIT\n1 SELECT id, body FROM note\n";

const SECOND: &str =
    "2 BEGIN\n1 BEGIN\n2 SELECT id FROM note\n1 INSERT INTO note VALUES (1, 'p')\n1 COMMIT\n\
    1 SELECT id, body FROM note\n2 SELECT id FROM note\n";

// What both come to below the empty level.
const BELOW: &str =
    "1 BEGIN\n1 INSERT INTO note VALUES (1, 'p')\n1 COMMIT\n1 SELECT id, body FROM note\n";

fn both(alloc: Global, first: &str, second: &str) -> Result<Vec<u8>, Fail> {
    let mut text = Vec::from_slice(alloc, first.as_bytes())?;
    text.extend_from_slice(second.as_bytes())?;
    Ok(text)
}

#[test]
fn worlds(rt: HostRuntime) -> Result<(), Fail> {
    static TABLE: [(&str, &[u64], &str); 6] = [
        (FIRST, &[], BELOW),
        (SECOND, &[], BELOW),
        (FIRST, &[1], BELOW),
        (FIRST, &[7, 0], FIRST),
        (SECOND, &[0], SECOND),
        // The label before the step counts: raising it is asked inside, and giving it up is asked outside.
        (
            "1 SET LABEL (b)\n1 SET LABEL ()\n1 SHOW LABEL\n",
            &[],
            "1 SET LABEL (b)\n1 SHOW LABEL\n",
        ),
    ];
    for (script, level, below) in &TABLE {
        let whole = both(rt.alloc(), SETUP, script)?;
        let wanted = both(rt.alloc(), SETUP, below)?;
        let found = project_with(rt.alloc(), &whole, level, LIMIT, &[], &[])?;
        assert_eq!(rt; found.end, ProjectEnd::Done);
        assert_eq!(rt; found.written.as_slice(), wanted.as_slice(), "{script}");
    }
    Ok(())
}

#[test]
fn odd_lines(rt: HostRuntime) -> Result<(), Fail> {
    static TABLE: [(&str, &str); 5] = [
        ("", ""),
        ("# no step\n\n\r\nhey\r\n", "hey\r\n"),
        ("9 SHOW LABEL\n0\nOPEN", "9 SHOW LABEL\n0\nOPEN\n"),
        ("OPEN\n1 BYE\n1 SHOW LABEL", "OPEN\n1 BYE\n1 SHOW LABEL\n"),
        ("OPEN\n1", "OPEN\n1\n"),
    ];
    for (script, below) in &TABLE {
        let found = project_with(rt.alloc(), script.as_bytes(), &[], LIMIT, &[], &[])?;
        assert_eq!(rt; found.end, ProjectEnd::Done);
        assert_eq!(rt; found.written.as_slice(), below.as_bytes(), "{script}");
    }
    Ok(())
}

#[test]
fn long_lines(rt: HostRuntime) -> Result<(), Fail> {
    for count in [65_536, 65_537, 70_000] {
        let mut script = vec![in rt.alloc(); b'y'; count]?;
        script.extend_from_slice(b"\nOPEN\n")?;
        let mut wanted = vec![in rt.alloc(); b'x'; 65_536]?;
        wanted.extend_from_slice(b"\nOPEN\n")?;
        let found = project_with(rt.alloc(), &script, &[], LIMIT, &[], &[])?;
        assert_eq!(rt; found.end, ProjectEnd::Done);
        let same = found.written.as_slice() == wanted.as_slice();
        assert!(rt; same, "{count}");
    }
    Ok(())
}

#[test]
fn limits(rt: HostRuntime) -> Result<(), Fail> {
    static TABLE: [(u64, ProjectEnd, &str); 4] = [
        (11, ProjectEnd::Done, "OPEN\n1 HEY\n"),
        (10, ProjectEnd::TooLarge, "OPEN\n"),
        (5, ProjectEnd::TooLarge, "OPEN\n"),
        (4, ProjectEnd::TooLarge, ""),
    ];
    for (limit, end, written) in &TABLE {
        let found = project_with(rt.alloc(), b"OPEN\n1 HEY\n", &[], *limit, &[], &[])?;
        assert_eq!(rt; found.end, *end, "{limit}");
        assert_eq!(rt; found.written.as_slice(), written.as_bytes(), "{limit}");
    }
    Ok(())
}

#[test]
fn faults(rt: HostRuntime) -> Result<(), Fail> {
    let script = both(rt.alloc(), SETUP, FIRST)?;
    let whole = both(rt.alloc(), SETUP, BELOW)?;
    for call in 0..20 {
        let found = project_with(rt.alloc(), &script, &[], LIMIT, &[call], &[])?;
        assert_eq!(rt; found.end, ProjectEnd::ReadFault, "{call}");
        assert!(rt; whole.starts_with(&found.written), "{call}");
        let found = project_with(rt.alloc(), &script, &[], LIMIT, &[], &[call])?;
        assert_eq!(rt; found.end, ProjectEnd::WriteFault, "{call}");
        assert!(rt; whole.starts_with(&found.written), "{call}");
    }
    Ok(())
}
