// Worked rows.
use super::support::{FIRST, SECOND, count_records, disk_of, first_replies, keep};
use ifdb_keep::KeepEnd;
use std::test::Fail;

#[test]
fn kept_and_read_back(rt: HostRuntime) -> Result<(), Fail> {
    let alloc = rt.alloc();
    let mut disk = disk_of(alloc, b"", 1000, &[])?;
    let (end, text) = keep(alloc, &mut disk, FIRST)?;
    let want = first_replies(alloc, 6)?;
    assert_eq!(rt; end, KeepEnd::Done);
    assert_eq!(rt; text.as_slice(), want.as_bytes());
    assert_eq!(rt; disk.bytes().len(), 211);
    let front =
        b"\x01\x01\0\0\0\0\0\0\0\0\0\0\0\0\x01\x02\0\0\0\0\0\0\0\x01\0\0\0\x17HELLO admin KEY 'admin'\x01\x02";
    assert!(rt; disk.bytes().starts_with(front));
    let (end, text) = keep(alloc, &mut disk, SECOND)?;
    assert_eq!(rt; end, KeepEnd::Done);
    assert_eq!(rt;
        text.as_slice(),
        b"1 OPEN\n1 OK\n1 ROWS 1 1\n1 1\n".as_slice()
    );
    assert_eq!(rt; disk.bytes().len(), 276);
    let back =
        b"\x01\x03\0\0\0\0\0\0\0\0\0\0\0\0\x01\x01\0\0\0\0\0\0\0\0\0\0\0\0\x01\x02\0\0\0\0\0\0\0\x02\0\0\0\x17HELLO admin KEY 'admin'\0";
    assert!(rt; disk.bytes().ends_with(back));
    Ok(())
}

// The disk fails behind the text of the third record, and then at its gate.
#[test]
fn the_disk_fails(rt: HostRuntime) -> Result<(), Fail> {
    let alloc = rt.alloc();
    for (fail, fill, records) in [(12, 255, 2), (13, 0, 2), (13, 255, 3)] {
        let mut disk = disk_of(alloc, b"", 1000, &[fail])?;
        let (end, text) = keep(alloc, &mut disk, FIRST)?;
        assert_eq!(rt; end, KeepEnd::DiskFault);
        assert_eq!(rt; text.as_slice(), b"1 OPEN\n1 OK\n".as_slice());
        let mut left = disk.crash(fill);
        assert_eq!(rt; count_records(alloc, &mut left)?, records, "{fail} {fill}");
    }
    Ok(())
}

#[test]
fn a_damaged_disk(rt: HostRuntime) -> Result<(), Fail> {
    let alloc = rt.alloc();
    let mut disk = disk_of(alloc, b"\x01\x09\0", 1000, &[])?;
    let (end, text) = keep(alloc, &mut disk, FIRST)?;
    assert_eq!(rt; end, KeepEnd::Damaged(0));
    assert_eq!(rt; text.as_slice(), b"".as_slice());
    assert_eq!(rt; disk.bytes(), b"\x01\x09\0".as_slice());
    Ok(())
}

// Sessions of a script begin at 1 again; those that were open have left, and their transactions are over.
#[test]
fn sessions_begin_again(rt: HostRuntime) -> Result<(), Fail> {
    let alloc = rt.alloc();
    let mut disk = disk_of(alloc, b"", 1000, &[])?;
    let (end, text) = keep(alloc, &mut disk, FIRST)?;
    assert_eq!(rt; end, KeepEnd::Done);
    drop(text);
    let script =
        "1 SHOW LABEL\nOPEN\n2 SHOW LABEL\n1 HELLO admin KEY 'admin'\n1 COMMIT\nOPEN\n2 HELLO admin KEY 'admin'\n2 INSERT INTO note VALUES (2)\n1 SELECT id FROM note ORDER BY id\nnonsense\n";
    let want =
        "1 ERR 28 NoSession\n1 OPEN\n2 ERR 28 NoSession\n1 OK\n1 ERR 10 NoTransaction\n2 OPEN\n2 OK\n2 OK 1\n1 ROWS 2 1\n1 1\n1 2\n0 ERR 1 Syntax 0\n";
    let (end, text) = keep(alloc, &mut disk, script)?;
    assert_eq!(rt; end, KeepEnd::Done);
    assert_eq!(rt; text.as_slice(), want.as_bytes());
    Ok(())
}

// What only looks, what is refused before it is asked, and lines of no session have no record.
#[test]
fn lines_without_a_record(rt: HostRuntime) -> Result<(), Fail> {
    let alloc = rt.alloc();
    let mut disk = disk_of(alloc, b"", 1000, &[])?;
    let script =
        "# a comment\n\nOPEN\n1 SHOW LABEL\n1  select id FROM note\n2 BEGIN\n3\nx\n1 BYE\n1 BEGIN\n";
    let (end, text) = keep(alloc, &mut disk, script)?;
    assert_eq!(rt; end, KeepEnd::Done);
    drop(text);
    // OPEN and BYE.
    assert_eq!(rt; count_records(alloc, &mut disk)?, 2);
    assert_eq!(rt; disk.bytes().len(), 32);
    Ok(())
}
