// What no clause says: that calls succeed, and worked rows, by hand from the rules for lines.
use ifdb_disk::MemoryDisk;
use ifdb_keyed::{AdminKey, Heard, OutOfMemory, heard_in, read_key};
use std::alloc::Global;
use std::test::Fail;

// The server's key.
fn key() -> Result<AdminKey, Fail> {
    match AdminKey::new(b"it's 4711") {
        Some(key) => Ok(key),
        None => Err(Fail::new("no key")),
    }
}

// What is said, and what is heard of it.
static LINES: [(&[u8], Heard); 29] = [
    (b"HELLO admin KEY 'it''s 4711'", Heard::Admin),
    (b"hello ADMIN key 'it''s 4711'", Heard::Admin),
    (b" \t HeLLo\tAdmin  Key\t'it''s 4711' \t", Heard::Admin),
    (b"HELLO admin KEY'it''s 4711';", Heard::Admin),
    (b"HELLO admin KEY 'it''s 4711' ; \r", Heard::Admin),
    // Another key, that of the language among them.
    (b"HELLO admin KEY 'admin'", Heard::Nobody),
    (b"hello admin key'admin' ;", Heard::Nobody),
    (b"\tHELLO ADMIN KEY 'admin'\r", Heard::Nobody),
    (b"HELLO admin KEY ''", Heard::Nobody),
    (b"HELLO admin KEY 'IT''S 4711'", Heard::Nobody),
    (b"HELLO admin KEY 'it''s 4711 '", Heard::Nobody),
    (b"HELLO admin KEY 'it''''s 4711'", Heard::Nobody),
    // Another principal.
    (b"HELLO admins KEY 'it''s 4711'", Heard::AsSaid),
    (b"HELLO administrator KEY 'admin'", Heard::AsSaid),
    (b"HELLO bob KEY 'admin'", Heard::AsSaid),
    // No HELLO.
    (b"", Heard::AsSaid),
    (b"   ", Heard::AsSaid),
    (b"h", Heard::AsSaid),
    (b"HELLO", Heard::AsSaid),
    (b"HELLO admin KEY 'admin", Heard::AsSaid),
    (b"HELLO admin KEY 'admin' 'admin'", Heard::AsSaid),
    (b"HELLO admin KEY 'admin';;", Heard::AsSaid),
    (b"HELLO admin KEY 'admin'\r\r", Heard::AsSaid),
    (b"HELLO admin KEY \"admin\"", Heard::AsSaid),
    (b"HELLO 'admin' KEY 'admin'", Heard::AsSaid),
    (b"HELLO admin KEY 'admin\xff'", Heard::AsSaid),
    (b"\xc2\xa0HELLO admin KEY 'admin'", Heard::AsSaid),
    (b"CREATE PRINCIPAL admin KEY 'admin'", Heard::AsSaid),
    (
        b"INSERT INTO notes VALUES ('HELLO admin KEY ''admin''')",
        Heard::AsSaid,
    ),
];

#[test]
fn lines_are_heard(rt: HostRuntime) -> Result<(), Fail> {
    let key = key()?;
    for (line, want) in &LINES {
        assert_eq!(rt; heard_in(rt.alloc(), &key, line)?, *want, "{line:?}");
    }
    Ok(())
}

// What a file holds, and its key.
static FILES: [(&[u8], Option<&[u8]>); 11] = [
    (b"k", Some(b"k")),
    (b"a key\n", Some(b"a key")),
    (b"a key\r\nmore", Some(b"a key")),
    (b" a key \nmore\n", Some(b" a key ")),
    (b"\xc3\xa4\n", Some(b"\xc3\xa4")),
    (b"", None),
    (b"\n", None),
    (b"\r\nkey", None),
    (b"\xff\n", None),
    (
        b"0123456789012345678901234567890123456789012345678901234567890123\r\n",
        Some(b"0123456789012345678901234567890123456789012345678901234567890123"),
    ),
    (
        b"01234567890123456789012345678901234567890123456789012345678901234",
        None,
    ),
];

// A disk that holds these bytes, and never fails.
fn disk_of(alloc: Global, bytes: &[u8]) -> Result<MemoryDisk, OutOfMemory> {
    MemoryDisk::new(alloc, bytes.to_vec(alloc)?, 999, 99, Vec::new(alloc))
}

#[test]
fn keys_of_files(rt: HostRuntime) -> Result<(), Fail> {
    for (bytes, want) in &FILES {
        let mut disk = disk_of(rt.alloc(), bytes)?;
        match (read_key(&mut disk), want) {
            (Ok(Some(key)), Some(want)) => assert_eq!(rt; key.bytes(), *want),
            (Ok(None), None) => {}
            _ => return Err(Fail::new("another key")),
        }
    }
    Ok(())
}
