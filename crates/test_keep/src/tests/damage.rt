// Journals that are cut or changed.
use super::support::{FIRST, disk_of, keep};
use ifdb_keep::KeepEnd;
use std::alloc::Global;
use std::test::Fail;

// The bytes that the first script leaves.
fn first_bytes(alloc: Global) -> Result<Vec<u8>, Fail> {
    let mut disk = disk_of(alloc, b"", 1000, &[])?;
    let (_, text) = keep(alloc, &mut disk, FIRST)?;
    drop(text);
    Ok(disk.bytes().to_vec(alloc)?)
}

// How a script ends over these bytes, and whether it wrote nothing and left them as they were.
fn end_over(alloc: Global, bytes: &[u8]) -> Result<(KeepEnd, bool), Fail> {
    let mut disk = disk_of(alloc, bytes, 1000, &[])?;
    let (end, text) = keep(alloc, &mut disk, "OPEN\n")?;
    Ok((end, text.is_empty() && disk.bytes() == bytes))
}

// The last record's gate is byte 169, and the gate behind it byte 210.
#[test]
fn cut_in_the_last_record(rt: HostRuntime) -> Result<(), Fail> {
    let alloc = rt.alloc();
    let bytes = first_bytes(alloc)?;
    assert_eq!(rt; bytes.len(), 211);
    for (size, _) in bytes.iter().enumerate() {
        if size >= 169 {
            // Without its gate it is the record before it that is damaged.
            let at = if size == 169 { 150 } else { 169 };
            let (end, still) = end_over(alloc, &bytes[..size])?;
            assert_eq!(rt; end, KeepEnd::Damaged(at), "of {size} bytes");
            assert!(rt; still, "of {size} bytes");
        }
    }
    Ok(())
}

// The third record's gate is byte 51.
#[test]
fn a_changed_byte_in_the_middle(rt: HostRuntime) -> Result<(), Fail> {
    let alloc = rt.alloc();
    for (at, byte, want) in [
        (51, 0, KeepEnd::Done),
        (52, 9, KeepEnd::Damaged(51)),
        (52, 1, KeepEnd::Damaged(51)),
        (61, 1, KeepEnd::Damaged(51)),
    ] {
        let mut bytes = first_bytes(alloc)?;
        if at < bytes.len() {
            bytes[at] = byte;
        }
        let (end, still) = end_over(alloc, &bytes)?;
        assert_eq!(rt; end, want, "{byte} at {at}");
        assert_eq!(rt; still, want != KeepEnd::Done, "{byte} at {at}");
    }
    Ok(())
}
