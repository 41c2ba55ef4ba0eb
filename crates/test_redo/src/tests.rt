//! Worked records as bytes, and bytes that are changed, cut or broken.
use self::shown::{spelled, text_of};
use ifdb_redo::{ReadFault, change_text, checksum, read_record};
use ifdb_value::Principal;
use std::alloc::Global;
use std::process::Abort;
use std::test::Fail;

mod shown;

/// Bytes written by hand, but for their last four, and what is read of them.
static RECORDS: [(&[u8], &str); 7] = [
    (b"\x01\x00GRANT t TO ann\xf0\x83\xfb7", "0: GRANT t TO ann"),
    (b"\x01\xfe\x00\x00\x01\x00BYE\x93\x07+\xfb", "256: BYE"),
    (
        b"\x01\xff\x00\x00\x00\x01\x00\x00\x00\x00\x87?P\xe8",
        "4294967296: ",
    ),
    (b"\x02\x00\xd6$G<", ""),
    (
        b"\x02\x01\x01\x01\x01\x07\x01\x02\x01\x02\x01\x07\x02\x0bit is noted\x00\x96\xee\xf6\x8c",
        "1 (7) {2} = (7, 'it is noted');",
    ),
    (
        b"\x02\x01\x00\x01\x02\x01a\x00\x00\xde\x7f8\xaf",
        "0 ('a') {} gone;",
    ),
    (
        b"\x02\x02\x00\x01\x01\x07\x00\x00\x01\x00\x02\x03\xfe\x00\x00\x01\x00\x01\x02\x00\x01\xff\xff\xff\xff\xff\xff\xff\xff\xff\x01\x00\x01\x01\x07\x01\x03\xc4\xa2\x16<",
        "0 (7) {} gone;1 () {3, 256} = (NULL, -1) of 0 (7) {3};",
    ),
];

#[test]
fn records_are_read_and_spelled(rt: HostRuntime) -> Result<(), Fail> {
    for (bytes, text) in &RECORDS {
        is_record(&rt, rt.alloc(), bytes, text)?;
    }
    Ok(())
}

/// Tests that bytes are read as this record, and that the record is spelled as these bytes.
fn is_record(rt: &impl Abort, alloc: Global, bytes: &[u8], text: &str) -> Result<(), Fail> {
    let read = read_record(alloc, bytes).map_err(fail)?;
    assert_eq!(rt; text_of(alloc, &read)?.as_str(), text);
    assert_eq!(rt; spelled(alloc, &read)?.as_slice(), bytes);
    Ok(())
}

fn fail(fault: ReadFault) -> Fail {
    match fault {
        ReadFault::Broken => Fail::from("broken"),
        ReadFault::OutOfMemory => Fail::from("out of memory"),
    }
}

#[test]
fn a_changed_byte_is_refused(rt: HostRuntime) -> Result<(), Fail> {
    for (bytes, _) in &RECORDS {
        for place in 0..bytes.len() {
            each_change_is_refused(&rt, rt.alloc(), bytes, place)?;
        }
    }
    Ok(())
}

/// Tests that the bytes are refused with each of some other bytes at a place: each bit is turned alone, and all together.
fn each_change_is_refused(
    rt: &impl Abort,
    alloc: Global,
    bytes: &[u8],
    place: usize,
) -> Result<(), Fail> {
    for turned in [1_u8, 2, 4, 8, 16, 32, 64, 128, 255] {
        let mut changed = bytes.to_vec(alloc)?;
        if let Some(byte) = changed.get_mut(place) {
            *byte ^= turned;
        }
        assert!(rt; is_broken(alloc, &changed)?, "{turned} at {place}");
    }
    Ok(())
}

#[test]
fn a_part_is_refused(rt: HostRuntime) -> Result<(), Fail> {
    for (bytes, _) in &RECORDS {
        for (size, _) in bytes.iter().enumerate() {
            let part = bytes.get(..size).ok_or("a part")?;
            assert!(rt; is_broken(rt.alloc(), part)?, "the first {size}");
        }
    }
    Ok(())
}

/// Whether bytes are refused as no record.
fn is_broken(alloc: Global, bytes: &[u8]) -> Result<bool, Fail> {
    match read_record(alloc, bytes) {
        Ok(read) => {
            drop(read);
            Ok(false)
        }
        Err(ReadFault::Broken) => Ok(true),
        Err(ReadFault::OutOfMemory) => Err(Fail::from("out of memory")),
    }
}

/// What is no record, though its checksum stands behind it.
static BROKEN: [&[u8]; 21] = [
    // No kind, and kinds that there are not.
    b"",
    b"\x00",
    b"\x03\x00",
    // No asker, and a part of one.
    b"\x01",
    b"\x01\xfe\x00\x00\x01",
    b"\x01\xff\x00\x00\x00\x01\x00\x00\x00",
    // No count, one too high, and bytes behind the last write.
    b"\x02",
    b"\x02\x01",
    b"\x02\x00\x00",
    b"\x02\x02\x00\x01\x02\x01a\x00\x00",
    b"\x02\xff\xff\xff\xff\xff\xff\xff\xff\xff",
    // No label, tags that don't rise, and one that stands twice.
    b"\x02\x01\x00\x01\x02\x01a",
    b"\x02\x01\x00\x01\x02\x01a\x02\x05\x03\x00",
    b"\x02\x01\x00\x01\x02\x01a\x02\x05\x05\x00",
    // A kind of value that there is not, a text longer than the rest, and one that is not UTF-8.
    b"\x02\x01\x00\x01\x03\x00\x00",
    b"\x02\x01\x00\x01\x02\x09a\x00\x00",
    b"\x02\x01\x00\x01\x02\x01\xff\x00\x00",
    // Neither a row nor none, and a row without references.
    b"\x02\x01\x00\x01\x02\x01a\x00\x02",
    b"\x02\x01\x00\x01\x02\x01a\x00\x01\x00",
    // A slot that stands twice, and slots in another order.
    b"\x02\x02\x00\x01\x02\x01a\x00\x00\x00\x01\x02\x01a\x00\x00",
    b"\x02\x02\x01\x01\x02\x01a\x00\x00\x00\x01\x02\x01a\x00\x00",
];

#[test]
fn what_is_no_record_is_refused(rt: HostRuntime) -> Result<(), Fail> {
    for body in &BROKEN {
        let text = with_checksum(rt.alloc(), body)?;
        assert!(rt; is_broken(rt.alloc(), &text)?, "{body:?}");
    }
    Ok(())
}

fn with_checksum(alloc: Global, body: &[u8]) -> Result<Vec<u8>, Fail> {
    let mut text = body.to_vec(alloc)?;
    text.extend_from_slice(&checksum(body).to_be_bytes())?;
    Ok(text)
}

/// Numbers of an asker, and how long a record of his is without a line.
static NUMBERS: [(u64, usize); 8] = [
    (0, 6),
    (253, 6),
    (254, 10),
    (255, 10),
    (65_536, 10),
    (4_294_967_295, 10),
    (4_294_967_296, 14),
    (18_446_744_073_709_551_615, 14),
];

#[test]
fn numbers_are_short(rt: HostRuntime) -> Result<(), Fail> {
    for (number, size) in &NUMBERS {
        let text = change_text(rt.alloc(), Principal(*number), b"")?;
        assert_eq!(rt; text.len(), *size);
    }
    Ok(())
}

/// The vectors of RFC 3720, appendix B.4, and the usual one.
#[test]
fn checksums(rt: HostRuntime) {
    assert_eq!(rt; checksum(b""), 0);
    assert_eq!(rt; checksum(b"123456789"), 0xe306_9283);
    assert_eq!(rt; checksum(&[0; 32]), 0x8a91_36aa);
    assert_eq!(rt; checksum(&[255; 32]), 0x62a8_ab43);
    let rising: [u8; 32] = [
        0, 1, 2, 3, 4, 5, 6, 7, 8, 9, 10, 11, 12, 13, 14, 15, 16, 17, 18, 19, 20, 21, 22, 23, 24,
        25, 26, 27, 28, 29, 30, 31,
    ];
    assert_eq!(rt; checksum(&rising), 0x46dd_794e);
}
