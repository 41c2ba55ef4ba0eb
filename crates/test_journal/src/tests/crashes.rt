// A crash at each call of the disk, and bytes that no journal left.
use super::support::{
    add_batches, batches_of, begin_and_add, empty_disk, first_texts, read_all, reads_as, texts_of,
};
use ifdb_disk::MemoryDisk;
use std::alloc::Global;
use std::process::Abort;
use std::test::Fail;

// The records that a crash leaves where call `fail` failed and each byte written since the last
// sync is `fill`, and how many appends were answered.
fn left(alloc: Global, fail: u64, fill: u8) -> Result<(String, usize), Fail> {
    let mut disk = empty_disk(alloc, fail)?;
    let count = begin_and_add(alloc, &mut disk)?;
    let mut crashed = disk.crash(fill);
    Ok((texts_of(alloc, &mut crashed)?, count))
}

#[test]
fn each_call_fails(rt: HostRuntime) -> Result<(), Fail> {
    for fail in 0..28 {
        for fill in [0, 1, 255] {
            let (texts, count) = left(rt.alloc(), fail, fill)?;
            let without = first_texts(rt.alloc(), count)?;
            let with = first_texts(rt.alloc(), count.saturating_add(1))?;
            let wanted = texts == without || texts == with;
            assert!(rt; wanted, "{fill} behind call {fail}: {texts}");
        }
    }
    Ok(())
}

#[test]
fn the_gate_decides(rt: HostRuntime) -> Result<(), Fail> {
    // The third record fails: its text, the sync behind it, its gate and the last sync.
    for (fail, fill, count, kept) in [
        (11, 255, 2, 2),
        (12, 0, 2, 2),
        (12, 255, 2, 2),
        (13, 0, 2, 2),
        (13, 255, 2, 3),
        (14, 0, 2, 2),
        (14, 255, 2, 3),
        (15, 0, 3, 3),
    ] {
        let (texts, answered) = left(rt.alloc(), fail, fill)?;
        let want = first_texts(rt.alloc(), kept)?;
        assert_eq!(rt; answered, count, "behind call {fail}");
        assert_eq!(rt; texts.as_str(), want.as_str(), "{fill} behind call {fail}");
    }
    Ok(())
}

// Tests that a disk of each front of these bytes, from this length on, is read as these texts.
fn fronts_read_as(
    rt: &impl Abort,
    alloc: Global,
    bytes: &[u8],
    from: usize,
    want: &str,
) -> Result<(), Fail> {
    for size in from..bytes.len() {
        reads_as(rt, alloc, &bytes[..size], want)?;
    }
    Ok(())
}

// A record that was written and not synced, of each length that a crash may leave.
#[test]
fn each_front_of_a_write(rt: HostRuntime) -> Result<(), Fail> {
    // The sync that fails, and the length at the sync before it.
    for (fail, synced) in [(4, 1), (8, 15), (12, 52), (16, 110), (20, 151), (24, 170)] {
        let mut disk = empty_disk(rt.alloc(), fail)?;
        let count = begin_and_add(rt.alloc(), &mut disk)?;
        let want = first_texts(rt.alloc(), count)?;
        fronts_read_as(&rt, rt.alloc(), disk.bytes(), synced, want.as_str())?;
    }
    Ok(())
}

#[test]
fn batches_are_whole(rt: HostRuntime) -> Result<(), Fail> {
    let alloc = rt.alloc();
    for fail in 0..12 {
        for fill in [0, 255] {
            let mut disk = empty_disk(alloc, fail)?;
            let mut texts = String::new(alloc);
            let mut count = 0;
            let batches = batches_of(alloc, 3)?;
            if let Ok(mut journal) = read_all(alloc, &mut disk, &mut texts) {
                count = add_batches(&mut journal, &mut disk, &batches);
            }
            let mut crashed = disk.crash(fill);
            let found = texts_of(alloc, &mut crashed)?;
            let without = first_texts(alloc, count.saturating_mul(3))?;
            let with = first_texts(alloc, count.saturating_mul(3).saturating_add(3))?;
            let wanted = found == without || found == with;
            assert!(rt; wanted, "{fill} behind call {fail}: {found}");
        }
    }
    Ok(())
}

// A disk with the six records.
fn six_records(alloc: Global) -> Result<MemoryDisk, Fail> {
    let mut disk = empty_disk(alloc, 1000)?;
    match begin_and_add(alloc, &mut disk)? {
        6 => Ok(disk),
        _ => Err(Fail::from("six records")),
    }
}

// The first texts, and what is said behind them.
fn texts_and(alloc: Global, count: usize, fault: &str) -> Result<String, Fail> {
    let mut texts = first_texts(alloc, count)?;
    texts.push_str(fault)?;
    Ok(texts)
}

// The six records, cut in the last one, whose gate is byte 169.
#[test]
fn cut_off(rt: HostRuntime) -> Result<(), Fail> {
    let alloc = rt.alloc();
    let disk = six_records(alloc)?;
    let without = texts_and(alloc, 4, "the journal is damaged at byte 150\n")?;
    let front = disk.bytes().get(..169).ok_or("a gate")?;
    reads_as(&rt, alloc, front, without.as_str())?;
    let cut = texts_and(alloc, 5, "the journal is damaged at byte 169\n")?;
    fronts_read_as(&rt, alloc, disk.bytes(), 170, cut.as_str())
}

#[test]
fn a_changed_byte(rt: HostRuntime) -> Result<(), Fail> {
    let alloc = rt.alloc();
    let disk = six_records(alloc)?;
    // The third record's gate is byte 51, and behind it its kind, session and length.
    for (at, byte, fault) in [
        (51, 0, ""),
        (52, 9, "the journal is damaged at byte 51\n"),
        (52, 1, "the journal is damaged at byte 51\n"),
        (61, 1, "the journal is damaged at byte 51\n"),
    ] {
        let want = texts_and(alloc, 2, fault)?;
        let mut bytes = disk.bytes().to_vec(alloc)?;
        if at < bytes.len() {
            bytes[at] = byte;
        }
        reads_as(&rt, alloc, &bytes, want.as_str())?;
    }
    Ok(())
}
