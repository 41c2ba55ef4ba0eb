// The first script is stopped at each call of the disk, and goes on from each image that a crash may leave then.
use super::support::{FIRST, SECOND, count_records, disk_of, first_replies, keep};
use ifdb_keep::KeepEnd;
use std::alloc::Global;
use std::test::Fail;

// How many writes and syncs the script makes: three at the start, and four for each of six records.
const CALLS: u64 = 27;

// The bytes of a disk on which the script made so many calls, none of which failed, and how many replies were written.
fn stopped(alloc: Global, calls: u64) -> Result<(Vec<u8>, usize), Fail> {
    let mut disk = disk_of(alloc, b"", calls, &[])?;
    let (end, text) = keep(alloc, &mut disk, FIRST)?;
    let want = if calls < CALLS {
        KeepEnd::DiskFault
    } else {
        KeepEnd::Done
    };
    if end != want {
        return Err("another end".into());
    }
    let replies = text.iter().filter(|b| **b == b'\n').count();
    Ok((disk.bytes().to_vec(alloc)?, replies))
}

// What the second script is told where there are so many records.
fn second_replies(records: u64) -> &'static str {
    match records {
        0 | 1 | 2 => "1 OPEN\n1 OK\n1 ERR 6 UnknownName\n",
        3 => "1 OPEN\n1 OK\n1 ROWS 0 1\n",
        _ => "1 OPEN\n1 OK\n1 ROWS 1 1\n1 1\n",
    }
}

// An image has the records of all replies that were written, or one more, and the second script goes on from it.
fn goes_on(alloc: Global, image: &[u8], replies: usize) -> Result<bool, Fail> {
    let mut disk = disk_of(alloc, image, 1000, &[])?;
    let records = count_records(alloc, &mut disk)?;
    let (end, text) = keep(alloc, &mut disk, SECOND)?;
    let kept = records as usize == replies || records as usize == replies.saturating_add(1);
    Ok(kept && end == KeepEnd::Done && text.as_slice() == second_replies(records).as_bytes())
}

#[test]
fn each_call_is_the_last(rt: HostRuntime) -> Result<(), Fail> {
    let alloc = rt.alloc();
    for calls in 0..28 {
        let (after, replies) = stopped(alloc, calls)?;
        let (before, _) = stopped(alloc, calls.saturating_sub(1))?;
        // Nothing of the last call is there, or all of it, or a half.
        assert!(rt;
            goes_on(alloc, &before, replies)? || calls == 0,
            "before call {calls}"
        );
        assert!(rt; goes_on(alloc, &after, replies)?, "after call {calls}");
        let middle = before.len().midpoint(after.len());
        if middle <= after.len() {
            assert!(rt;
                goes_on(alloc, &after[..middle], replies)?,
                "half of call {calls}"
            );
        }
    }
    Ok(())
}

#[test]
fn each_call_fails(rt: HostRuntime) -> Result<(), Fail> {
    let alloc = rt.alloc();
    for fail in 0..27 {
        for fill in [0, 255] {
            let mut disk = disk_of(alloc, b"", 1000, &[fail])?;
            let (end, text) = keep(alloc, &mut disk, FIRST)?;
            assert_eq!(rt; end, KeepEnd::DiskFault, "at call {fail}");
            let replies = text.iter().filter(|b| **b == b'\n').count();
            let want = first_replies(alloc, replies)?;
            assert_eq!(rt; text.as_slice(), want.as_bytes(), "at call {fail}");
            let left = disk.crash(fill);
            assert!(rt;
                goes_on(alloc, left.bytes(), replies)?,
                "{fill} behind call {fail}"
            );
        }
    }
    Ok(())
}
