//! Contents of many rows, against what was written.
use self::walk::{value_at, walk};
use self::writes::{one, range, thinned};
use ifdb_row::{OutOfMemory, Writes};
use ifdb_store::{Content, Store};
use std::alloc::Global;
use std::process::Abort;
use std::test::Fail;
use std::thread::join;

mod children;
mod random;
mod refused;
mod walk;
mod writes;

#[test]
fn two_hundred_rows_in_four_pages(rt: HostRuntime) -> Result<(), Fail> {
    let mut store = filled(rt.alloc(), 200, 1)?;
    let before = store.snapshot()?;
    commit(&mut store, range(rt.alloc(), 200, 2)?)?;
    assert!(rt; walk(&before).runs >= 4);
    assert_eq!(rt; walk(&before).sum, 200);
    assert_eq!(rt; walk(store.content()).sum, 400);
    Ok(())
}

#[test]
fn many_deletions_leave_few_pages(rt: HostRuntime) -> Result<(), Fail> {
    let mut store = filled(rt.alloc(), 640, 1)?;
    for first in 0..15 {
        commit(&mut store, thinned(rt.alloc(), first)?)?;
    }
    let left = walk(store.content());
    assert_eq!(rt; left.rows, 40);
    assert!(rt; left.runs <= 2, "{left:?}");
    Ok(())
}

#[test]
fn twigs_are_made_anew(rt: HostRuntime) -> Result<(), Fail> {
    let mut store = filled(rt.alloc(), 10_000, 1)?;
    let full = store.snapshot()?;
    commit(&mut store, range(rt.alloc(), 9_000, 0)?)?;
    assert_eq!(rt; walk(&full).rows, 10_000);
    is_thinned(&rt, rt.alloc(), store.content())
}

/// 10,000 rows of the values 0, 1 and 2, of which 0 is no row, in scattered order, each in a commit of its own; then all anew.
#[test]
fn ten_thousand_commits(rt: HostRuntime) -> Result<(), Fail> {
    let mut store = Store::new(rt.alloc())?;
    scatter(rt.alloc(), &mut store, 0)?;
    let held = store.snapshot()?;
    scatter(rt.alloc(), &mut store, 1)?;
    assert_eq!(rt; (walk(&held).rows, walk(&held).sum), (6666, 9999));
    assert_eq!(rt;
        (walk(store.content()).rows, walk(store.content()).sum),
        (6667, 10_000)
    );
    Ok(())
}

/// Writes 10,000 rows, each in a commit of its own.
fn scatter(alloc: Global, store: &mut Store, shift: u8) -> Result<(), OutOfMemory> {
    for i in 0..10_000_u16 {
        let key = u32::from(i) * 7919 % 10_000;
        let value = (u32::from(i) + u32::from(shift)) % 3;
        commit(store, one(alloc, i64::from(key), i64::from(value))?)?;
    }
    Ok(())
}

/// Rows that somebody made are the store's.
#[test]
fn made_rows_are_installed(rt: HostRuntime) -> Result<(), Fail> {
    let mut store = filled(rt.alloc(), 200, 1)?;
    let writes = one(rt.alloc(), 70, 3)?;
    let rows = store.content().after(rt.alloc(), &writes)?;
    if let Err((writes, rows)) = store.install(2, writes, rows) {
        assert_eq!(rt; (walk(store.content()).sum, walk(&rows).sum), (200, 202));
        let Ok(()) = store.install(2, writes, rows) else {
            return Err(Fail::from("refused twice"));
        };
    }
    assert_eq!(rt; walk(store.content()).sum, 202);
    assert_eq!(rt; store.commits().len(), 2);
    Ok(())
}

/// Tests that the last thousand of 10,000 rows are left.
fn is_thinned(rt: &impl Abort, alloc: Global, content: &Content) -> Result<(), Fail> {
    assert_eq!(rt; walk(content).rows, 1000);
    assert_eq!(rt; value_at(content, alloc, 8_999)?, 0);
    assert_eq!(rt; value_at(content, alloc, 9_000)?, 1);
    Ok(())
}

#[test]
fn threads_read_one_content(rt: HostRuntime) -> Result<(), Fail> {
    let store = filled(rt.alloc(), 1000, 3)?;
    let content = store.content();
    let (first, second) = join(&rt, || walk(content).sum, || walk(content).sum);
    assert_eq!(rt; (first, second), (3000, 3000));
    Ok(())
}

/// Run with one allocation refused at a time: few of them are a snapshot's, and few a commit's.
#[test]
fn snapshot_shares(rt: HostRuntime) -> Result<(), Fail> {
    let Ok(mut store) = filled(rt.alloc(), 6400, 1) else {
        return Err(Fail::from("refused to the filling"));
    };
    let Ok(writes) = one(rt.alloc(), 3210, 2) else {
        return Err(Fail::from("refused to the write"));
    };
    shares(&rt, &mut store, writes)
}

/// Tests that a commit leaves a snapshot as it is.
fn shares(rt: &impl Abort, store: &mut Store, writes: Writes) -> Result<(), Fail> {
    let Ok(before) = store.snapshot() else {
        return Err(Fail::from("refused to the snapshot"));
    };
    let Ok(()) = store.commit(2, writes) else {
        return Err(Fail::from("refused to the commit"));
    };
    assert_eq!(rt; walk(&before).sum, 6400);
    assert_eq!(rt; walk(store.content()).sum, 6401);
    Ok(())
}

/// A thousand keys that come and go are a commit each, kept until no BEGIN is before it.
#[test]
fn commits_are_given_up(rt: HostRuntime) -> Result<(), Fail> {
    let mut store = Store::new(rt.alloc())?;
    for key in 0..1000_u16 {
        let stamp = 2 * u64::from(key) + 1;
        commit_at(&mut store, stamp, one(rt.alloc(), i64::from(key), 1)?)?;
        commit_at(&mut store, stamp + 1, one(rt.alloc(), i64::from(key), 0)?)?;
    }
    assert_eq!(rt; walk(store.content()).rows, 0);
    assert_eq!(rt; store.commits().len(), 2000);
    store.trim(1500);
    assert_eq!(rt; store.commits().len(), 500);
    store.trim(2000);
    assert_eq!(rt; store.commits().len(), 0);
    Ok(())
}

/// A store of so many rows of a value.
fn filled(alloc: Global, count: i64, value: i64) -> Result<Store, OutOfMemory> {
    let mut store = Store::new(alloc)?;
    commit(&mut store, range(alloc, count, value)?)?;
    Ok(store)
}

/// Commits writes.
fn commit(store: &mut Store, writes: Writes) -> Result<(), OutOfMemory> {
    commit_at(store, 1, writes)
}

/// Commits writes with a stamp.
fn commit_at(store: &mut Store, stamp: u64, writes: Writes) -> Result<(), OutOfMemory> {
    match store.commit(stamp, writes) {
        Ok(()) => Ok(()),
        Err(writes) => {
            drop(writes);
            Err(OutOfMemory)
        }
    }
}
