//! Commits whose memory is refused: run with one allocation refused at a time.
use super::filled;
use super::walk::walk;
use super::writes::one;
use ifdb_row::Writes;
use ifdb_store::Store;
use std::process::Abort;
use std::test::Fail;

#[test]
fn replaces(rt: HostRuntime) -> Result<(), Fail> {
    let mut store = filled(rt.alloc(), 200, 1)?;
    let writes = one(rt.alloc(), 70, 3)?;
    commits_or_stays(&rt, &mut store, writes, 202)
}

#[test]
fn inserts(rt: HostRuntime) -> Result<(), Fail> {
    let mut store = filled(rt.alloc(), 200, 1)?;
    let writes = one(rt.alloc(), 200, 3)?;
    commits_or_stays(&rt, &mut store, writes, 203)
}

#[test]
fn deletes(rt: HostRuntime) -> Result<(), Fail> {
    let mut store = filled(rt.alloc(), 200, 1)?;
    let writes = one(rt.alloc(), 70, 0)?;
    commits_or_stays(&rt, &mut store, writes, 199)
}

#[test]
fn replaces_beside_a_snapshot(rt: HostRuntime) -> Result<(), Fail> {
    let mut store = filled(rt.alloc(), 200, 1)?;
    let held = store.snapshot()?;
    let writes = one(rt.alloc(), 70, 3)?;
    commits_or_stays(&rt, &mut store, writes, 202)?;
    assert_eq!(rt; walk(&held).sum, 200);
    Ok(())
}

/// Tests that a commit leaves rows of this sum. Where memory is refused, it leaves the 200 that there were, and is made again.
fn commits_or_stays(
    rt: &impl Abort,
    store: &mut Store,
    writes: Writes,
    sum: i64,
) -> Result<(), Fail> {
    let kept = store.commits().len();
    if let Err(writes) = store.commit(2, writes) {
        assert_eq!(rt; walk(store.content()).sum, 200);
        assert_eq!(rt; store.commits().len(), kept);
        let Ok(()) = store.commit(2, writes) else {
            return Err(Fail::from("refused twice"));
        };
    }
    assert_eq!(rt; walk(store.content()).sum, sum);
    assert_eq!(rt; store.commits().len(), kept + 1);
    Ok(())
}
