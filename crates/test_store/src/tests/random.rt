//! Pseudo-random writes, one after the other, beside a plain list of what stands under each key.
use super::commit;
use super::walk::{listed, value_at, walk};
use super::writes::{one, write_of};
use ifdb_row::{OutOfMemory, Rows, Writes};
use ifdb_store::{Content, Store};
use std::alloc::Global;
use std::ops::Range;
use std::process::Abort;
use std::test::Fail;

/// How many keys the writes have.
const KEYS: u64 = 400;

#[test]
fn pseudo_random_writes(rt: HostRuntime) -> Result<(), Fail> {
    let mut plain = Vec::from_elem(rt.alloc(), 0i64, KEYS as usize)?;
    let held = scatter(rt.alloc(), Content::new(rt.alloc())?, 0..500, &mut plain)?;
    let expected = Vec::from_slice(rt.alloc(), &plain)?;
    let content = scatter(rt.alloc(), held.share()?, 500..1000, &mut plain)?;
    assert!(rt; holds(&content, rt.alloc(), &plain)?);
    assert!(rt; holds(&held, rt.alloc(), &expected)?);
    Ok(())
}

#[test]
fn pseudo_random_writes_at_once(rt: HostRuntime) -> Result<(), Fail> {
    let mut plain = Vec::from_elem(rt.alloc(), 0i64, KEYS as usize)?;
    let content = scatter(rt.alloc(), Content::new(rt.alloc())?, 0..1000, &mut plain)?;
    is_listed(&rt, rt.alloc(), &content, &plain)?;
    is_written_at_once(&rt, rt.alloc(), &plain)
}

#[test]
fn pseudo_random_commits(rt: HostRuntime) -> Result<(), Fail> {
    let mut plain = Vec::from_elem(rt.alloc(), 0i64, KEYS as usize)?;
    let mut store = Store::new(rt.alloc())?;
    commit_each(rt.alloc(), &mut store, 0..1000, &mut plain)?;
    assert!(rt; holds(store.content(), rt.alloc(), &plain)?);
    Ok(())
}

#[test]
fn pseudo_random_commits_of_several(rt: HostRuntime) -> Result<(), Fail> {
    let mut plain = Vec::from_elem(rt.alloc(), 0i64, KEYS as usize)?;
    let mut store = Store::new(rt.alloc())?;
    for first in 0..200 {
        commit(&mut store, merged(rt.alloc(), first * 5..first * 5 + 5)?)?;
        note(first * 5..first * 5 + 5, &mut plain);
    }
    assert!(rt; holds(store.content(), rt.alloc(), &plain)?);
    Ok(())
}

#[test]
fn pseudo_random_commits_beside_snapshots(rt: HostRuntime) -> Result<(), Fail> {
    let mut plain = Vec::from_elem(rt.alloc(), 0i64, KEYS as usize)?;
    let mut store = Store::new(rt.alloc())?;
    for round in 0..20 {
        let held = store.snapshot()?;
        let before = Vec::from_slice(rt.alloc(), &plain)?;
        commit_each(
            rt.alloc(),
            &mut store,
            round * 50..round * 50 + 50,
            &mut plain,
        )?;
        assert!(rt; holds(&held, rt.alloc(), &before)?);
        assert!(rt; holds(store.content(), rt.alloc(), &plain)?);
    }
    Ok(())
}

/// Commits the writes of these numbers one by one. What stands under each key is put into the plain list as well.
fn commit_each(
    alloc: Global,
    store: &mut Store,
    numbers: Range<u32>,
    plain: &mut [i64],
) -> Result<(), OutOfMemory> {
    for number in numbers.start..numbers.end {
        let (key, value) = pseudo_random(number);
        commit(store, one(alloc, i64::from(key), value)?)?;
    }
    note(numbers, plain);
    Ok(())
}

/// Puts what the writes of these numbers leave under each key into the plain list.
fn note(numbers: Range<u32>, plain: &mut [i64]) {
    for number in numbers {
        let (key, value) = pseudo_random(number);
        if let Some(place) = plain.get_mut(key as usize) {
            *place = value;
        }
    }
}

/// Tests that the rows of a content in a list are what stands under each key.
fn is_listed(rt: &impl Abort, alloc: Global, content: &Content, plain: &[i64]) -> Result<(), Fail> {
    let Some(list) = listed(alloc, content)? else {
        return Err(Fail::from("the rows don't rise"));
    };
    assert!(rt; holds(&list, alloc, plain)?);
    Ok(())
}

/// Tests that the writes leave the same where they are written at once.
fn is_written_at_once(rt: &impl Abort, alloc: Global, plain: &[i64]) -> Result<(), Fail> {
    let content = at_once(alloc)?;
    assert!(rt; holds(&content, alloc, plain)?);
    Ok(())
}

/// The content of all writes, written at once.
fn at_once(alloc: Global) -> Result<Content, OutOfMemory> {
    let writes = merged(alloc, 0..1000)?;
    Content::new(alloc)?.after(alloc, &writes)
}

/// The writes of these numbers, later ones in place of earlier ones.
fn merged(alloc: Global, numbers: Range<u32>) -> Result<Writes, OutOfMemory> {
    let mut writes = Writes::new(alloc);
    for number in numbers {
        let (key, value) = pseudo_random(number);
        writes.put(write_of(alloc, i64::from(key), value)?)?;
    }
    Ok(writes)
}

/// A content after the writes of these numbers. What stands under each key is put into the plain list as well.
fn scatter(
    alloc: Global,
    content: Content,
    numbers: Range<u32>,
    plain: &mut [i64],
) -> Result<Content, OutOfMemory> {
    let mut content = content;
    for number in numbers {
        let (key, value) = pseudo_random(number);
        content = after_one(alloc, &content, i64::from(key), value)?;
        if let Some(place) = plain.get_mut(key as usize) {
            *place = value;
        }
    }
    Ok(content)
}

/// A content after one write.
fn after_one(
    alloc: Global,
    content: &Content,
    key: i64,
    value: i64,
) -> Result<Content, OutOfMemory> {
    let writes = one(alloc, key, value)?;
    content.after(alloc, &writes)
}

/// The key of a pseudo-random write, below `KEYS`, and its value: the number, or 0 in each fourth, which deletes.
fn pseudo_random(number: u32) -> (u32, i64) {
    let random = u64::from(number).wrapping_mul(0x9E37_79B9_7F4A_7C15) >> 32;
    let key = (random % KEYS) as u32;
    if random & 3 == 0 {
        (key, 0)
    } else {
        (key, i64::from(number))
    }
}

/// Whether rows are what stands under each key, and nothing else.
fn holds<R: Rows>(content: &R, alloc: Global, plain: &[i64]) -> Result<bool, OutOfMemory> {
    let mut rows = 0usize;
    let mut key = 0i64;
    for value in plain {
        if value_at(content, alloc, key)? != *value {
            return Ok(false);
        }
        if *value != 0 {
            rows = rows.saturating_add(1);
        }
        key = key.saturating_add(1);
    }
    Ok(walk(content).rows == rows)
}
