//! Times a store of many rows: snapshots, commits of one write, look-ups by slot, walks through a table, and questions for the
//! children of a slot.
//!
//! With a word, as `time`, it prints what each call takes at 10,000, 100,000 and 1,000,000 rows. Without one it fills a small
//! store and prints how many rows a walk finds, which is the same each time.
#![tactic(auto)]

mod family;
mod rows;
mod work;

use family::{QUESTIONS, add_each, add_many, children, count};
use ifdb_store::Store;
use std::time::Instant;
use std::{env, io};
use work::{CALLS, Holder, fill, look, make, make_writes, share, shrink, walk};

fn main(rt: HostRuntime) -> io::Result<()> {
    if env::args(&rt)?.nth(1).is_some() {
        time(&rt, 10_000)?;
        time(&rt, 100_000)?;
        time(&rt, 1_000_000)?;
    } else {
        show(&rt, 200)?;
        show_children(&rt, 200)?;
    }
    Ok(())
}

/// Prints how many rows a walk finds in a store of so many.
fn show(rt: &HostRuntime, rows: u32) -> io::Result<()> {
    let mut store = Store::new(rt.alloc())?;
    fill(rt.alloc(), &mut store, rows, rows, Holder::Nobody)?;
    let found = walk(store.content());
    println!(rt; "{rows} commits of one write: {found} rows")
}

/// Prints how many children of a slot there are among so many rows.
fn show_children(rt: &HostRuntime, rows: u32) -> io::Result<()> {
    let mut store = Store::new(rt.alloc())?;
    add_many(rt.alloc(), &mut store, rows)?;
    let found = count(rt.alloc(), store.content(), 7)?;
    println!(rt; "{rows} rows with parents: {found} children of a slot")
}

/// Fills a store, and times it.
fn time(rt: &HostRuntime, rows: u32) -> io::Result<()> {
    println!(rt; "{rows} rows")?;
    let mut store = Store::new(rt.alloc())?;
    fill(rt.alloc(), &mut store, rows, rows, Holder::Nobody)?;
    time_make(rt, rows)?;
    time_look(rt, &store, rows)?;
    time_share(rt, &store)?;
    time_writes(rt, rows)?;
    time_commits(rt, &mut store, rows, Holder::Snapshot)?;
    time_commits(rt, &mut store, rows, Holder::Nobody)?;
    time_walk(rt, &store, rows)?;
    time_family(rt, rows)
}

/// Times commits that replace rows, give them up, and insert them again.
fn time_commits(rt: &HostRuntime, store: &mut Store, rows: u32, holder: Holder) -> io::Result<()> {
    match holder {
        Holder::Nobody => println!(rt; "  in place:")?,
        Holder::Snapshot => println!(rt; "  beside a snapshot:")?,
    }
    time_fill(rt, store, rows, holder, "row replaced")?;
    time_shrink(rt, store, rows, holder)?;
    time_fill(rt, store, rows, holder, "row inserted")
}

/// Times the making of slots, which is a part of a look-up's time.
fn time_make(rt: &HostRuntime, rows: u32) -> io::Result<()> {
    let start = Instant::now(rt)?;
    make(rt.alloc(), rows)?;
    tell(rt, "slot alone", start, CALLS)
}

/// Times look-ups by slot.
fn time_look(rt: &HostRuntime, store: &Store, rows: u32) -> io::Result<()> {
    let start = Instant::now(rt)?;
    look(rt.alloc(), store.content(), rows)?;
    tell(rt, "look-up by slot", start, CALLS)
}

/// Times snapshots.
fn time_share(rt: &HostRuntime, store: &Store) -> io::Result<()> {
    let start = Instant::now(rt)?;
    share(store)?;
    tell(rt, "snapshot", start, CALLS)
}

/// Times commits of one row each.
fn time_fill(
    rt: &HostRuntime,
    store: &mut Store,
    rows: u32,
    holder: Holder,
    what: &str,
) -> io::Result<()> {
    let start = Instant::now(rt)?;
    fill(rt.alloc(), store, CALLS, rows, holder)?;
    tell(rt, what, start, CALLS)
}

/// Times commits of one deletion each.
fn time_shrink(rt: &HostRuntime, store: &mut Store, rows: u32, holder: Holder) -> io::Result<()> {
    let start = Instant::now(rt)?;
    shrink(rt.alloc(), store, rows, holder)?;
    tell(rt, "row deleted", start, CALLS)
}

/// Times the making of writes, which is a part of a commit's time.
fn time_writes(rt: &HostRuntime, rows: u32) -> io::Result<()> {
    let start = Instant::now(rt)?;
    make_writes(rt.alloc(), rows)?;
    tell(rt, "writes alone", start, CALLS)
}

/// Times a walk through all rows.
fn time_walk(rt: &HostRuntime, store: &Store, rows: u32) -> io::Result<()> {
    let start = Instant::now(rt)?;
    let _ = walk(store.content());
    tell(rt, "row of a walk", start, rows)
}

/// Fills a store with rows that have parents, and times it.
fn time_family(rt: &HostRuntime, rows: u32) -> io::Result<()> {
    let mut store = Store::new(rt.alloc())?;
    time_many(rt, &mut store, rows)?;
    time_children(rt, &store, rows)?;
    time_each(rt, &mut store, rows)
}

/// Times one commit of many rows with parents.
fn time_many(rt: &HostRuntime, store: &mut Store, rows: u32) -> io::Result<()> {
    let start = Instant::now(rt)?;
    add_many(rt.alloc(), store, rows)?;
    tell(rt, "row with a parent in one commit", start, rows)
}

/// Times questions for the first child of a slot.
fn time_children(rt: &HostRuntime, store: &Store, rows: u32) -> io::Result<()> {
    let start = Instant::now(rt)?;
    children(rt.alloc(), store.content(), rows)?;
    tell(rt, "first child of a slot", start, QUESTIONS)
}

/// Times commits of one row with a parent.
fn time_each(rt: &HostRuntime, store: &mut Store, rows: u32) -> io::Result<()> {
    let start = Instant::now(rt)?;
    add_each(rt.alloc(), store, rows)?;
    tell(rt, "commit of one row with a parent", start, QUESTIONS)
}

/// Prints how long each of some calls took.
fn tell(rt: &HostRuntime, what: &str, start: Instant, calls: u32) -> io::Result<()> {
    let time = start.elapsed(rt)?.as_nanos();
    let each = time.checked_div(u128::from(calls)).unwrap_or(0);
    println!(rt; "  {what}: {each} ns")
}
