//! Threads at one object, each proof of which uses the public clauses alone.
ghost use Rattle.std.specs.Prelude.{◌≡◌, ◌⊎◌, ◌↔◌, ◌+◌, ◌<◌, [], ◌∷◌, ◌++◌, Some, IsTrue, length};
ghost use Rattle.std.specs.Thread.{IsSync};
ghost use Rattle.ifdb_turn.specs.Places.{times};
ghost use Rattle.ifdb_turn.specs.Passes.{history, places, shares, BelongsTo};
ghost use Rattle.ifdb_turn.specs.Turns.{turnstile_of, pass_of, object_of, IsTurn};

use ifdb_turn::{NamedEntry, Object, Pass, Turn, Turnstile};
use std::marker::Brand;
use std::sync::Wait;
use std::test::Fail;
use std::thread::{Threads, join};

/// A number. Each entry adds 1, and names its own place as its root.
#[derive(Drop)]
struct Counter {
    n: u64,
}

impl Object for Counter {
    type Entry = u64;

    ghost stands = { λ counter log. counter.n ≡ length log };

    ghost right = { λ log entry. entry ≡ length log };

    ghost root = { λ entry. entry };
}

fn add_one<R: Wait>(rt: &R, turnstile: &Turnstile<Counter>, pass: &mut Pass<Counter>)
    requires { BelongsTo turnstile.now pass.old }
    ensures pass { BelongsTo turnstile.now pass.new }
    ensures shares { shares pass.new ≡ shares pass.old }
    ensures places { length (places pass.new) ≡ length (places pass.old) + 1 }
{
    let mut turn = turnstile.enter(rt, pass);
    let counter = turn.object();
    counter.n += 1;
    turn.done::<Brand>();
}

fn add_often<R: Wait>(
    rt: &R,
    turnstile: &Turnstile<Counter>,
    mut pass: Pass<Counter>,
    often: u64,
) -> Pass<Counter>
    requires { BelongsTo turnstile.now pass }
    ensures pass { BelongsTo turnstile.now result }
    ensures shares { shares result ≡ shares pass }
    ensures places { length (places result) ≡ length (places pass) + often }
{
    for i in 0..often {
        let _ = i;
        add_one(rt, turnstile, &mut pass);
    }
    pass
}

#[test]
fn two_threads_add(rt: HostRuntime) -> Result<(), Fail> {
    let Ok((turnstile, mut first)) = Turnstile::new(rt.alloc(), Counter { n: 0 }) else {
        return Err("no memory")?;
    };
    let second = turnstile.split(&mut first);
    let (mut first, second) = join(
        &rt,
        || add_often(&rt, &turnstile, first, 1000),
        || add_often(&rt, &turnstile, second, 1000),
    );
    turnstile.join_pass(&mut first, second);
    let counter = turnstile.close(first);
    assert_eq!(rt; counter.n, 2000);
    Ok(())
}

fn add_in_two<R: Threads + Wait + Sync>(
    rt: &R,
    turnstile: &Turnstile<Counter>,
    first: Pass<Counter>,
    second: Pass<Counter>,
    often: u64,
) -> (Pass<Counter>, Pass<Counter>)
    requires first { BelongsTo turnstile.now first }
    requires second { BelongsTo turnstile.now second }
    ensures first { BelongsTo turnstile.now result.0 }
    ensures second { BelongsTo turnstile.now result.1 }
    ensures first_shares { shares result.0 ≡ shares first }
    ensures second_shares { shares result.1 ≡ shares second }
{
    join(
        rt,
        || add_often(rt, turnstile, first, often),
        || add_often(rt, turnstile, second, often),
    )
}

// Four threads add. The passes of three of them are split off before, and joined after.
fn add_in_four<R: Threads + Wait + Sync>(
    rt: &R,
    turnstile: &Turnstile<Counter>,
    mut pass: Pass<Counter>,
    often: u64,
) -> Pass<Counter>
    requires pass { BelongsTo turnstile.now pass }
    requires enough { 3 < shares pass }
    ensures pass { BelongsTo turnstile.now result }
    ensures shares { shares result ≡ shares pass }
{
    let second = turnstile.split(&mut pass);
    let third = turnstile.split(&mut pass);
    let fourth = turnstile.split(&mut pass);
    let ((mut pass, second), (third, fourth)) = join(
        rt,
        || -> (Pass<Counter>, Pass<Counter>)
            requires { IsSync R.row × BelongsTo turnstile.now pass
                × BelongsTo turnstile.now second }
        { add_in_two(rt, turnstile, pass, second, often) },
        || -> (Pass<Counter>, Pass<Counter>)
            requires { IsSync R.row × BelongsTo turnstile.now third
                × BelongsTo turnstile.now fourth }
        { add_in_two(rt, turnstile, third, fourth, often) },
    );
    turnstile.join_pass(&mut pass, second);
    turnstile.join_pass(&mut pass, third);
    turnstile.join_pass(&mut pass, fourth);
    pass
}

#[test]
fn four_threads_add(rt: HostRuntime) -> Result<(), Fail> {
    let Ok((turnstile, pass)) = Turnstile::new(rt.alloc(), Counter { n: 0 }) else {
        return Err("no memory")?;
    };
    let pass = add_in_four(&rt, &turnstile, pass, 100);
    let pass = add_in_four(&rt, &turnstile, pass, 150);
    let counter = turnstile.close(pass);
    assert_eq!(rt; counter.n, 1000);
    Ok(())
}

/// A number of pages. Each entry writes one, and names the page that opened its book.
#[derive(Drop)]
struct Diary {
    pages: u64,
}

/// What a page says: the place of its book's first page, and whether it is that page.
struct Page {
    book: u64,
    opens: bool,
}

impl Object for Diary {
    type Entry = Page;

    ghost stands = { λ diary log. diary.pages ≡ length log };

    ghost right = { λ log page. IsTrue page.opens ↔ (page.book ≡ length log) };

    ghost root = { λ page. page.book };
}

fn finish<N: NamedEntry<Page>>(turn: Turn<'_, Diary>, book: u64, opens: bool)
    requires turn { IsTurn turn }
    requires page { N.entry ≡ Some (record { book = book; opens = opens }) }
    requires pages { (object_of turn).pages ≡ length (history (pass_of turn)) + 1 }
    requires opens { IsTrue opens ↔ (book ≡ length (history (pass_of turn))) }
    requires book { (book ≡ length (history (pass_of turn)))
        ⊎ (0 < times book (places (pass_of turn))) }
    ensures pass { BelongsTo (turnstile_of turn.entry) turn.exit.0.now }
    ensures places { places turn.exit.0.now
        ≡ places (pass_of turn.entry) ++ length (history (pass_of turn.entry)) ∷ [] }
    ensures shares { shares turn.exit.0.now ≡ shares (pass_of turn.entry) }
{
    turn.done::<N>();
}

fn open_book<R: Wait>(rt: &R, turnstile: &Turnstile<Diary>, pass: &mut Pass<Diary>) -> u64
    requires { BelongsTo turnstile.now pass.old }
    ensures pass { BelongsTo turnstile.now pass.new }
    ensures shares { shares pass.new ≡ shares pass.old }
    ensures own { 0 < times result (places pass.new) }
{
    let mut turn = turnstile.enter(rt, pass);
    let diary = turn.object();
    let book = diary.pages;
    diary.pages += 1;
    finish::<Brand>(turn, book, true);
    book
}

fn write_page<R: Wait>(rt: &R, turnstile: &Turnstile<Diary>, pass: &mut Pass<Diary>, book: u64)
    requires pass { BelongsTo turnstile.now pass.old }
    requires own { 0 < times book (places pass.old) }
    ensures pass { BelongsTo turnstile.now pass.new }
    ensures shares { shares pass.new ≡ shares pass.old }
{
    let mut turn = turnstile.enter(rt, pass);
    let diary = turn.object();
    diary.pages += 1;
    finish::<Brand>(turn, book, false);
}

fn count_pages<R: Wait>(rt: &R, turnstile: &Turnstile<Diary>, pass: &mut Pass<Diary>) -> u64
    requires { BelongsTo turnstile.now pass.old }
    ensures pass { BelongsTo turnstile.now pass.new }
    ensures shares { shares pass.new ≡ shares pass.old }
    ensures places { places pass.new ≡ places pass.old }
    ensures pages { result ≡ length (history pass.new) }
{
    let mut turn = turnstile.enter(rt, pass);
    let pages = turn.object().pages;
    turn.leave();
    pages
}

#[test]
fn two_passes_write(rt: HostRuntime) -> Result<(), Fail> {
    let Ok((turnstile, mut morning)) = Turnstile::new(rt.alloc(), Diary { pages: 0 }) else {
        return Err("no memory")?;
    };
    let mut evening = turnstile.split(&mut morning);
    let mine = open_book(&rt, &turnstile, &mut morning);
    let theirs = open_book(&rt, &turnstile, &mut evening);
    assert_eq!(rt; count_pages(&rt, &turnstile, &mut morning), 2);
    write_page(&rt, &turnstile, &mut morning, mine);
    assert_eq!(rt; count_pages(&rt, &turnstile, &mut evening), 3);
    assert_eq!(rt; (mine, theirs), (0, 1));
    turnstile.join_pass(&mut morning, evening);
    let diary = turnstile.close(morning);
    assert_eq!(rt; diary.pages, 3);
    Ok(())
}
