//! Turns at a number behind a turnstile.
ghost use Rattle.std.specs.Prelude.{◌≡◌, ◌+◌, ◌<◌};
ghost use Rattle.std.specs.Thread.{IsSync};
ghost use Rattle.ifdb_turn.specs.Passes.{shares, BelongsTo};

use crate::Crew;
use ifdb_turn::{Object, Pass, Turnstile};
use std::alloc::{AllocError, Global};
use std::sync::Wait;
use std::thread::{Threads, join};

/// A number that each turn adds 1 to. It stands for any history, and no turn adds an entry.
#[derive(Drop)]
pub struct Visits {
    count: u64,
}

impl Object for Visits {
    type Entry = ();

    ghost stands = { λ _ _. Unit {0} };

    ghost right = { λ _ _. Unit {0} };

    ghost root = { λ _. 0 };
}

fn visit<R: Wait>(rt: &R, turnstile: &Turnstile<Visits>, pass: &mut Pass<Visits>)
    requires { BelongsTo turnstile.now pass.old }
    ensures pass { BelongsTo turnstile.now pass.new }
    ensures shares { shares pass.new ≡ shares pass.old }
{
    let mut turn = turnstile.enter(rt, pass);
    let visits = turn.object();
    visits.count = visits.count.wrapping_add(1);
    turn.leave();
}

fn visit_often<R: Wait>(
    rt: &R,
    turnstile: &Turnstile<Visits>,
    mut pass: Pass<Visits>,
    often: u64,
) -> Pass<Visits>
    requires { BelongsTo turnstile.now pass }
    ensures pass { BelongsTo turnstile.now result }
    ensures shares { shares result ≡ shares pass }
{
    for i in 0..often {
        let _ = i;
        visit(rt, turnstile, &mut pass);
    }
    pass
}

// Two passes in two threads, one pass at the end.
fn visit_in_two<R: Threads + Wait + Sync>(
    rt: &R,
    turnstile: &Turnstile<Visits>,
    first: Pass<Visits>,
    second: Pass<Visits>,
    often: u64,
) -> Pass<Visits>
    requires first { BelongsTo turnstile.now first }
    requires second { BelongsTo turnstile.now second }
    ensures pass { BelongsTo turnstile.now result }
    ensures shares { shares result ≡ shares first + shares second }
{
    let (mut first, second) = join(
        rt,
        || visit_often(rt, turnstile, first, often),
        || visit_often(rt, turnstile, second, often),
    );
    turnstile.join_pass(&mut first, second);
    first
}

fn visit_in_four<R: Threads + Wait + Sync>(
    rt: &R,
    turnstile: &Turnstile<Visits>,
    mut pass: Pass<Visits>,
    often: u64,
) -> Pass<Visits>
    requires pass { BelongsTo turnstile.now pass }
    requires enough { 3 < shares pass }
    ensures pass { BelongsTo turnstile.now result }
    ensures shares { shares result ≡ shares pass }
{
    let second = turnstile.split(&mut pass);
    let third = turnstile.split(&mut pass);
    let fourth = turnstile.split(&mut pass);
    let (mut pass, others) = join(
        rt,
        || -> Pass<Visits>
            requires { IsSync R.row × BelongsTo turnstile.now pass
                × BelongsTo turnstile.now second }
        { visit_in_two(rt, turnstile, pass, second, often) },
        || -> Pass<Visits>
            requires { IsSync R.row × BelongsTo turnstile.now third
                × BelongsTo turnstile.now fourth }
        { visit_in_two(rt, turnstile, third, fourth, often) },
    );
    turnstile.join_pass(&mut pass, others);
    pass
}

/// Each thread of the crew takes that many turns and adds 1 in each. Gives the sum.
pub fn take<R: Threads + Wait + Sync>(
    rt: &R,
    alloc: Global,
    crew: Crew,
    often: u64,
) -> Result<u64, AllocError> {
    let Ok((turnstile, mut pass)) = Turnstile::new(alloc, Visits { count: 0 }) else {
        return Err(AllocError);
    };
    let pass = match crew {
        Crew::One => visit_often(rt, &turnstile, pass, often),
        Crew::Two => {
            let second = turnstile.split(&mut pass);
            visit_in_two(rt, &turnstile, pass, second, often)
        }
        Crew::Four => visit_in_four(rt, &turnstile, pass, often),
    };
    Ok(turnstile.close(pass).count)
}
