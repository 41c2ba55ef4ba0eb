//! Turns that add entries, by two passes in one thread. Each entry names its pass's first one as its root.
ghost use Rattle.std.specs.Prelude.{◌≡◌, ◌⊎◌, ◌+◌, ◌<◌, [], ◌∷◌, ◌++◌, Some, length};
ghost use Rattle.ifdb_turn.specs.Places.{times};
ghost use Rattle.ifdb_turn.specs.Passes.{history, places, shares, BelongsTo};
ghost use Rattle.ifdb_turn.specs.Turns.{turnstile_of, pass_of, object_of, IsTurn};

use ifdb_turn::{NamedEntry, Object, Pass, Turn, Turnstile};
use std::alloc::{AllocError, Global};
use std::marker::Brand;
use std::sync::Wait;

/// The number of entries. An entry is the place of its root.
#[derive(Drop)]
pub struct Entries {
    count: u64,
}

impl Object for Entries {
    type Entry = u64;

    ghost stands = { λ entries log. entries.count ≡ length log };

    ghost right = { λ _ _. Unit {0} };

    ghost root = { λ root. root };
}

// Ends the turn with an entry that names this root.
fn finish<N: NamedEntry<u64>>(turn: Turn<'_, Entries>, root: u64)
    requires turn { IsTurn turn }
    requires entry { N.entry ≡ Some root }
    requires count { (object_of turn).count ≡ length (history (pass_of turn)) + 1 }
    requires own { (root ≡ length (history (pass_of turn)))
        ⊎ (0 < times root (places (pass_of turn))) }
    ensures pass { BelongsTo (turnstile_of turn.entry) turn.exit.0.now }
    ensures places { places turn.exit.0.now
        ≡ places (pass_of turn.entry) ++ length (history (pass_of turn.entry)) ∷ [] }
    ensures shares { shares turn.exit.0.now ≡ shares (pass_of turn.entry) }
{
    turn.done::<N>();
}

// Adds an entry that is its own root, and gives its place.
fn open_root<R: Wait>(rt: &R, turnstile: &Turnstile<Entries>, pass: &mut Pass<Entries>) -> u64
    requires { BelongsTo turnstile.now pass.old }
    ensures pass { BelongsTo turnstile.now pass.new }
    ensures shares { shares pass.new ≡ shares pass.old }
    ensures own { 0 < times result (places pass.new) }
{
    let mut turn = turnstile.enter(rt, pass);
    let entries = turn.object();
    let root = entries.count;
    entries.count += 1;
    finish::<Brand>(turn, root);
    root
}

// Adds an entry under a root of the pass.
fn add<R: Wait>(rt: &R, turnstile: &Turnstile<Entries>, pass: &mut Pass<Entries>, root: u64)
    requires pass { BelongsTo turnstile.now pass.old }
    requires own { 0 < times root (places pass.old) }
    ensures pass { BelongsTo turnstile.now pass.new }
    ensures shares { shares pass.new ≡ shares pass.old }
    ensures kept { 0 < times root (places pass.new) }
{
    let mut turn = turnstile.enter(rt, pass);
    let entries = turn.object();
    entries.count += 1;
    finish::<Brand>(turn, root);
}

fn add_often<R: Wait>(
    rt: &R,
    turnstile: &Turnstile<Entries>,
    pass: &mut Pass<Entries>,
    root: u64,
    often: u64,
)
    requires pass { BelongsTo turnstile.now pass.old }
    requires own { 0 < times root (places pass.old) }
    ensures pass { BelongsTo turnstile.now pass.new }
    ensures shares { shares pass.new ≡ shares pass.old }
{
    for i in 0..often {
        let _ = i;
        add(rt, turnstile, pass, root);
    }
}

/// Two passes add a root each, and then that many entries under it. Gives the number of all entries.
pub fn take<R: Wait>(rt: &R, alloc: Global, often: u64) -> Result<u64, AllocError> {
    let Ok((turnstile, mut first)) = Turnstile::new(alloc, Entries { count: 0 }) else {
        return Err(AllocError);
    };
    let mut second = turnstile.split(&mut first);
    let mine = open_root(rt, &turnstile, &mut first);
    let theirs = open_root(rt, &turnstile, &mut second);
    add_often(rt, &turnstile, &mut first, mine, often);
    add_often(rt, &turnstile, &mut second, theirs, often);
    turnstile.join_pass(&mut first, second);
    Ok(turnstile.close(first).count)
}
