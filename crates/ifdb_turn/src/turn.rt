//! One turn at the object.
ghost use Rattle.std.specs.Prelude.{◌≡◌, [], ◌∷◌, ◌++◌, length, Some};
ghost use Rattle.ifdb_turn.specs.Passes.{history, places, shares, BelongsTo, IsOrderly};

use crate::kinds::{CopyPass, JoinPasses, NamedEntry};
use crate::object::Object;
use crate::turnstile::{Pass, Turnstile};
use crate::view::{Kept, PassView};
use atomic_table::Badge;

/// The object in one thread's hands, between `Turnstile::enter` and the end of the turn. The pass is borrowed until
/// then. A turn can't be dropped: end it by `done` or by `leave`, since nobody else has a turn before.
pub struct Turn<'a, O: Object> {
    pub(crate) pass: &'a mut Pass<O>,
    pub(crate) turnstile: &'a Turnstile<O>,
    pub(crate) object: O,
    pub(crate) witness: Badge<PassView<O::Entry>>,
}

impl<'a, O: Object> Turn<'a, O> {
    ghost use types.Logic.{sem};
    ghost use denote.Follow.{follows};
    ghost use mir.Syntax.{named};
    ghost use Rattle.ifdb_turn.specs.contracts.turn.Turn.{the_row};
    ghost use Rattle.ifdb_turn.specs.Turns.{turnstile_of, pass_of, object_of, IsTurn, Adds, turn_with};

    /// The object, to read and to change. What is written through it is the turn's object, and nothing else changes.
    pub fn object(&mut self) -> &mut O
        ensures* writes_back { sem 𝓛
            (follows (the_row (record { mir = named 1; lft = [] }) O.row O.Entry.row O.Object)
            O.row self.entry.ghost_name result.ghost_name (turn_with self.old)) }
        ensures value { result.now ≡ object_of self.old }
    {
        &mut self.object
    }

    /// Ends the turn with one entry more, `N::entry`, which contracts alone see. The object stands for the history
    /// with that entry behind it; the entry is right there, and its root is its own place or an own place of the pass.
    /// The pass has then seen that longer history, and its last place is its own. Some single steps on words, and no
    /// memory. One who sleeps in front of the gate wakes.
    pub fn done<N: NamedEntry<O::Entry>>(self)
        requires turn { IsTurn self }
        requires entry { (e : O.Entry) × (N.entry ≡ Some e) × Adds O.stands O.right O.root self e }
        ensures pass { BelongsTo (turnstile_of self.entry) self.exit.0.now }
        ensures orderly { IsOrderly O.right self.exit.0.now }
        ensures history { (e : O.Entry) → N.entry ≡ Some e
            → history self.exit.0.now ≡ history (pass_of self.entry) ++ e ∷ [] }
        ensures places { places self.exit.0.now
            ≡ places (pass_of self.entry) ++ length (history (pass_of self.entry)) ∷ [] }
        ensures shares { shares self.exit.0.now ≡ shares (pass_of self.entry) }
    {
        let Turn {
            pass,
            turnstile,
            object,
            witness,
        } = self;
        turnstile.append::<N>(&mut pass.seat);
        let shared = &turnstile.table.shared;
        let mut witness = witness.into_seat();
        let copy = shared.split_seat::<CopyPass>(&mut pass.seat);
        shared.join_seat::<JoinPasses>(&mut witness, copy);
        let witness = witness.into_badge();
        turnstile.hand_on(&mut pass.seat, Kept { object, witness });
    }

    /// Ends the turn with no entry. The object has to stand for the history that it stood for, and the pass has then
    /// seen that history. A few single steps on words, and no memory. One who sleeps in front of the gate wakes.
    pub fn leave(self)
        requires turn { IsTurn self }
        requires stands { O.stands (object_of self) (history (pass_of self)) }
        ensures pass { BelongsTo (turnstile_of self.entry) self.exit.0.now }
        ensures orderly { IsOrderly O.right self.exit.0.now }
        ensures history { history self.exit.0.now ≡ history (pass_of self.entry) }
        ensures places { places self.exit.0.now ≡ places (pass_of self.entry) }
        ensures shares { shares self.exit.0.now ≡ shares (pass_of self.entry) }
    {
        let Turn {
            pass,
            turnstile,
            object,
            witness,
        } = self;
        turnstile.hand_on(&mut pass.seat, Kept { object, witness });
    }
}
