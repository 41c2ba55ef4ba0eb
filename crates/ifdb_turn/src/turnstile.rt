//! The turnstile and its passes.
ghost use Rattle.std.specs.Prelude.{◌≡◌};

use crate::gate::Gate;
use crate::kinds::{
    Append, CopyPass, HandOn, JoinPasses, LoadCount, LookAtServing, MakeSeat, NamedEntry,
    SplitShare, TakeFirstTicket, TakeTicket,
};
use crate::object::Object;
use crate::turn::Turn;
use crate::view::{Kept, PassSeat, PassView, TurnRule};
use atomic_table::Table;
use std::alloc::Global;
use std::hint::spin_loop;
use std::sync::Wait;

// The word with the next ticket.
const TICKET: usize = 0;

// The word with the ticket whose turn it is.
const SERVING: usize = 1;

// The word with the length of the history.
const COUNT: usize = 2;

/// An object that threads take turns at, in the order of their tickets. Share it by `&`: each call takes the pass of
/// the thread that makes it. It has to be ended by `close`, as it can't be dropped.
pub struct Turnstile<O: Object> {
    pub(crate) table: Table<Option<Kept<O, O::Entry>>, PassView<O::Entry>, (), TurnRule<O>, Global>,
    pub(crate) gate: Gate,
    ghost sized: { (table.shared.table_id.words ≡ 3) × (table.shared.table_id.slots ≡ 1) },
}

/// What one thread knows of the history of a turnstile, its `history`: a beginning of it. Of its entries those at the
/// `places` are the pass's own. All passes of a turnstile have 2^32 `shares` together, each at least 1. A pass takes
/// no memory. One that is dropped takes its shares with it, and then no pass can close the turnstile.
#[derive(Drop)]
pub struct Pass<O: Object> {
    pub(crate) seat: PassSeat<O>,
}

/// There was no memory for the turnstile. The object comes back.
#[derive(Drop)]
pub struct NoTurnstile<O> {
    /// The object, as it was given.
    pub object: O,
}

impl<O: Object> Turnstile<O> {
    ghost use Rattle.std.specs.Prelude.{◌≡◌, ℕ, IfOk, IfErr, Some, None, ◌<◌, ◌≤◌, ◌+◌, ◌-◌, ◌^◌, [], ◌∷◌, length};
    ghost use mathlib.Core.List.{IsPrefix};
    ghost use Rattle.ifdb_turn.specs.declared.view.Stage.TheVariants.{Idle};
    ghost use Rattle.ifdb_turn.specs.Histories.{AllRight, longer};
    ghost use Rattle.ifdb_turn.specs.Places.{merge, times};
    ghost use Rattle.ifdb_turn.specs.Views.{all_shares};
    ghost use Rattle.ifdb_turn.specs.Rule.{Keeps};
    ghost use Rattle.ifdb_turn.specs.Kinds.{IsOrderlyView};
    ghost use Rattle.ifdb_turn.specs.Seats.{IsSameSeat, IsPassSeat, IsWaitingSeat, TakesTicket, BeginsTurn, KnowsAll, MayAppend, IsNext, HasAppended};
    ghost use Rattle.ifdb_turn.specs.Passes.{history, places, shares, BelongsTo, IsOrderly, OwnsAll, NoForeignRoots};
    ghost use Rattle.ifdb_turn.specs.Turns.{pass_of, object_of, IsAt, Borrows, IsTurn};

    /// A turnstile round the object, and the pass with all 2^32 shares, which has seen nothing. It takes the memory of
    /// one table, and the object comes back where there is none.
    pub fn new(alloc: Global, object: O) -> Result<(Turnstile<O>, Pass<O>), NoTurnstile<O>>
        requires stands_for_nothing { O.stands object [] }
        ensures pass { IfOk result (λ t. BelongsTo t.0 t.1) }
        ensures orderly { IfOk result (λ t. IsOrderly O.right t.1) }
        ensures history { IfOk result (λ t. history t.1 ≡ []) }
        ensures places { IfOk result (λ t. places t.1 ≡ []) }
        ensures shares { IfOk result (λ t. shares t.1 ≡ all_shares) }
        ensures refused { IfErr result (λ e. e.object ≡ object) }
    {
        let Ok((table, mut seat)) = Table::vacant(alloc, &[0, 0, 0], 1, &()) else {
            return Err(NoTurnstile { object });
        };
        let (_, witness) = table.shared.load_new_seat::<MakeSeat>(TICKET);
        let kept = Some(Kept {
            object,
            witness: witness.into_badge(),
        });
        table
            .shared
            .compare_exchange_with::<TakeFirstTicket>(&mut seat, TICKET, 0, 1, &kept);
        table.shared.load::<LookAtServing<O>>(&mut seat, SERVING);
        let Some(kept) = kept else { unreachable!() };
        let turnstile = Turnstile {
            table,
            gate: Gate::new(),
        };
        turnstile.hand_on(&mut seat, kept);
        Ok((turnstile, Pass { seat }))
    }

    /// A new pass for another thread, which has seen as much as this one, has no entries of its own, and gets one of
    /// this one's shares. One load of a word, and no memory.
    pub fn split(&self, pass: &mut Pass<O>) -> Pass<O>
        requires pass { BelongsTo self.now pass.old }
        requires two_shares { 1 < shares pass.old }
        ensures left { BelongsTo self.now pass.new }
        ensures left_history { history pass.new ≡ history pass.old }
        ensures left_places { places pass.new ≡ places pass.old }
        ensures left_shares { shares pass.new + 1 ≡ shares pass.old }
        ensures given { BelongsTo self.now result }
        ensures given_history { history result ≡ history pass.old }
        ensures given_places { places result ≡ [] }
        ensures given_share { shares result ≡ 1 }
    {
        let seat = self.table.shared.split_seat::<SplitShare>(&mut pass.seat);
        Pass { seat }
    }

    /// Takes another pass of this turnstile into `into`, which then has seen the longer of the two histories, and has
    /// the entries and the shares of both. Two loads of words, and no memory.
    pub fn join_pass(&self, into: &mut Pass<O>, from: Pass<O>)
        requires into { BelongsTo self.now into.old }
        requires from { BelongsTo self.now from }
        ensures pass { BelongsTo self.now into.new }
        ensures orderly { IsOrderly O.right into.new }
        ensures history { history into.new ≡ longer (history into.old) (history from) }
        ensures begins { IsPrefix (history into.old) (history into.new) }
        ensures from_begins { IsPrefix (history from) (history into.new) }
        ensures places { places into.new ≡ merge (places into.old) (places from) }
        ensures apart { (k : ℕ) → times k (places into.old) + times k (places from) ≤ 1 }
        ensures shares { shares into.new ≡ shares into.old + shares from }
    {
        let Pass { seat } = from;
        self.table
            .shared
            .join_seat::<JoinPasses>(&mut into.seat, seat);
        self.table
            .shared
            .load::<LoadCount<O>>(&mut into.seat, COUNT);
    }

    /// Ends the turnstile, and gives the object. The pass has to have all shares, so every other pass was joined into
    /// it, and every entry of the history is its own.
    pub fn close(self, pass: Pass<O>) -> O
        requires pass { BelongsTo self pass }
        requires all { shares pass ≡ all_shares }
        ensures stands { O.stands result (history pass) }
        ensures order { AllRight O.right (history pass) }
        ensures own { OwnsAll pass }
    {
        let Turnstile { table, gate: _ } = self;
        let Pass { seat } = pass;
        let mut closed = table.close_with(seat);
        let Some(kept) = closed.take(0) else {
            unreachable!()
        };
        closed.free();
        let Kept { object, witness: _ } = kept;
        object
    }

    /// Waits in front of the gate, and takes the next ticket, whose turn begins at once. The object then stands for the whole history, which begins with
    /// what the pass had seen and is in order, and no entry of others in it names an own place of the pass as its root.
    ///
    /// No promise says that the turn ever comes: it does not where a turn before it never ends, and whoever would have
    /// the last ticket, 2^64 - 1, waits for good. Whoever runs when the gate opens may pass it, so the order in which
    /// threads came counts for nothing. A thread that waits looks for some microseconds and then sleeps; the end of a turn
    /// wakes one that sleeps.
    pub fn enter<'a, R: Wait>(&'a self, rt: &R, pass: &'a mut Pass<O>) -> Turn<'a, O>
        requires pass { BelongsTo self.now pass.old }
        ensures turnstile { IsAt self.now result }
        ensures pass { Borrows pass.entry result }
        ensures turn { IsTurn result }
        ensures begins { IsPrefix (history pass.old) (history (pass_of result)) }
        ensures room { length (history (pass_of result)) < 2 ^ 64 - 1 }
        ensures stands { O.stands (object_of result) (history (pass_of result)) }
        ensures orderly { IsOrderly O.right (pass_of result) }
        ensures own { NoForeignRoots O.root pass.old (pass_of result) }
        ensures places { places (pass_of result) ≡ places pass.old }
        ensures shares { shares (pass_of result) ≡ shares pass.old }
    {
        self.gate.pass(rt);
        let ticket = self.take_ticket(rt, &mut pass.seat);
        self.await_turn(rt, &mut pass.seat, ticket);
        let kept = self.table.shared.exchange(&mut pass.seat, 0, None);
        let Some(kept) = kept else { unreachable!() };
        let Kept { object, witness } = kept;
        let mut witness = witness.into_seat();
        let copy = self.table.shared.split_seat::<CopyPass>(&mut witness);
        self.table
            .shared
            .join_seat::<JoinPasses>(&mut pass.seat, copy);
        self.table
            .shared
            .load::<LoadCount<O>>(&mut pass.seat, COUNT);
        Turn {
            pass,
            turnstile: self,
            object,
            witness: witness.into_badge(),
        }
    }

    // Appends the entry to the history, which the seat has seen whole.
    pub(crate) fn append<N: NamedEntry<O::Entry>>(&self, seat: &mut PassSeat<O>)
        requires turn { MayAppend self.now.table.shared.table_id seat.old }
        requires entry { (e : O.Entry) × (N.entry ≡ Some e) × IsNext O.right O.root seat.old e }
        ensures { HasAppended N.entry seat.old seat.new }
    {
        self.table.shared.fetch_add::<Append<N>>(seat, COUNT, 1);
    }

    // Puts the object back, gives the turn to the next ticket, and opens the gate for whoever takes it.
    pub(crate) fn hand_on(&self, seat: &mut PassSeat<O>, kept: Kept<O, O::Entry>)
        requires turn { KnowsAll self.now.table.shared.table_id seat.old }
        requires slot { seat.old.me.1 ≡ (0, None) ∷ [] }
        requires kept { Keeps O.stands seat.old.me.0.table seat.old.me.0.history kept }
        ensures seat { IsSameSeat seat.old seat.new
            × (seat.new.me ≡ (record seat.old.me.0 { stage = Idle }, [])) }
        ensures orderly { IsOrderlyView O.right seat.old.me.0 }
    {
        let shared = &self.table.shared;
        let old = shared.exchange(seat, 0, Some(kept));
        let None = old else { unreachable!() };
        shared.fetch_add::<HandOn<O>>(seat, SERVING, 1);
        self.gate.open();
    }

    // Ticket 2^64 - 1 is never given out: whoever would have it waits for good.
    fn take_ticket<R: Wait>(&self, rt: &R, seat: &mut PassSeat<O>) -> u64
        requires { IsPassSeat self.now.table.shared.table_id seat.old }
        ensures { TakesTicket result seat.old seat.new }
    {
        let mut ticket = self.table.shared.peek(TICKET);
        for _ in rt.forever() {
            if ticket == u64::MAX {
                self.table.shared.park(rt, TICKET, u32::MAX);
            } else {
                let found = self
                    .table
                    .shared
                    .compare_exchange::<TakeTicket>(seat, TICKET, ticket, ticket + 1);
                if found == ticket {
                    return ticket;
                }
                ticket = found;
            }
        }
        unreachable!()
    }

    // Waits until the ticket is served, as it is at once: the gate was passed before it was taken, and is opened once the
    // turn was handed on. The turn has then begun.
    fn await_turn<R: Wait>(&self, rt: &R, seat: &mut PassSeat<O>, ticket: u64)
        requires { IsWaitingSeat self.now.table.shared.table_id ticket seat.old }
        ensures { BeginsTurn O.stands O.right O.root ticket seat.old seat.new }
    {
        for _ in rt.forever() {
            let serving = self.table.shared.load::<LookAtServing<O>>(seat, SERVING);
            if serving == ticket {
                return;
            }
            spin_loop();
        }
        unreachable!()
    }
}
