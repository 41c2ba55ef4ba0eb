// Writes, each slot once.
ghost use Rattle.std.specs.Prelude.{◌≡◌, ◌≤◌, ◌+◌, ◌++◌, [], length, find, slice_get, IsTrue, OnErr, OnOk};
ghost use Rattle.std.specs.List.{list_any};
ghost use Rattle.std.specs.Option.{option_copied};
ghost use Rattle.ifdb_row.specs.ByReference.{slot_of};
ghost use Rattle.ifdb_row.specs.Slots.{is_same_slot, slot_lt};
ghost use Rattle.ifdb_row.specs.Writes.{are_fitting, are_rising, if_of, is_fitting, is_written, merged, put};
ghost use Rattle.ifdb_row.specs.Reach.{reach};
ghost use Rattle.ifdb_row.specs.Merging.{HasRoomFor, IsFirstTaken, fronts_cmp, merged_behind};

use crate::OutOfMemory;
use crate::slot::{Slot, SlotRef};
use crate::write::Write;
use std::alloc::Global;
use std::cmp::Ordering;
use std::collections::VecDeque;
use std::marker::Model;

/// Writes in the order of their slots, each slot once. Contracts see their list.
#[derive(Drop)]
pub struct Writes {
    items: Vec<Write>,
}

impl Model for Writes {
    ghost use Rattle.std.specs.Prelude.{List, IsTrue};
    ghost use Rattle.ifdb_row.specs.declared.write.Write.{Write};

    ghost Value = { List Write };

    ghost use Rattle.ifdb_row.specs.Writes.{are_rising, are_fitting};

    ghost view = { λ w. w.items.items };

    ghost invariant = { λ w. IsTrue (are_rising w.items.items) × IsTrue (are_fitting w.items.items) };
}

impl Writes {
    /// No writes. Takes no memory.
    pub fn new(alloc: Global) -> Self
        ensures { result ≡ [] }
    {
        Writes {
            items: Vec::new(alloc),
        }
    }

    /// The writes of a list that rises by slots, each slot once. Takes no memory.
    pub fn from_vec(items: Vec<Write>) -> Self
        requires rising { IsTrue (are_rising items.items) }
        requires fitting { IsTrue (are_fitting items.items) }
        ensures { result ≡ items.items }
    {
        Writes { items }
    }

    /// How many slots are written.
    pub fn len(&self) -> usize
        ensures { result ≡ length self.now }
    {
        self.items.len()
    }

    /// The write at a place, in the order of slots; `None` exactly from the length on.
    pub fn at(&self, place: usize) -> Option<&Write>
        ensures { option_copied result ≡ slice_get self.now place }
    {
        self.items.get(place)
    }

    /// The writes, in the order of their slots.
    pub fn items(&self) -> &[Write]
        ensures items { result.now ≡ self.now }
        ensures rising { IsTrue (are_rising result.now) }
        ensures fitting { IsTrue (are_fitting result.now) }
    {
        self.items.as_slice()
    }

    /// What is written to a slot, if it is written. Found by binary search.
    #[tactic(auto, using(crate::proofs::Children::write_found))]
    pub fn get(&self, slot: &Slot) -> Option<&Write>
        ensures { option_copied result ≡ find (λ w. is_same_slot slot.now w.slot) self.now }
    {
        let slot = slot.by_ref();
        let at = place_of(&self.items, slot);
        if_of(self.at(at), slot)
    }

    /// Whether a slot is written. Found by binary search.
    pub fn is_written(&self, slot: &Slot) -> bool
        ensures { result ≡ is_written self.now slot.now }
    {
        self.has(slot.by_ref())
    }

    /// Whether a slot by reference is written. Found by binary search.
    #[tactic(auto, using(crate::proofs::Children::written_there))]
    pub fn has(&self, slot: SlotRef<'_>) -> bool
        ensures { result ≡ is_written self.now (slot_of slot.entry) }
    {
        let at = place_of(&self.items, slot);
        is_at(&self.items, at, slot)
    }

    /// Adds a write in place of an earlier one of its slot. Where an allocation is refused, the writes are as before.
    ///
    /// Finds the place by binary search, and moves the writes behind it.
    #[tactic(auto, using(crate::proofs::Sorted::put_rises, crate::proofs::Sorted::put_fits))]
    pub fn put(&mut self, write: Write) -> Result<(), OutOfMemory>
        requires { IsTrue (is_fitting write.slot write.row) }
        ensures ok { OnOk result (self.new ≡ put write self.old) }
        ensures err { OnErr result (self.new ≡ self.old) }
    {
        put(&mut self.items, write)?;
        Ok(())
    }

    /// Adds later writes, which take the place of earlier ones of their slots. Where an allocation is refused, the writes are
    /// as before.
    ///
    /// One later write is put in by binary search. For several it takes room, and moves those that stand from the first
    /// later one on: none, where the later ones stand behind.
    #[tactic(auto, using(crate::proofs::Sorted::merged_rises, crate::proofs::Sorted::merged_fits))]
    pub fn merge(&mut self, later: Writes) -> Result<(), OutOfMemory>
        ensures ok { OnOk result (self.new ≡ merged self.old later) }
        ensures err { OnErr result (self.new ≡ self.old) }
    {
        let Writes { items: later } = later;
        if later.len() == 1 {
            put_only(&mut self.items, later)?;
            return Ok(());
        }
        let at = place_of_first(&self.items, &later);
        self.items.reserve(later.len())?;
        let own = self.items.split_off(at)?;
        put_merged(
            &mut self.items,
            VecDeque::from_vec(own),
            VecDeque::from_vec(later),
        );
        Ok(())
    }
}

/// Adds the only one of later writes. Where an allocation is refused, the writes are as before.
fn put_only(items: &mut Vec<Write>, mut later: Vec<Write>) -> Result<(), OutOfMemory>
    requires one { length later.items ≡ 1 }
    requires rising { IsTrue (are_rising items.old.items) }
    ensures ok { OnOk result (items.new.items ≡ merged items.old.items later.items) }
    ensures err { OnErr result (items.new.items ≡ items.old.items) }
{
    match later.pop() {
        Some(write) => put(items, write),
        None => Ok(()),
    }
}

/// How many writes stand before the first of later ones; all, if there is none.
fn place_of_first(items: &[Write], later: &[Write]) -> usize
    requires rising { IsTrue (are_rising items.now) }
    requires later_rising { IsTrue (are_rising later.now) }
    ensures cut { merged items.now later.now ≡ merged_behind result items.now later.now }
    ensures within { result ≤ length items.now }
{
    match later {
        [] => items.len(),
        [first, ..] => place_of(items, first.slot.by_ref()),
    }
}

/// Adds writes, and later ones that take the place of those of their slots. There is room for all.
fn put_merged(items: &mut Vec<Write>, mut own: VecDeque<Write>, mut later: VecDeque<Write>)
    requires rising { IsTrue (are_rising own.items) }
    requires later_rising { IsTrue (are_rising later.items) }
    requires room { HasRoomFor (length own.items + length later.items) items.old }
    ensures { items.new.items ≡ items.old.items ++ merged own.items later.items }
{
    while let Some(write) = take_first(&mut own, &mut later) {
        items.push_reserved(write);
    }
}

/// Takes the first of some writes and later ones; of two of one slot both, of which the later one is the answer.
fn take_first(own: &mut VecDeque<Write>, later: &mut VecDeque<Write>) -> Option<Write>
    requires rising { IsTrue (are_rising own.old.items) }
    requires later_rising { IsTrue (are_rising later.old.items) }
    ensures { IsFirstTaken own.old.items later.old.items result own.new.items later.new.items }
{
    match compare_fronts(own.front(), later.front()) {
        Ordering::Less => own.pop_front(),
        Ordering::Greater => later.pop_front(),
        Ordering::Equal => {
            let _ = own.pop_front();
            later.pop_front()
        }
    }
}

/// Which of two writes stands first; none stands last.
fn compare_fronts(own: Option<&Write>, later: Option<&Write>) -> Ordering
    ensures { result ≡ fronts_cmp (option_copied own.entry) (option_copied later.entry) }
{
    match own {
        None => match later {
            None => Ordering::Equal,
            Some(_) => Ordering::Greater,
        },
        Some(own) => match later {
            None => Ordering::Less,
            Some(later) => own.slot.compare(&later.slot),
        },
    }
}

/// Adds a write in place of an earlier one of its slot. Where an allocation is refused, the writes are as before.
fn put(items: &mut Vec<Write>, write: Write) -> Result<(), OutOfMemory>
    requires { IsTrue (are_rising items.old.items) }
    ensures ok { OnOk result (items.new.items ≡ put write items.old.items) }
    ensures err { OnErr result (items.new.items ≡ items.old.items) }
{
    let slot = write.slot.by_ref();
    let at = place_of(items, slot);
    if is_at(items, at, slot) {
        items[at] = write;
    } else {
        items.insert(at, write)?;
    }
    Ok(())
}

/// How many writes stand before a slot.
fn place_of(items: &[Write], slot: SlotRef<'_>) -> usize
    requires { IsTrue (are_rising items.now) }
    ensures place { result ≡ reach (λ w. slot_lt w.slot (slot_of slot.entry)) items.now }
    ensures within { result ≤ length items.now }
{
    items.partition_point(|other| other.slot.by_ref().is_before(slot))
}

/// Whether a write of the slot stands at its place.
fn is_at(items: &[Write], at: usize, slot: SlotRef<'_>) -> bool
    requires rising { IsTrue (are_rising items.now) }
    requires place { at ≡ reach (λ w. slot_lt w.slot (slot_of slot)) items.now }
    ensures { result ≡ list_any (λ w. is_same_slot (slot_of slot.entry) w.slot) items.now }
{
    match items.get(at) {
        Some(other) => slot.is_same(other.slot.by_ref()),
        None => false,
    }
}

/// The write, if it is of the slot.
fn if_of<'a>(write: Option<&'a Write>, slot: SlotRef<'_>) -> Option<&'a Write>
    ensures { option_copied result ≡ if_of (slot_of slot.entry) (option_copied write.entry) }
{
    match write {
        Some(write) if slot.is_same(write.slot.by_ref()) => Some(write),
        _ => None,
    }
}
