// Parts of a content in a list.
ghost use Rattle.std.specs.Prelude.{◌≡◌, ◌<◌, ◌∷◌, [], length, IfOk, IfSome, IsTrue};
ghost use Rattle.std.specs.List.{flat_map, list_all};
ghost use Rattle.ifdb_row.specs.Content.{after};
ghost use Rattle.ifdb_row.specs.Writes.{are_fitting, are_rising};
ghost use Rattle.ifdb_store.specs.InPlace.{IsPut};

use crate::mark::Mark;
use crate::part::Part;
use crate::search::{Item, Placed};
use crate::share::Share;
use ifdb_row::{Edge, OutOfMemory, Write};
use ifdb_value::Shared;
use std::alloc::Global;
use std::cmp::Ordering;
use std::marker::Model;

/// A shared part, with the mark of its slot beside it, so that most of a search touches no part. Contracts see the part.
#[derive(Drop)]
pub(crate) struct Entry<T: Placed> {
    mark: Mark,
    part: Shared<T>,
}

impl<T: Placed> Model for Entry<T> {
    ghost use Rattle.std.specs.Prelude.{◌≡◌};
    ghost use Rattle.ifdb_store.specs.Marks.{mark_of};

    ghost Value = { T };

    ghost view = { λ e. e.part };

    ghost invariant = { λ e. e.mark ≡ mark_of (T.place e.part) };
}

impl<T: Placed + Drop> Entry<T> {
    /// Takes a part into shared ownership.
    pub(crate) fn new(alloc: Global, part: T) -> Result<Entry<T>, OutOfMemory>
        ensures { IfOk result (λ entry. entry ≡ part) }
    {
        let mark = Mark::of_slot(part.slot());
        Ok(Entry {
            mark,
            part: Shared::new(alloc, part)?,
        })
    }
}

impl<T: Placed> Entry<T> {
    /// The part.
    pub(crate) fn get(&self) -> &T
        ensures { result.now ≡ self.now }
    {
        self.part.get()
    }
}

impl<P: Part> Entry<P> {
    /// Puts writes into its rows: in place, if nobody else holds the part and it takes them as it lies, or else by a copy of
    /// the part in its stead.
    pub(crate) fn put(&mut self, alloc: Global, writes: &[Write]) -> bool
        requires part { IsTrue (P.is_part self.old) }
        requires fitting { IsTrue (are_fitting writes.now) }
        requires rising { IsTrue (are_rising writes.now) }
        ensures rows { IsPut (P.rows self.old) (P.rows self.new) writes.now result }
        ensures part { IsTrue (P.is_part self.new) }
        ensures full { P.is_full self.new ≡ P.is_full self.old }
    {
        self.put_in_place(alloc, writes) || self.put_copied(alloc, writes)
    }

    /// Puts writes into its rows in place, if nobody else holds the part and it takes them as it lies.
    fn put_in_place(&mut self, alloc: Global, writes: &[Write]) -> bool
        requires part { IsTrue (P.is_part self.old) }
        requires fitting { IsTrue (are_fitting writes.now) }
        requires rising { IsTrue (are_rising writes.now) }
        ensures rows { IsPut (P.rows self.old) (P.rows self.new) writes.now result }
        ensures part { IsTrue (P.is_part self.new) }
        ensures full { P.is_full self.new ≡ P.is_full self.old }
    {
        match self.part.get_mut() {
            Some(part) => part.put(alloc, writes),
            None => false,
        }
    }

    /// Takes the part that holds the rows after writes in place of the part, if `copied` gives it.
    fn put_copied(&mut self, alloc: Global, writes: &[Write]) -> bool
        requires part { IsTrue (P.is_part self.old) }
        requires fitting { IsTrue (are_fitting writes.now) }
        requires rising { IsTrue (are_rising writes.now) }
        ensures rows { IsPut (P.rows self.old) (P.rows self.new) writes.now result }
        ensures part { IsTrue (P.is_part self.new) }
        ensures full { P.is_full self.new ≡ P.is_full self.old }
    {
        match self.copied(alloc, writes) {
            Some(entry) => {
                *self = entry;
                true
            }
            None => false,
        }
    }

    /// The part that holds the rows after writes; `None` where they are not one part, as full as this one and in the same slot, and
    /// where memory is refused.
    fn copied(&self, alloc: Global, writes: &[Write]) -> Option<Entry<P>>
        requires part { IsTrue (P.is_part self.now) }
        requires fitting { IsTrue (are_fitting writes.now) }
        requires rising { IsTrue (are_rising writes.now) }
        ensures rows { IfSome result (λ entry. P.rows entry ≡ after (P.rows self.now) writes.now) }
        ensures part { IfSome result (λ entry. IsTrue (P.is_part entry)) }
        ensures full { IfSome result (λ entry. P.is_full entry ≡ P.is_full self.now) }
        ensures place { IfSome result (λ entry. P.place entry ≡ P.place self.now) }
    {
        let entry = only(self.all_after(alloc, writes))?;
        let is_full = entry.get().is_full() == self.get().is_full();
        if is_full && entry.get().slot().is_same(self.get().slot()) {
            Some(entry)
        } else {
            None
        }
    }

    /// The parts that hold the rows after writes; none, where memory is refused.
    fn all_after(&self, alloc: Global, writes: &[Write]) -> Vec<Entry<P>>
        requires part { IsTrue (P.is_part self.now) }
        requires fitting { IsTrue (are_fitting writes.now) }
        requires rising { IsTrue (are_rising writes.now) }
        ensures rows { 0 < length result.items
            → flat_map P.rows result.items ≡ after (P.rows self.now) writes.now }
        ensures part { IsTrue (list_all P.is_part result.items) }
    {
        let mut all = Vec::new(alloc);
        match self.get().after(alloc, writes, &mut all) {
            Ok(()) => all,
            Err(OutOfMemory) => Vec::new(alloc),
        }
    }
}

impl<T: Placed + Drop> Share for Entry<T> {
    fn shared(&self) -> Result<Entry<T>, OutOfMemory> {
        Ok(Entry {
            mark: self.mark,
            part: self.part.share()?,
        })
    }
}

impl<T: Placed + Drop> Item for Entry<T> {
    ghost spot = { T.place };

    #[tactic(auto, using(crate::proofs::Marks::told_less, crate::proofs::Marks::told_greater))]
    fn is_before(&self, edge: &Edge<'_>, mark: &Mark) -> bool {
        match self.mark.tell(mark) {
            Ordering::Less => true,
            Ordering::Equal => edge.is_behind(self.part.get().slot()),
            Ordering::Greater => false,
        }
    }
}

/// The item of a list of one.
fn only<T: Drop>(mut items: Vec<T>) -> Option<T>
    ensures { IfSome result (λ item. items.items ≡ item ∷ []) }
{
    if items.len() == 1 { items.pop() } else { None }
}
