// A list with several owners, which contracts see as the list of its items.
ghost use Rattle.std.specs.Prelude.{◌≡◌, [], IfOk};

use crate::sequence::Sequence;
use crate::shared::Shared;
use std::alloc::{AllocError, Global};
use std::marker::Model;

/// A list that several owners share, and that nobody changes. The empty list takes no memory. Contracts see the list of its
/// items.
#[derive(Drop)]
pub struct SharedList<T> {
    items: Option<Shared<Sequence<T>>>,
}

impl<T> Model for SharedList<T> {
    ghost use Rattle.std.specs.Prelude.{List};
    ghost use Rattle.std.specs.Coded.{coded_list};
    ghost use Rattle.ifdb_value.specs.Lists.{listed};

    ghost Value = { List T };

    ghost coded = { coded_list T.code };

    ghost view = { λ s. listed s.items };
}

impl<T> SharedList<T> {
    /// The empty list. Takes no memory.
    pub fn new() -> Self
        ensures { result ≡ [] }
    {
        SharedList { items: None }
    }

    /// The items, in order.
    pub fn items(&self) -> &[T]
        ensures { result.now ≡ self.now }
    {
        match &self.items {
            Some(items) => items.get().items(),
            None => &[],
        }
    }

    /// One more owner of the same list: one count rises, and no memory is taken. `AllocError` comes where the count is full.
    pub fn share(&self) -> Result<Self, AllocError>
        ensures { IfOk result (λ list. list ≡ self.now) }
    {
        match &self.items {
            Some(items) => Ok(SharedList {
                items: Some(items.share()?),
            }),
            None => Ok(SharedList { items: None }),
        }
    }
}

impl<T: Drop> SharedList<T> {
    /// Takes the items of a vector into shared ownership, with one owner. `AllocError` comes where the allocation is refused.
    pub fn from_vec(alloc: Global, items: Vec<T>) -> Result<Self, AllocError>
        ensures { IfOk result (λ list. list ≡ items.items) }
    {
        if items.is_empty() {
            return Ok(SharedList { items: None });
        }
        let items = Shared::new(alloc, Sequence::from_vec(items))?;
        Ok(SharedList { items: Some(items) })
    }
}
