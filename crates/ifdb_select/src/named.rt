// Things that are called by a name, and lists of them.
ghost use Rattle.std.specs.Prelude.{◌≡◌, ◌≤◌, ℕ, List, map, position, bytes_eq, length};
ghost use Rattle.ifdb_catalog.specs.Queries.{are_distinct, times};

use ifdb_syntax::{Assignment, Source};
use ifdb_value::{Column, Name};

/// What is called by a name.
pub trait Named {
    ghost called: { Self → List ℕ };

    /// The name.
    fn name(&self) -> &Name
        ensures { result.now ≡ called self.now };
}

impl Named for Name {
    ghost called = { λ n. n };

    fn name(&self) -> &Name {
        self
    }
}

impl Named for Column {
    ghost called = { λ c. c.name };

    fn name(&self) -> &Name {
        &self.name
    }
}

/// A source is spoken of by its alias.
impl Named for Source {
    ghost called = { λ s. s.alias };

    fn name(&self) -> &Name {
        &self.alias
    }
}

/// An assignment is called by the column that it writes.
impl Named for Assignment {
    ghost called = { λ a. a.column };

    fn name(&self) -> &Name {
        &self.column
    }
}

/// The place of the first thing of a name.
pub fn place_named<T: Named>(things: &[T], name: &Name) -> Option<usize>
    ensures { result ≡ position (λ x. bytes_eq (T.called x) name.now) things.now }
{
    things.iter().position(|thing| *thing.name() == *name)
}

/// How many things there are of a name.
pub fn times<T: Named>(things: &[T], name: &Name) -> usize
    ensures count { result ≡ times name.now (map T.called things.now) }
    ensures most { result ≤ length things.now }
{
    match things {
        [] => 0,
        [first, rest @ ..] => {
            let behind = times(rest, name);
            if *first.name() == *name {
                behind + 1
            } else {
                behind
            }
        }
    }
}

/// Whether no two things have one name.
pub fn are_distinct<T: Named>(things: &[T]) -> bool
    ensures { result ≡ are_distinct (map T.called things.now) }
{
    match things {
        [] => true,
        [first, rest @ ..] => times(rest, first.name()) == 0 && are_distinct(rest),
    }
}
