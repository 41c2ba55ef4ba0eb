// What a statement's columns may name: its sources, each with its alias and its columns.
ghost use Rattle.std.specs.Prelude.{◌≡◌, ◌+◌, ◌^◌, ◌<◌, ◌++◌, Some, OnOk, bytes_eq, map, length, slice_get};
ghost use Rattle.std.specs.Option.{ok_or};
ghost use Rattle.ifdb_value.specs.declared.column.Column.{Column};
ghost use Rattle.ifdb_wire.specs.declared.fault.Fault.TheVariants.{UnknownName};
ghost use Rattle.ifdb_catalog.specs.Scope.{columns_of, kinds_of, may_be_of, meant_from, places_named, resolve};
ghost use Rattle.ifdb_catalog.specs.Statements.{place_named};
ghost use Rattle.ifdb_select.specs.Meaning.{meaning};

use crate::OutOfMemory;
use crate::meaning::{Meaning, meaning_from};
use crate::named::place_named;
use crate::outputs::{OutputName, add_named};
use ifdb_bound::BoundColumn;
use ifdb_syntax::ColumnRef;
use ifdb_value::{Column, Name, Sequence, ValueKind};
use ifdb_wire::Fault;
use std::marker::Model;

/// The columns of a source.
#[derive(Drop)]
pub(crate) enum Listed<'a> {
    /// Those of a table.
    Table(&'a [Column]),
    /// Those of a view: their names, and as many kinds.
    View(&'a [Name], Sequence<ValueKind>),
}

/// A source of a statement: how it is spoken of, and its columns.
#[derive(Drop)]
pub struct ScopeSource<'a> {
    alias: &'a Name,
    columns: Listed<'a>,
}

impl<'a> Model for ScopeSource<'a> {
    ghost use Rattle.ifdb_catalog.specs.Scope.{ScopeSource};
    ghost use Rattle.ifdb_select.specs.Sources.{are_even, listed};

    ghost Value = { ScopeSource };

    ghost view = { λ s. record { alias = s.alias.now; columns = listed s.columns } };

    ghost invariant = { λ s. are_even s.columns };
}

impl<'a> ScopeSource<'a> {
    /// A table.
    pub(crate) fn table(alias: &'a Name, columns: &'a [Column]) -> Self
        ensures { result ≡ record { alias = alias.now; columns = columns.now } }
    {
        ScopeSource {
            alias,
            columns: Listed::Table(columns),
        }
    }

    /// A view, of as many kinds as names.
    pub(crate) fn view(alias: &'a Name, names: &'a [Name], kinds: Sequence<ValueKind>) -> Self
        requires { length names.now ≡ length kinds }
        ensures { result ≡ record { alias = alias.now; columns = columns_of names.now kinds } }
    {
        ScopeSource {
            alias,
            columns: Listed::View(names, kinds),
        }
    }

    /// How many columns there are.
    pub(crate) fn width(&self) -> usize
        ensures { result ≡ length self.now.columns }
    {
        match &self.columns {
            Listed::Table(columns) => columns.len(),
            Listed::View(names, _) => names.len(),
        }
    }

    /// The kind of the column at a place, or `None` where there is none.
    pub fn kind(&self, place: usize) -> Option<ValueKind>
        ensures { result ≡ slice_get (kinds_of self.now.columns) place }
    {
        match &self.columns {
            Listed::Table(columns) => kind_at(columns, place),
            Listed::View(_, kinds) => kind_in(kinds.items(), place),
        }
    }

    /// The place of the column of a name, or `None` where there is none.
    pub fn place(&self, name: &Name) -> Option<usize>
        ensures { result ≡ place_named self.now.columns name.now }
    {
        match &self.columns {
            Listed::Table(columns) => place_named(columns, name),
            Listed::View(names, _) => place_named(names, name),
        }
    }

    /// Adds the names of the columns, in order, to output names.
    pub(crate) fn add_names(&self, names: &mut Sequence<OutputName<'a>>) -> Result<(), OutOfMemory>
        ensures { OnOk result
            (names.new ≡ names.old ++ map Some (map (λ (c : Column). c.name) self.now.columns)) }
    {
        match &self.columns {
            Listed::Table(columns) => add_named(names, columns),
            Listed::View(view_names, _) => add_named(names, view_names),
        }
    }

    /// What a name may mean among the columns, where this is the source at a place behind FROM.
    fn meaning(&self, source: usize, name: &Name) -> Meaning
        ensures { result ≡ meaning (places_named name.now source 0 self.now.columns) }
    {
        let first = BoundColumn { source, column: 0 };
        match &self.columns {
            Listed::Table(columns) => meaning_from(columns, name, first),
            Listed::View(names, _) => meaning_from(names, name, first),
        }
    }

    /// Whether the source has this alias.
    pub(crate) fn is_called(&self, alias: &Name) -> bool
        ensures { result ≡ bytes_eq self.now.alias alias.now }
    {
        *self.alias == *alias
    }

    /// Whether a column may be of this source, by the alias that stands before it.
    fn is_spoken_of(&self, alias: &Option<Name>) -> bool
        ensures { result ≡ may_be_of alias.now self.now }
    {
        match alias {
            None => true,
            Some(alias) => self.is_called(alias),
        }
    }
}

/// The kind of the column at a place, or `None` where there is none.
pub fn kind_at(columns: &[Column], place: usize) -> Option<ValueKind>
    ensures { result ≡ slice_get (kinds_of columns.now) place }
{
    match columns.get(place) {
        Some(column) => Some(column.kind),
        None => None,
    }
}

/// The kind at a place, or `None` where there is none.
fn kind_in(kinds: &[ValueKind], place: usize) -> Option<ValueKind>
    ensures { result ≡ slice_get kinds.now place }
{
    kinds.get(place).copied()
}

/// The one column that a reference means.
///
/// `UnknownName` exactly where it may mean none, or more than one.
#[tactic(auto, using(crate::proofs::Meanings::only_the_one))]
pub(crate) fn resolve(scope: &[ScopeSource<'_>], column: &ColumnRef) -> Result<BoundColumn, Fault>
    ensures { result ≡ ok_or (resolve scope.now column.now) UnknownName }
{
    meant_from(scope, 0, column)
        .only()
        .ok_or(Fault::UnknownName)
}

/// What a reference may mean among sources, the first of which is at a place behind FROM.
#[tactic(auto, using(crate::proofs::Meanings::meaning_append))]
fn meant_from(scope: &[ScopeSource<'_>], source: usize, column: &ColumnRef) -> Meaning
    requires { source + length scope.now < 2 ^ 64 }
    ensures { result ≡ meaning (meant_from column.now source scope.now) }
{
    match scope {
        [] => Meaning::Nothing,
        [first, rest @ ..] => {
            let behind = meant_from(rest, source + 1, column);
            if first.is_spoken_of(&column.source) {
                first.meaning(source, &column.column).with(behind)
            } else {
                behind
            }
        }
    }
}
