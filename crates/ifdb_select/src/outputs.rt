// The output names of a SELECT, and what ORDER BY sorts by.
ghost use Rattle.std.specs.Prelude.{◌≡◌, ◌++◌, ◌+◌, ◌-◌, ◌^◌, ◌<◌, ◌&&◌, nat_le, if◌then◌else◌, Some, None, true, map, flat_map, length, option_copied, IfOk, OnOk};
ghost use Rattle.std.specs.List.{list_all, list_any};
ghost use Rattle.ifdb_catalog.specs.Queries.{all_names, bound_order, is_known_order, is_output, name_or, order_place, output_names, outputs_named};
ghost use Rattle.ifdb_catalog.specs.Scope.{the_one};
ghost use Rattle.ifdb_catalog.specs.Terms.{ref_of};
ghost use Rattle.ifdb_select.specs.Lacks.{RefusedUnless};

use crate::OutOfMemory;
use crate::named::Named;
use crate::scope::ScopeSource;
use ifdb_bound::{OrderKey, OrderKeys};
use ifdb_syntax::{Expr, Item, Order, OrderBy};
use ifdb_value::{Name, Sequence};
use ifdb_wire::Fault;
use std::alloc::Global;
use std::marker::Model;

/// The output name of an item, if it has one.
#[derive(Drop)]
pub struct OutputName<'a> {
    name: Option<&'a Name>,
}

impl<'a> Model for OutputName<'a> {
    ghost use Rattle.std.specs.Prelude.{ℕ, List, Option, option_copied};

    ghost Value = { Option (List ℕ) };

    ghost view = { λ o. option_copied o.name };
}

impl<'a> OutputName<'a> {
    /// The name that stands here.
    fn of(name: Option<&'a Name>) -> Self
        ensures { result ≡ option_copied name.entry }
    {
        OutputName { name }
    }

    /// The name.
    pub fn name(&self) -> Option<&'a Name>
        ensures { option_copied result ≡ self.now }
    {
        self.name
    }

    /// Whether it is this one.
    fn is(&self, name: &Name) -> bool
        ensures { result ≡ is_output name.now self.now }
    {
        match self.name {
            Some(own) => *own == *name,
            None => false,
        }
    }
}

/// The output names of what items give, in order.
pub fn output_names<'a>(
    alloc: Global,
    scope: &'a [ScopeSource<'a>],
    items: &'a [Item],
) -> Result<Sequence<OutputName<'a>>, OutOfMemory>
    ensures { IfOk result (λ names. names ≡ flat_map (output_names scope.now) items.now) }
{
    let mut names = Sequence::new(alloc);
    for item in items {
        add_output(&mut names, scope, item)?;
    }
    Ok(names)
}

/// Adds the output names of what an item gives: its own, else that of the column that it is, else none.
fn add_output<'a>(
    names: &mut Sequence<OutputName<'a>>,
    scope: &'a [ScopeSource<'a>],
    item: &'a Item,
) -> Result<(), OutOfMemory>
    ensures { OnOk result (names.new ≡ names.old ++ output_names scope.now item.now) }
{
    match item {
        Item::All => add_all(names, scope),
        Item::Expr { expr, name } => names.push(OutputName::of(name_or(name, expr))),
        Item::LabelOf { name, .. } => names.push(OutputName::of(name.as_ref())),
        Item::CountAll { name } => names.push(OutputName::of(name.as_ref())),
        Item::Sum { name, .. } => names.push(OutputName::of(name.as_ref())),
        Item::Min { name, .. } => names.push(OutputName::of(name.as_ref())),
        Item::Max { name, .. } => names.push(OutputName::of(name.as_ref())),
    }
}

/// Adds the names of all columns of all sources, in order.
fn add_all<'a>(
    names: &mut Sequence<OutputName<'a>>,
    scope: &'a [ScopeSource<'a>],
) -> Result<(), OutOfMemory>
    ensures { OnOk result (names.new ≡ names.old ++ map Some (all_names scope.now)) }
{
    for source in scope {
        source.add_names(names)?;
    }
    Ok(())
}

/// Adds the names of things, in order.
pub(crate) fn add_named<'a, T: Named>(
    names: &mut Sequence<OutputName<'a>>,
    things: &'a [T],
) -> Result<(), OutOfMemory>
    ensures { OnOk result (names.new ≡ names.old ++ map Some (map T.called things.now)) }
{
    for thing in things {
        names.push(OutputName::of(Some(thing.name())))?;
    }
    Ok(())
}

/// The name that is written, or else that of the column that an expression is.
#[tactic(auto, using(ifdb_catalog::proofs::Forms::ref_forms))]
fn name_or<'a>(name: &'a Option<Name>, expr: &'a Expr) -> Option<&'a Name>
    ensures { option_copied result ≡ name_or name.now (ref_of expr.now) }
{
    match (name, expr) {
        (Some(name), _) => Some(name),
        (None, Expr::Column(column)) => Some(&column.column),
        (None, Expr::Literal(_) | Expr::Add(_, _) | Expr::Sub(_, _) | Expr::Mul(_, _)) => None,
    }
}

// ---- ORDER BY

/// The keys of ORDER BY with the places of their items.
pub(crate) fn bound_orders(
    alloc: Global,
    names: &[OutputName<'_>],
    orders: &[Order],
) -> Result<OrderKeys, Fault>
    ensures known { IfOk result (λ _. list_all (is_known_order names.now) orders.now ≡ true) }
    ensures keys { IfOk result (λ keys. keys ≡ map (bound_order names.now) orders.now) }
    ensures lacks { RefusedUnless (list_all (is_known_order names.now) orders.now) result }
{
    let mut keys = OrderKeys::new(alloc);
    for order in orders {
        let Some(place) = order_place(names, &order.target) else {
            return Err(Fault::UnknownName);
        };
        keys.push(OrderKey {
            place,
            descending: order.descending,
        })?;
    }
    Ok(keys)
}

/// The place of what ORDER BY sorts by: the one item of the name, or the item of the number, counted from 1.
fn order_place(names: &[OutputName<'_>], target: &OrderBy) -> Option<usize>
    ensures { result ≡ order_place names.now target.now }
{
    match target {
        OrderBy::Name(name) => only_named(names, name, 0),
        OrderBy::Place(number) => place_of_number(*number, names.len()),
    }
}

/// The place of the item of a number, counted from 1, of so many.
fn place_of_number(number: u64, many: usize) -> Option<usize>
    ensures { result ≡ (if nat_le 1 number && nat_le number many then Some (number - 1) else None) }
{
    if 1 <= number && number <= many as u64 {
        Some((number - 1) as usize)
    } else {
        None
    }
}

/// The place of the one item of a name, of those from a place on; `None` where there is none, or more than one.
#[tactic(auto, using(crate::proofs::OutputNames::first_named))]
fn only_named(names: &[OutputName<'_>], name: &Name, place: usize) -> Option<usize>
    requires { place + length names.now < 2 ^ 64 }
    ensures { result ≡ the_one (outputs_named name.now place names.now) }
{
    match names {
        [] => None,
        [first, rest @ ..] => {
            if first.is(name) {
                unless(has_name(rest, name), place)
            } else {
                only_named(rest, name, place + 1)
            }
        }
    }
}

/// The place, unless there are more.
fn unless(more: bool, place: usize) -> Option<usize>
    ensures { result ≡ (if more then None else Some place) }
{
    if more { None } else { Some(place) }
}

/// Whether an output name is this one.
fn has_name(names: &[OutputName<'_>], name: &Name) -> bool
    ensures { result ≡ list_any (is_output name.now) names.now }
{
    names.iter().any(|own| own.is(name))
}
