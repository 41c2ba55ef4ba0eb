// What a SELECT gives.
ghost use Rattle.ifdb_syntax.specs.Words.{COMMA, SUM, MIN, MAX};
ghost use Rattle.ifdb_parse.specs.theory.Gives.{IsNoLonger, IsRead, IsShorter};
ghost use Rattle.ifdb_parse.specs.rules.Shared.{parens, next_member};
ghost use Rattle.ifdb_parse.specs.rules.Expressions.{column_ref as column_ref_parser};
ghost use Rattle.ifdb_parse.specs.rules.Queries as spec;

use crate::expressions::{column_ref, expr};
use crate::list::{Member, commas};
use crate::shared::{Read, name, token};
use crate::stop::Stop;
use ifdb_syntax::{ColumnRef, Item, Items, Lexeme};
use ifdb_value::{Name, Sequence};
use std::alloc::Global;

/// `[AS name]`.
#[tactic(auto, unfolding(crate::specs::rules::Queries::named_as, crate::specs::rules::Shared::token))]
fn named_as(alloc: Global, lexemes: &[Lexeme]) -> Read<'_, Option<Name>>
    ensures value { IsRead result (spec.named_as lexemes.now) }
    ensures no_longer { IsNoLonger result lexemes.now }
{
    match lexemes {
        [Lexeme::As, rest @ ..] => {
            let (name, rest) = name(alloc, rest)?;
            Ok((Some(name), rest))
        }
        _ => Ok((None, lexemes)),
    }
}

/// `named = expr [AS name]`.
#[tactic(auto, unfolding(crate::specs::rules::Queries::named))]
fn named(alloc: Global, lexemes: &[Lexeme]) -> Read<'_, Item>
    ensures value { IsRead result (spec.named lexemes.now) }
    ensures shorter { IsShorter result lexemes.now }
{
    let (expr, rest) = expr(alloc, lexemes)?;
    let (name, rest) = named_as(alloc, rest)?;
    Ok((Item::Expr { expr, name }, rest))
}

/// `LABEL OF name [AS name]`.
#[tactic(auto, unfolding(crate::specs::rules::Queries::label_of))]
fn label_of(alloc: Global, lexemes: &[Lexeme]) -> Read<'_, Item>
    ensures value { IsRead result (spec.label_of lexemes.now) }
    ensures shorter { IsShorter result lexemes.now }
{
    let rest = token(lexemes, Lexeme::Label)?;
    let rest = token(rest, Lexeme::Of)?;
    let (source, rest) = name(alloc, rest)?;
    let (name, rest) = named_as(alloc, rest)?;
    Ok((Item::LabelOf { source, name }, rest))
}

/// `COUNT ( * ) [AS name]`.
#[tactic(auto, unfolding(crate::specs::rules::Queries::count_all))]
fn count_all(alloc: Global, lexemes: &[Lexeme]) -> Read<'_, Item>
    ensures value { IsRead result (spec.count_all lexemes.now) }
    ensures shorter { IsShorter result lexemes.now }
{
    let rest = token(lexemes, Lexeme::Count)?;
    let rest = token(rest, Lexeme::Open)?;
    let rest = token(rest, Lexeme::Star)?;
    let rest = token(rest, Lexeme::Close)?;
    let (name, rest) = named_as(alloc, rest)?;
    Ok((Item::CountAll { name }, rest))
}

/// `( ref )`.
fn argument(alloc: Global, lexemes: &[Lexeme]) -> Read<'_, ColumnRef>
    ensures value { IsRead result (parens column_ref_parser lexemes.now) }
    ensures shorter { IsShorter result lexemes.now }
{
    let rest = token(lexemes, Lexeme::Open)?;
    let (column, rest) = column_ref(alloc, rest)?;
    let rest = token(rest, Lexeme::Close)?;
    Ok((column, rest))
}

/// `SUM ( ref ) [AS name]`.
#[tactic(auto, unfolding(crate::specs::rules::Queries::aggregate))]
fn sum(alloc: Global, lexemes: &[Lexeme]) -> Read<'_, Item>
    ensures value { IsRead result (spec.aggregate SUM Item.Sum lexemes.now) }
    ensures shorter { IsShorter result lexemes.now }
{
    let rest = token(lexemes, Lexeme::Sum)?;
    let (column, rest) = argument(alloc, rest)?;
    let (name, rest) = named_as(alloc, rest)?;
    Ok((Item::Sum { column, name }, rest))
}

/// `MIN ( ref ) [AS name]`.
#[tactic(auto, unfolding(crate::specs::rules::Queries::aggregate))]
fn min(alloc: Global, lexemes: &[Lexeme]) -> Read<'_, Item>
    ensures value { IsRead result (spec.aggregate MIN Item.Min lexemes.now) }
    ensures shorter { IsShorter result lexemes.now }
{
    let rest = token(lexemes, Lexeme::Min)?;
    let (column, rest) = argument(alloc, rest)?;
    let (name, rest) = named_as(alloc, rest)?;
    Ok((Item::Min { column, name }, rest))
}

/// `MAX ( ref ) [AS name]`.
#[tactic(auto, unfolding(crate::specs::rules::Queries::aggregate))]
fn max(alloc: Global, lexemes: &[Lexeme]) -> Read<'_, Item>
    ensures value { IsRead result (spec.aggregate MAX Item.Max lexemes.now) }
    ensures shorter { IsShorter result lexemes.now }
{
    let rest = token(lexemes, Lexeme::Max)?;
    let (column, rest) = argument(alloc, rest)?;
    let (name, rest) = named_as(alloc, rest)?;
    Ok((Item::Max { column, name }, rest))
}

/// `expr [AS name] | LABEL OF name [AS name] | COUNT ( * ) [AS name]`.
#[tactic(auto, unfolding(crate::specs::rules::Queries::plain_item))]
fn plain_item(alloc: Global, lexemes: &[Lexeme]) -> Read<'_, Item>
    ensures value { IsRead result (spec.plain_item lexemes.now) }
    ensures shorter { IsShorter result lexemes.now }
{
    match lexemes {
        [
            Lexeme::Name(_)
            | Lexeme::Number(_)
            | Lexeme::Minus
            | Lexeme::Quoted(_)
            | Lexeme::Null
            | Lexeme::Open,
            ..
        ] => { named(alloc, lexemes) }
        [Lexeme::Label, ..] => label_of(alloc, lexemes),
        _ => count_all(alloc, lexemes),
    }
}

/// `item = expr [AS name] | LABEL OF name [AS name] | COUNT ( * ) [AS name] | (SUM | MIN | MAX) ( ref ) [AS name]`.
#[tactic(auto, unfolding(crate::specs::rules::Queries::item))]
fn item(alloc: Global, lexemes: &[Lexeme]) -> Read<'_, Item>
    ensures value { IsRead result (spec.item lexemes.now) }
    ensures shorter { IsShorter result lexemes.now }
{
    match lexemes {
        [
            Lexeme::Name(_)
            | Lexeme::Number(_)
            | Lexeme::Minus
            | Lexeme::Quoted(_)
            | Lexeme::Null
            | Lexeme::Open
            | Lexeme::Label
            | Lexeme::Count,
            ..
        ] => { plain_item(alloc, lexemes) }
        [Lexeme::Sum, ..] => sum(alloc, lexemes),
        [Lexeme::Min, ..] => min(alloc, lexemes),
        _ => max(alloc, lexemes),
    }
}

impl Member for Item {
    ghost use Rattle.ifdb_parse.specs.rules.Queries.{item as item_parser};

    ghost parser = { item_parser };

    #[tactic(auto, using(crate::proofs::rules::Members::item_takes))]
    fn read(alloc: Global, lexemes: &[Lexeme]) -> Read<'_, Item> {
        item(alloc, lexemes)
    }
}

/// `*`.
#[tactic(auto, unfolding(crate::specs::rules::Queries::all))]
fn all(alloc: Global, lexemes: &[Lexeme]) -> Read<'_, Items>
    ensures { IsRead result (spec.all lexemes.now) }
{
    let rest = token(lexemes, Lexeme::Star)?;
    let mut items = Sequence::new(alloc);
    items.push(Item::All)?;
    Ok((items, rest))
}

/// `list = * | item {, item}`.
#[tactic(auto, unfolding(crate::specs::rules::Queries::list))]
pub(crate) fn list(alloc: Global, lexemes: &[Lexeme]) -> Read<'_, Items>
    ensures { IsRead result (spec.list lexemes.now) }
{
    match lexemes {
        [Lexeme::Star, ..] => all(alloc, lexemes),
        _ => commas(alloc, lexemes),
    }
}

/// `, named`, of which the item goes to the end of the list.
#[tactic(auto, unfolding(crate::specs::rules::Shared::token))]
fn next_named(alloc: Global, mut items: Items, lexemes: &[Lexeme]) -> Read<'_, Items>
    ensures value { IsRead result (next_member COMMA spec.named items lexemes.now) }
    ensures shorter { IsShorter result lexemes.now }
{
    match lexemes {
        [Lexeme::Comma, rest @ ..] => {
            let (item, rest) = named(alloc, rest)?;
            items.push(item)?;
            Ok((items, rest))
        }
        _ => Err(Stop::Left(lexemes.len())),
    }
}

/// `named {, named}`.
#[tactic(auto, using(crate::proofs::rules::Members::nameds_are, crate::proofs::rules::Members::nameds_go), unfolding(crate::specs::rules::Queries::nameds))]
fn nameds(alloc: Global, lexemes: &[Lexeme]) -> Read<'_, Items>
    ensures { IsRead result (spec.nameds lexemes.now) }
{
    let (first, mut rest) = named(alloc, lexemes)?;
    let mut items = Sequence::new(alloc);
    items.push(first)?;
    'nameds: while let [Lexeme::Comma, ..] = rest {
        let (more, after) = next_named(alloc, items, rest)?;
        items = more;
        rest = after;
    }
    Ok((items, rest))
}

/// `* | named {, named}`.
#[tactic(auto, unfolding(crate::specs::rules::Queries::plain_list))]
pub(crate) fn plain_list(alloc: Global, lexemes: &[Lexeme]) -> Read<'_, Items>
    ensures { IsRead result (spec.plain_list lexemes.now) }
{
    match lexemes {
        [Lexeme::Star, ..] => all(alloc, lexemes),
        _ => nameds(alloc, lexemes),
    }
}
