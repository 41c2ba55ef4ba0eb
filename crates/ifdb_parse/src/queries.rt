// SELECT, and the SELECT of a view.
ghost use Rattle.ifdb_parse.specs.theory.Gives.{IsNoLonger, IsRead, IsShorter};
ghost use Rattle.ifdb_parse.specs.rules.Queries as spec;

use crate::conditions::condition;
use crate::items::{list, plain_list};
use crate::list::{Member, commas};
use crate::shared::{Read, name, token};
use crate::stop::Stop;
use ifdb_syntax::{ColumnRefs, Items, Lexeme, Order, OrderBy, Orders, Select, Source, Sources};
use ifdb_value::{Name, Sequence};
use std::alloc::Global;

/// `[AS] name`.
#[tactic(auto, unfolding(crate::specs::rules::Queries::alias, crate::specs::rules::Shared::token))]
fn alias(alloc: Global, lexemes: &[Lexeme]) -> Read<'_, Name>
    ensures value { IsRead result (spec.alias lexemes.now) }
    ensures shorter { IsShorter result lexemes.now }
{
    match lexemes {
        [Lexeme::As, rest @ ..] => name(alloc, rest),
        _ => name(alloc, lexemes),
    }
}

/// `source = name [[AS] name]`.
#[tactic(auto, unfolding(crate::specs::rules::Queries::source))]
fn source(alloc: Global, lexemes: &[Lexeme]) -> Read<'_, Source>
    ensures value { IsRead result (spec.source lexemes.now) }
    ensures shorter { IsShorter result lexemes.now }
{
    let (name, rest) = name(alloc, lexemes)?;
    match rest {
        [Lexeme::As | Lexeme::Name(_), ..] => {
            let (alias, rest) = alias(alloc, rest)?;
            Ok((Source { name, alias }, rest))
        }
        _ => {
            let alias = name.share()?;
            Ok((Source { name, alias }, rest))
        }
    }
}

impl Member for Source {
    ghost use Rattle.ifdb_parse.specs.rules.Queries.{source as source_parser};

    ghost parser = { source_parser };

    #[tactic(auto, using(crate::proofs::rules::Members::source_takes))]
    fn read(alloc: Global, lexemes: &[Lexeme]) -> Read<'_, Source> {
        source(alloc, lexemes)
    }
}

/// `name | number`.
#[tactic(auto, unfolding(crate::specs::rules::Queries::order_by, crate::specs::rules::Shared::name, crate::specs::rules::Shared::number))]
fn order_by(alloc: Global, lexemes: &[Lexeme]) -> Read<'_, OrderBy>
    ensures value { IsRead result (spec.order_by lexemes.now) }
    ensures shorter { IsShorter result lexemes.now }
{
    match lexemes {
        [Lexeme::Name(name), rest @ ..] => Ok((OrderBy::Name(name.share()?), rest)),
        [Lexeme::Number(place), rest @ ..] => Ok((OrderBy::Place(*place), rest)),
        _ => Err(Stop::Left(lexemes.len())),
    }
}

/// `[ASC | DESC]`: whether DESC is written.
#[tactic(auto, unfolding(crate::specs::rules::Queries::descends, crate::specs::rules::Shared::token))]
fn descends(lexemes: &[Lexeme]) -> Read<'_, bool>
    ensures value { IsRead result (spec.descends lexemes.now) }
    ensures no_longer { IsNoLonger result lexemes.now }
{
    match lexemes {
        [Lexeme::Asc, rest @ ..] => Ok((false, rest)),
        [Lexeme::Desc, rest @ ..] => Ok((true, rest)),
        _ => Ok((false, lexemes)),
    }
}

/// `order = (name | number) [ASC | DESC]`.
#[tactic(auto, unfolding(crate::specs::rules::Queries::order))]
fn order(alloc: Global, lexemes: &[Lexeme]) -> Read<'_, Order>
    ensures value { IsRead result (spec.order lexemes.now) }
    ensures shorter { IsShorter result lexemes.now }
{
    let (target, rest) = order_by(alloc, lexemes)?;
    let (descending, rest) = descends(rest)?;
    Ok((Order { target, descending }, rest))
}

impl Member for Order {
    ghost use Rattle.ifdb_parse.specs.rules.Queries.{order as order_parser};

    ghost parser = { order_parser };

    #[tactic(auto, using(crate::proofs::rules::Members::order_takes))]
    fn read(alloc: Global, lexemes: &[Lexeme]) -> Read<'_, Order> {
        order(alloc, lexemes)
    }
}

/// `sources = source {, source}`.
#[tactic(auto, unfolding(crate::specs::rules::Queries::sources))]
fn sources(alloc: Global, lexemes: &[Lexeme]) -> Read<'_, Sources>
    ensures { IsRead result (spec.sources lexemes.now) }
{
    commas(alloc, lexemes)
}

/// `plain = SELECT (* | named {, named}) FROM sources [WHERE cond]`.
#[tactic(auto, unfolding(crate::specs::rules::Queries::plain))]
pub(crate) fn plain(alloc: Global, lexemes: &[Lexeme]) -> Read<'_, Select>
    ensures { IsRead result (spec.plain lexemes.now) }
{
    let rest = token(lexemes, Lexeme::Select)?;
    let (items, rest) = plain_list(alloc, rest)?;
    let rest = token(rest, Lexeme::From)?;
    let (sources, rest) = sources(alloc, rest)?;
    let (cond, rest) = condition(alloc, rest)?;
    Ok((
        Select {
            items,
            sources,
            cond,
            group: Sequence::new(alloc),
            order: Sequence::new(alloc),
        },
        rest,
    ))
}

/// `BY columns`, with `columns = ref {, ref}`.
#[tactic(auto, unfolding(crate::specs::rules::Queries::by_columns, crate::specs::rules::Queries::columns))]
fn by_columns(alloc: Global, lexemes: &[Lexeme]) -> Read<'_, ColumnRefs>
    ensures { IsRead result (spec.by_columns lexemes.now) }
{
    let rest = token(lexemes, Lexeme::By)?;
    commas(alloc, rest)
}

/// `[GROUP BY columns]`.
#[tactic(auto, unfolding(crate::specs::rules::Queries::grouped, crate::specs::rules::Shared::token))]
fn grouped(alloc: Global, lexemes: &[Lexeme]) -> Read<'_, ColumnRefs>
    ensures { IsRead result (spec.grouped lexemes.now) }
{
    match lexemes {
        [Lexeme::Group, rest @ ..] => by_columns(alloc, rest),
        _ => Ok((Sequence::new(alloc), lexemes)),
    }
}

/// `BY order {, order}`.
#[tactic(auto, unfolding(crate::specs::rules::Queries::by_orders))]
fn by_orders(alloc: Global, lexemes: &[Lexeme]) -> Read<'_, Orders>
    ensures { IsRead result (spec.by_orders lexemes.now) }
{
    let rest = token(lexemes, Lexeme::By)?;
    commas(alloc, rest)
}

/// `[ORDER BY order {, order}]`.
#[tactic(auto, unfolding(crate::specs::rules::Queries::ordered, crate::specs::rules::Shared::token))]
fn ordered(alloc: Global, lexemes: &[Lexeme]) -> Read<'_, Orders>
    ensures { IsRead result (spec.ordered lexemes.now) }
{
    match lexemes {
        [Lexeme::Order, rest @ ..] => by_orders(alloc, rest),
        _ => Ok((Sequence::new(alloc), lexemes)),
    }
}

/// `FROM sources [WHERE cond] [GROUP BY columns] [ORDER BY order {, order}]`, behind the items.
#[tactic(auto, unfolding(crate::specs::rules::Queries::select_from))]
fn select_from(alloc: Global, items: Items, lexemes: &[Lexeme]) -> Read<'_, Select>
    ensures { IsRead result (spec.select_from items lexemes.now) }
{
    let rest = token(lexemes, Lexeme::From)?;
    let (sources, rest) = sources(alloc, rest)?;
    let (cond, rest) = condition(alloc, rest)?;
    let (group, rest) = grouped(alloc, rest)?;
    let (order, rest) = ordered(alloc, rest)?;
    Ok((
        Select {
            items,
            sources,
            cond,
            group,
            order,
        },
        rest,
    ))
}

/// `SELECT list FROM sources [WHERE cond] [GROUP BY columns] [ORDER BY order {, order}]`.
#[tactic(auto, unfolding(crate::specs::rules::Queries::select))]
pub(crate) fn select(alloc: Global, lexemes: &[Lexeme]) -> Read<'_, Select>
    ensures { IsRead result (spec.select lexemes.now) }
{
    let rest = token(lexemes, Lexeme::Select)?;
    let (items, rest) = list(alloc, rest)?;
    select_from(alloc, items, rest)
}
