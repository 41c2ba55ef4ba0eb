// Statements: SELECT, INSERT, UPDATE and DELETE.
ghost use Rattle.ifdb_parse.specs.theory.Gives.{IsRead, IsShorter};
ghost use Rattle.ifdb_parse.specs.rules.Requests as spec;

use crate::conditions::condition;
use crate::expressions::expr;
use crate::list::{Member, commas};
use crate::names::{names_behind, names_in_parens};
use crate::queries::select;
use crate::shared::{Read, name, token};
use ifdb_syntax::{Assignment, Lexeme, Request};
use ifdb_value::{Name, Names, Sequence, ValueRow};
use std::alloc::Global;

/// A SELECT.
#[tactic(auto, unfolding(crate::specs::rules::Requests::query))]
pub(crate) fn query(alloc: Global, lexemes: &[Lexeme]) -> Read<'_, Request>
    ensures { IsRead result (spec.query lexemes.now) }
{
    let (select, rest) = select(alloc, lexemes)?;
    Ok((Request::Select(select), rest))
}

/// `row = ( literal {, literal} )`.
#[tactic(auto, unfolding(crate::specs::rules::Requests::row))]
fn row(alloc: Global, lexemes: &[Lexeme]) -> Read<'_, ValueRow>
    ensures value { IsRead result (spec.row lexemes.now) }
    ensures shorter { IsShorter result lexemes.now }
{
    let rest = token(lexemes, Lexeme::Open)?;
    let (row, rest) = commas(alloc, rest)?;
    let rest = token(rest, Lexeme::Close)?;
    Ok((row, rest))
}

impl Member for ValueRow {
    ghost use Rattle.ifdb_parse.specs.rules.Requests.{row as row_parser};

    ghost parser = { row_parser };

    #[tactic(auto, using(crate::proofs::rules::Members::row_takes))]
    fn read(alloc: Global, lexemes: &[Lexeme]) -> Read<'_, ValueRow> {
        row(alloc, lexemes)
    }
}

/// `[( names )]`.
#[tactic(auto, unfolding(crate::specs::rules::Requests::insert_columns))]
fn insert_columns(alloc: Global, lexemes: &[Lexeme]) -> Read<'_, Names>
    ensures { IsRead result (spec.insert_columns lexemes.now) }
{
    match lexemes {
        [Lexeme::Open, ..] => names_in_parens(alloc, lexemes),
        _ => Ok((Sequence::new(alloc), lexemes)),
    }
}

/// `VALUES row {, row} [DECLASSIFYING ( names )]`, behind the table and the columns.
#[tactic(auto, unfolding(crate::specs::rules::Requests::insert_rows))]
fn insert_rows(alloc: Global, table: Name, columns: Names, lexemes: &[Lexeme]) -> Read<'_, Request>
    ensures { IsRead result (spec.insert_rows table columns lexemes.now) }
{
    let rest = token(lexemes, Lexeme::Values)?;
    let (rows, rest) = commas(alloc, rest)?;
    let (tags, rest) = names_behind(alloc, rest, Lexeme::Declassifying)?;
    Ok((
        Request::Insert {
            table,
            columns,
            rows,
            tags,
        },
        rest,
    ))
}

/// `INSERT INTO name [( names )] VALUES row {, row} [DECLASSIFYING ( names )]`.
#[tactic(auto, unfolding(crate::specs::rules::Requests::insert))]
pub(crate) fn insert(alloc: Global, lexemes: &[Lexeme]) -> Read<'_, Request>
    ensures { IsRead result (spec.insert lexemes.now) }
{
    let rest = token(lexemes, Lexeme::Insert)?;
    let rest = token(rest, Lexeme::Into)?;
    let (table, rest) = name(alloc, rest)?;
    let (columns, rest) = insert_columns(alloc, rest)?;
    insert_rows(alloc, table, columns, rest)
}

/// `name = expr`.
#[tactic(auto, unfolding(crate::specs::rules::Requests::assignment))]
fn assignment(alloc: Global, lexemes: &[Lexeme]) -> Read<'_, Assignment>
    ensures value { IsRead result (spec.assignment lexemes.now) }
    ensures shorter { IsShorter result lexemes.now }
{
    let (column, rest) = name(alloc, lexemes)?;
    let rest = token(rest, Lexeme::Equal)?;
    let (expr, rest) = expr(alloc, rest)?;
    Ok((Assignment { column, expr }, rest))
}

impl Member for Assignment {
    ghost use Rattle.ifdb_parse.specs.rules.Requests.{assignment as assignment_parser};

    ghost parser = { assignment_parser };

    #[tactic(auto, using(crate::proofs::rules::Members::assignment_takes))]
    fn read(alloc: Global, lexemes: &[Lexeme]) -> Read<'_, Assignment> {
        assignment(alloc, lexemes)
    }
}

/// `name = expr {, name = expr} [WHERE cond] [DECLASSIFYING ( names )]`, behind SET.
#[tactic(auto, unfolding(crate::specs::rules::Requests::update_set))]
fn update_set(alloc: Global, table: Name, lexemes: &[Lexeme]) -> Read<'_, Request>
    ensures { IsRead result (spec.update_set table lexemes.now) }
{
    let (assignments, rest) = commas(alloc, lexemes)?;
    let (cond, rest) = condition(alloc, rest)?;
    let (tags, rest) = names_behind(alloc, rest, Lexeme::Declassifying)?;
    Ok((
        Request::Update {
            table,
            assignments,
            cond,
            tags,
        },
        rest,
    ))
}

/// `UPDATE name SET name = expr {, name = expr} [WHERE cond] [DECLASSIFYING ( names )]`.
#[tactic(auto, unfolding(crate::specs::rules::Requests::update))]
pub(crate) fn update(alloc: Global, lexemes: &[Lexeme]) -> Read<'_, Request>
    ensures { IsRead result (spec.update lexemes.now) }
{
    let rest = token(lexemes, Lexeme::Update)?;
    let (table, rest) = name(alloc, rest)?;
    let rest = token(rest, Lexeme::Set)?;
    update_set(alloc, table, rest)
}

/// `DELETE FROM name [WHERE cond]`.
#[tactic(auto, unfolding(crate::specs::rules::Requests::delete))]
pub(crate) fn delete(alloc: Global, lexemes: &[Lexeme]) -> Read<'_, Request>
    ensures { IsRead result (spec.delete lexemes.now) }
{
    let rest = token(lexemes, Lexeme::Delete)?;
    let rest = token(rest, Lexeme::From)?;
    let (table, rest) = name(alloc, rest)?;
    let (cond, rest) = condition(alloc, rest)?;
    Ok((Request::Delete { table, cond }, rest))
}
