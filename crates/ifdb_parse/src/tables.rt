// CREATE TABLE.
ghost use Rattle.ifdb_parse.specs.theory.Gives.{IsRead, IsShorter};
ghost use Rattle.ifdb_parse.specs.rules.Requests as spec;

use crate::names::names_in_parens;
use crate::shared::{Read, name, token};
use crate::stop::Stop;
use ifdb_syntax::{ForeignKey, ForeignKeys, Lexeme, Request};
use ifdb_value::{Column, Columns, Name, Sequence, ValueKind};
use std::alloc::Global;

/// `INT | INTEGER | TEXT`.
#[tactic(auto, unfolding(crate::specs::rules::Requests::value_kind, crate::specs::rules::Shared::token))]
fn value_kind(lexemes: &[Lexeme]) -> Read<'_, ValueKind>
    ensures value { IsRead result (spec.value_kind lexemes.now) }
    ensures shorter { IsShorter result lexemes.now }
{
    match lexemes {
        [Lexeme::Int, rest @ ..] => Ok((ValueKind::Int, rest)),
        [Lexeme::Integer, rest @ ..] => Ok((ValueKind::Int, rest)),
        [Lexeme::Text, rest @ ..] => Ok((ValueKind::Text, rest)),
        _ => Err(Stop::Left(lexemes.len())),
    }
}

/// `column = name (INT | INTEGER | TEXT)`.
#[tactic(auto, unfolding(crate::specs::rules::Requests::column))]
fn column(alloc: Global, lexemes: &[Lexeme]) -> Read<'_, Column>
    ensures value { IsRead result (spec.column lexemes.now) }
    ensures shorter { IsShorter result lexemes.now }
{
    let (name, rest) = name(alloc, lexemes)?;
    let (kind, rest) = value_kind(rest)?;
    Ok((Column { name, kind }, rest))
}

/// `column ,`, of which the column goes to the end of the list.
#[tactic(auto, unfolding(crate::specs::rules::Requests::column_round))]
fn column_round(alloc: Global, mut found: Columns, lexemes: &[Lexeme]) -> Read<'_, Columns>
    ensures value { IsRead result (spec.column_round found lexemes.now) }
    ensures shorter { IsShorter result lexemes.now }
{
    let (column, rest) = column(alloc, lexemes)?;
    let rest = token(rest, Lexeme::Comma)?;
    found.push(column)?;
    Ok((found, rest))
}

/// `{column ,}`, behind the columns that were found.
#[tactic(auto, using(crate::proofs::rules::TableLoops::columns_are, crate::proofs::rules::TableLoops::columns_go), unfolding(crate::specs::rules::Requests::more_columns))]
fn more_columns(alloc: Global, found: Columns, lexemes: &[Lexeme]) -> Read<'_, Columns>
    ensures { IsRead result (spec.more_columns found lexemes.now) }
{
    let mut columns = found;
    let mut rest = lexemes;
    'columns: while let [Lexeme::Name(_), ..] = rest {
        let (more, after) = column_round(alloc, columns, rest)?;
        columns = more;
        rest = after;
    }
    Ok((columns, rest))
}

/// `foreign = FOREIGN KEY ( names ) REFERENCES name`.
#[tactic(auto, unfolding(crate::specs::rules::Requests::foreign))]
fn foreign(alloc: Global, lexemes: &[Lexeme]) -> Read<'_, ForeignKey>
    ensures value { IsRead result (spec.foreign lexemes.now) }
    ensures shorter { IsShorter result lexemes.now }
{
    let rest = token(lexemes, Lexeme::Foreign)?;
    let rest = token(rest, Lexeme::Key)?;
    let (columns, rest) = names_in_parens(alloc, rest)?;
    let rest = token(rest, Lexeme::References)?;
    let (parent, rest) = name(alloc, rest)?;
    Ok((ForeignKey { columns, parent }, rest))
}

/// `, foreign`, of which the key goes to the end of the list.
#[tactic(auto, unfolding(crate::specs::rules::Requests::foreign_round, crate::specs::rules::Shared::token))]
fn foreign_round(alloc: Global, mut found: ForeignKeys, lexemes: &[Lexeme]) -> Read<'_, ForeignKeys>
    ensures value { IsRead result (spec.foreign_round found lexemes.now) }
    ensures shorter { IsShorter result lexemes.now }
{
    match lexemes {
        [Lexeme::Comma, rest @ ..] => {
            let (key, rest) = foreign(alloc, rest)?;
            found.push(key)?;
            Ok((found, rest))
        }
        _ => Err(Stop::Left(lexemes.len())),
    }
}

/// `{, foreign}`.
#[tactic(auto, using(crate::proofs::rules::TableLoops::foreigns_are, crate::proofs::rules::TableLoops::foreigns_go), unfolding(crate::specs::rules::Requests::foreigns))]
fn foreigns(alloc: Global, lexemes: &[Lexeme]) -> Read<'_, ForeignKeys>
    ensures { IsRead result (spec.foreigns lexemes.now) }
{
    let mut keys = Sequence::new(alloc);
    let mut rest = lexemes;
    'keys: while let [Lexeme::Comma, ..] = rest {
        let (more, after) = foreign_round(alloc, keys, rest)?;
        keys = more;
        rest = after;
    }
    Ok((keys, rest))
}

/// `PRIMARY KEY ( names ) {, foreign} )`, behind a table's columns.
#[tactic(auto, unfolding(crate::specs::rules::Requests::table_keys))]
fn table_keys(alloc: Global, name: Name, columns: Columns, lexemes: &[Lexeme]) -> Read<'_, Request>
    ensures { IsRead result (spec.table_keys name columns lexemes.now) }
{
    let rest = token(lexemes, Lexeme::Primary)?;
    let rest = token(rest, Lexeme::Key)?;
    let (key, rest) = names_in_parens(alloc, rest)?;
    let (foreign, rest) = foreigns(alloc, rest)?;
    let rest = token(rest, Lexeme::Close)?;
    Ok((
        Request::CreateTable {
            name,
            columns,
            key,
            foreign,
        },
        rest,
    ))
}

/// `column {, column} , PRIMARY KEY ( names ) {, foreign} )`, behind the table's name. Each comma behind a column is taken
/// with it.
#[tactic(auto, unfolding(crate::specs::rules::Requests::table_columns))]
fn table_columns(alloc: Global, name: Name, lexemes: &[Lexeme]) -> Read<'_, Request>
    ensures { IsRead result (spec.table_columns name lexemes.now) }
{
    let (first, rest) = column(alloc, lexemes)?;
    let rest = token(rest, Lexeme::Comma)?;
    let mut columns = Sequence::new(alloc);
    columns.push(first)?;
    let (columns, rest) = more_columns(alloc, columns, rest)?;
    table_keys(alloc, name, columns, rest)
}

/// `TABLE name ( column {, column} , PRIMARY KEY ( names ) {, foreign} )`.
#[tactic(auto, unfolding(crate::specs::rules::Requests::table))]
pub(crate) fn table(alloc: Global, lexemes: &[Lexeme]) -> Read<'_, Request>
    ensures { IsRead result (spec.table lexemes.now) }
{
    let rest = token(lexemes, Lexeme::Table)?;
    let (name, rest) = name(alloc, rest)?;
    let rest = token(rest, Lexeme::Open)?;
    table_columns(alloc, name, rest)
}
