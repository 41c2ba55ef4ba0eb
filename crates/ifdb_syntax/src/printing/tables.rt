// What CREATE TABLE is made of, and rows.
ghost use Rattle.std.specs.Prelude.{◌≡◌, List, OnOk};
ghost use Rattle.ifdb_syntax.specs.declared.lexeme.Lexeme.{Lexeme};
ghost use Rattle.ifdb_syntax.specs.Printed.{after};
ghost use Rattle.ifdb_syntax.specs.canonical.Tokens.{enclosed};
ghost use Rattle.ifdb_syntax.specs.canonical.Requests.{column_tokens, columns_tokens, foreign_tokens, kind_token, row_tokens, table_tokens};

use crate::canonical::{Canonical, print_behind_commas, print_list};
use crate::lexeme::Lexeme;
use crate::printer::Printer;
use crate::printing::names::print_names;
use crate::request::ForeignKey;
use ifdb_value::{Column, Name, OutOfMemory, ValueKind, ValueRow};

/// Writes the columns, the primary key and the foreign keys of a table, in parentheses.
#[tactic(auto, using(crate::proofs::AfterLaws::after_laws))]
pub(crate) fn print_table(
    printer: &mut Printer,
    columns: &[Column],
    key: &[Name],
    foreign: &[ForeignKey],
) -> Result<(), OutOfMemory>
    ensures { OnOk result
        (printer.new ≡ after printer.old (enclosed (table_tokens columns.now key.now foreign.now))) }
{
    printer.put(&Lexeme::Open)?;
    print_list(printer, columns)?;
    printer.put(&Lexeme::Comma)?;
    printer.put(&Lexeme::Primary)?;
    printer.put(&Lexeme::Key)?;
    print_names(printer, key)?;
    print_behind_commas(printer, foreign)?;
    printer.put(&Lexeme::Close)
}

impl Canonical for Column {
    ghost tokens = { column_tokens };

    #[tactic(auto, using(crate::proofs::AfterLaws::after_laws))]
    fn print(&self, printer: &mut Printer) -> Result<(), OutOfMemory> {
        printer.name(&self.name)?;
        printer.put(&kind(self.kind))
    }
}

/// The word of a kind of values.
fn kind(kind: ValueKind) -> Lexeme
    ensures { result ≡ kind_token kind }
{
    match kind {
        ValueKind::Int => Lexeme::Int,
        ValueKind::Text => Lexeme::Text,
    }
}

impl Canonical for ForeignKey {
    ghost tokens = { foreign_tokens };

    #[tactic(auto, using(crate::proofs::AfterLaws::after_laws))]
    fn print(&self, printer: &mut Printer) -> Result<(), OutOfMemory> {
        printer.put(&Lexeme::Foreign)?;
        printer.put(&Lexeme::Key)?;
        print_names(printer, self.columns.items())?;
        printer.put(&Lexeme::References)?;
        printer.name(&self.parent)
    }
}

/// Writes names in parentheses, or nothing where there are none.
#[tactic(auto, using(crate::proofs::AfterLaws::after_laws))]
pub(crate) fn print_columns(printer: &mut Printer, columns: &[Name]) -> Result<(), OutOfMemory>
    ensures { OnOk result (printer.new ≡ after printer.old (columns_tokens columns.now)) }
{
    if columns.is_empty() {
        return Ok(());
    }
    print_names(printer, columns)
}

impl Canonical for ValueRow {
    ghost tokens = { row_tokens };

    #[tactic(auto, using(crate::proofs::AfterLaws::after_laws))]
    fn print(&self, printer: &mut Printer) -> Result<(), OutOfMemory> {
        printer.put(&Lexeme::Open)?;
        print_list(printer, self.items())?;
        printer.put(&Lexeme::Close)
    }
}
