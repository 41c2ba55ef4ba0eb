// SELECT and its lists.
ghost use Rattle.std.specs.Prelude.{◌≡◌, ◌++◌, List, OnOk};
ghost use Rattle.ifdb_syntax.specs.declared.lexeme.Lexeme.{Lexeme};
ghost use Rattle.ifdb_syntax.specs.Printed.{after};
ghost use Rattle.ifdb_syntax.specs.canonical.Queries.{aggregate_tokens, item_tokens, source_tokens, order_tokens, group_tokens, orders_tokens, select_tokens};

use crate::canonical::{Canonical, print_list};
use crate::expression::ColumnRef;
use crate::lexeme::Lexeme;
use crate::place::ExprPlace;
use crate::printer::Printer;
use crate::printing::conditions::print_condition;
use crate::printing::expressions::print_expr;
use crate::printing::names::print_named_as;
use crate::select::{Item, Order, OrderBy, Select, Source};
use ifdb_value::{Name, OutOfMemory};

impl Canonical for Select {
    ghost tokens = { select_tokens };

    #[tactic(auto, using(crate::proofs::AfterLaws::after_laws))]
    fn print(&self, printer: &mut Printer) -> Result<(), OutOfMemory> {
        printer.put(&Lexeme::Select)?;
        print_list(printer, self.items.items())?;
        printer.put(&Lexeme::From)?;
        print_list(printer, self.sources.items())?;
        print_condition(printer, &self.cond)?;
        print_group(printer, self.group.items())?;
        print_orders(printer, self.order.items())
    }
}

impl Canonical for Item {
    ghost tokens = { item_tokens };

    #[tactic(auto, using(crate::proofs::AfterLaws::after_laws))]
    fn print(&self, printer: &mut Printer) -> Result<(), OutOfMemory> {
        match self {
            Item::All => printer.put(&Lexeme::Star),
            Item::Expr { expr, name } => {
                print_expr(printer, expr, ExprPlace::Expr)?;
                print_named_as(printer, name)
            }
            Item::LabelOf { source, name } => {
                printer.put(&Lexeme::Label)?;
                printer.put(&Lexeme::Of)?;
                printer.name(source)?;
                print_named_as(printer, name)
            }
            Item::CountAll { name } => {
                printer.put(&Lexeme::Count)?;
                printer.put(&Lexeme::Open)?;
                printer.put(&Lexeme::Star)?;
                printer.put(&Lexeme::Close)?;
                print_named_as(printer, name)
            }
            Item::Sum { column, name } => print_aggregate(printer, &Lexeme::Sum, column, name),
            Item::Min { column, name } => print_aggregate(printer, &Lexeme::Min, column, name),
            Item::Max { column, name } => print_aggregate(printer, &Lexeme::Max, column, name),
        }
    }
}

/// Writes `word(column) [AS name]`.
#[tactic(auto, using(crate::proofs::AfterLaws::after_laws))]
fn print_aggregate(
    printer: &mut Printer,
    word: &Lexeme,
    column: &ColumnRef,
    name: &Option<Name>,
) -> Result<(), OutOfMemory>
    ensures { OnOk result
        (printer.new ≡ after printer.old (aggregate_tokens word.now column.now name.now)) }
{
    printer.put(word)?;
    printer.put(&Lexeme::Open)?;
    column.print(printer)?;
    printer.put(&Lexeme::Close)?;
    print_named_as(printer, name)
}

impl Canonical for Source {
    ghost tokens = { source_tokens };

    #[tactic(auto, using(crate::proofs::AfterLaws::after_laws))]
    fn print(&self, printer: &mut Printer) -> Result<(), OutOfMemory> {
        printer.name(&self.name)?;
        if self.name.as_str() != self.alias.as_str() {
            printer.put(&Lexeme::As)?;
            printer.name(&self.alias)?;
        }
        Ok(())
    }
}

/// Writes `GROUP BY columns`, or nothing where there are none.
#[tactic(auto, using(crate::proofs::AfterLaws::after_laws))]
fn print_group(printer: &mut Printer, columns: &[ColumnRef]) -> Result<(), OutOfMemory>
    ensures { OnOk result (printer.new ≡ after printer.old (group_tokens columns.now)) }
{
    if columns.is_empty() {
        return Ok(());
    }
    printer.put(&Lexeme::Group)?;
    printer.put(&Lexeme::By)?;
    print_list(printer, columns)
}

/// Writes `ORDER BY keys`, or nothing where there are none.
#[tactic(auto, using(crate::proofs::AfterLaws::after_laws))]
fn print_orders(printer: &mut Printer, keys: &[Order]) -> Result<(), OutOfMemory>
    ensures { OnOk result (printer.new ≡ after printer.old (orders_tokens keys.now)) }
{
    if keys.is_empty() {
        return Ok(());
    }
    printer.put(&Lexeme::Order)?;
    printer.put(&Lexeme::By)?;
    print_list(printer, keys)
}

impl Canonical for Order {
    ghost tokens = { order_tokens };

    #[tactic(auto, using(crate::proofs::AfterLaws::after_laws))]
    fn print(&self, printer: &mut Printer) -> Result<(), OutOfMemory> {
        match &self.target {
            OrderBy::Name(name) => printer.name(name)?,
            OrderBy::Place(place) => printer.number(*place)?,
        }
        if self.descending {
            printer.put(&Lexeme::Desc)?;
        }
        Ok(())
    }
}
