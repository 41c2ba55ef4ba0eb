// Expressions.
ghost use Rattle.std.specs.Prelude.{◌≡◌, OnOk};
ghost use Rattle.ifdb_syntax.specs.Printed.{after};
ghost use Rattle.ifdb_syntax.specs.canonical.Expressions.{expr_tokens};

use crate::canonical::Canonical;
use crate::expression::Expr;
use crate::lexeme::Lexeme;
use crate::place::ExprPlace;
use crate::printer::Printer;
use ifdb_value::OutOfMemory;

/// Writes an expression in the place of one of the rules, in parentheses where it needs them there.
#[tactic(auto, using(crate::proofs::AfterLaws::after_laws, crate::proofs::ExprTokens::expr_laws))]
pub(crate) fn print_expr(
    printer: &mut Printer,
    expr: &Expr,
    place: ExprPlace,
) -> Result<(), OutOfMemory>
    ensures { OnOk result (printer.new ≡ after printer.old (expr_tokens expr.now place)) }
{
    match expr {
        Expr::Column(column) => column.print(printer),
        Expr::Literal(value) => value.print(printer),
        Expr::Add(left, right) => {
            printer.open_if(place.encloses_sum())?;
            print_expr(printer, left.get(), ExprPlace::Expr)?;
            printer.put(&Lexeme::Plus)?;
            print_expr(printer, right.get(), ExprPlace::Term)?;
            printer.close_if(place.encloses_sum())
        }
        Expr::Sub(left, right) => {
            printer.open_if(place.encloses_sum())?;
            print_expr(printer, left.get(), ExprPlace::Expr)?;
            printer.put(&Lexeme::Minus)?;
            print_expr(printer, right.get(), ExprPlace::Term)?;
            printer.close_if(place.encloses_sum())
        }
        Expr::Mul(left, right) => {
            printer.open_if(place.encloses_product())?;
            print_expr(printer, left.get(), ExprPlace::Term)?;
            printer.put(&Lexeme::Star)?;
            print_expr(printer, right.get(), ExprPlace::Factor)?;
            printer.close_if(place.encloses_product())
        }
    }
}
