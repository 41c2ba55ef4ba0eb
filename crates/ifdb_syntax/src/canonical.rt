// What has a canonical text: its trait, and lists of it.
ghost use Rattle.std.specs.Prelude.{◌≡◌, List, OnOk};
ghost use Rattle.ifdb_syntax.specs.declared.lexeme.Lexeme.{Lexeme};
ghost use Rattle.ifdb_syntax.specs.Printed.{after};
ghost use Rattle.ifdb_syntax.specs.canonical.Tokens.{behind, commas};

use crate::lexeme::Lexeme;
use crate::printer::Printer;
use ifdb_value::OutOfMemory;

/// What has canonical lexemes, which `tokens` tells.
pub(crate) trait Canonical {
    ghost tokens: { Self → List Lexeme };

    /// Writes them.
    fn print(&self, printer: &mut Printer) -> Result<(), OutOfMemory>
        ensures { OnOk result (printer.new ≡ after printer.old (tokens self.now)) };
}

/// Writes members with commas between them.
#[tactic(auto, using(crate::proofs::AfterLaws::after_laws, crate::proofs::ListLaws::list_laws, std::proofs::lemmas::Grind::common_steps))]
pub(crate) fn print_list<T: Canonical>(
    printer: &mut Printer,
    members: &[T],
) -> Result<(), OutOfMemory>
    ensures { OnOk result (printer.new ≡ after printer.old (commas T.tokens members.now)) }
{
    match members {
        [] => Ok(()),
        [first, rest @ ..] => {
            first.print(printer)?;
            print_behind_commas(printer, rest)
        }
    }
}

/// Writes members, each behind a comma.
#[tactic(auto, using(crate::proofs::AfterLaws::after_laws, crate::proofs::ListLaws::list_laws, std::proofs::lemmas::Grind::common_steps))]
pub(crate) fn print_behind_commas<T: Canonical>(
    printer: &mut Printer,
    members: &[T],
) -> Result<(), OutOfMemory>
    ensures { OnOk result (printer.new ≡ after printer.old (behind Lexeme.Comma T.tokens members.now)) }
{
    for member in members {
        printer.put(&Lexeme::Comma)?;
        member.print(printer)?;
    }
    Ok(())
}
