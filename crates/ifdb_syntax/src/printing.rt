// The canonical text of a request.
ghost use Rattle.std.specs.Prelude.{◌≡◌, IfOk};
ghost use Rattle.ifdb_syntax.specs.canonical.Text.{canonical_text};

mod conditions;
mod expressions;
mod names;
mod queries;
mod requests;
mod tables;

use crate::canonical::Canonical;
use crate::printer::Printer;
use crate::request::Request;
use ifdb_value::OutOfMemory;
use std::alloc::Global;

/// The canonical text of a request: the one line that reads back as it.
///
/// `OutOfMemory` where an allocation is refused.
#[tactic(auto, using(crate::proofs::AfterLaws::after_laws, crate::proofs::AfterLaws::text_laws), unfolding(crate::specs::canonical::Text::canonical_text))]
pub fn print(alloc: Global, request: &Request) -> Result<Vec<u8>, OutOfMemory>
    ensures { IfOk result (λ text. text.items ≡ canonical_text request.now) }
{
    let mut printer = Printer::new(alloc);
    request.print(&mut printer)?;
    Ok(printer.into_text())
}
