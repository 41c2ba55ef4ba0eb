// Requests that are answered from what is seen: SET LABEL, SHOW LABEL and SELECT.
ghost use Rattle.std.specs.Prelude.{◌≡◌, ℕ, IsTrue, length, option_copied};
ghost use Rattle.ifdb_label.specs.Tags.{AreMade};
ghost use Rattle.ifdb_syntax.specs.declared.request.Request.{Request as AnyRequest};
ghost use Rattle.ifdb_model.specs.Step.{form_of, looks, relabels, shows_label};
ghost use Rattle.ifdb_snapshot.specs.Narrow.{is_narrow};
ghost use Rattle.ifdb_db.specs.Client.{standing};
ghost use Rattle.ifdb_db.specs.Inside.{IsSaid, IsSaidAlike};

use ifdb_label::Label;
use ifdb_snapshot::Snapshot;
use ifdb_syntax::Request;
use ifdb_value::Principal;
use ifdb_wire::{Fault, Reply};

/// SET LABEL of a principal at a label, under its ceiling if it has one.
#[tactic(auto, using(crate::proofs::Saying::label_said, crate::proofs::Saying::label_kept, crate::proofs::Saying::label_denied, crate::proofs::Saying::label_unbound))]
pub(crate) fn set_label(
    seen: &Snapshot<'_>,
    asker: Principal,
    ceiling: Option<&Label>,
    label: &mut Label,
    request: Request,
) -> Result<Reply, Fault>
    requires form { form_of request ≡ relabels }
    requires narrow { IsTrue (is_narrow request) }
    requires made { AreMade (length seen.now.public.tags) label.old }
    ensures said { IsSaid seen.now (standing asker (option_copied ceiling.entry) label.old)
        label.new request result }
    ensures made { AreMade (length seen.now.public.tags) label.new }
{
    let found = seen.bind(asker, request)?;
    if let Some(new) = seen.new_label(asker, ceiling, label, found)? {
        *label = new;
    }
    Ok(Reply::Done)
}

/// SHOW LABEL at a label, whoever asks and whatever the ceiling is.
#[tactic(auto, using(crate::proofs::Saying::label_shown, crate::proofs::Saying::label_not_shown))]
pub(crate) fn show_label(seen: &Snapshot<'_>, label: &Label) -> Result<Reply, Fault>
    ensures { (asker : ℕ) (r : AnyRequest) → form_of r ≡ shows_label
        → IsSaidAlike seen.now asker label.now r result }
{
    let reply = seen.label_shown(label)?;
    Ok(reply)
}

/// SELECT of a principal at a label, whatever the ceiling is.
#[tactic(auto, using(crate::proofs::Saying::look_unbound))]
pub(crate) fn select(
    seen: &Snapshot<'_>,
    asker: Principal,
    label: &Label,
    request: Request,
) -> Result<Reply, Fault>
    requires form { form_of request ≡ looks }
    requires narrow { IsTrue (is_narrow request) }
    requires made { AreMade (length seen.now.public.tags) label.now }
    ensures { IsSaidAlike seen.now asker label.now request result }
{
    let found = seen.bind(asker, request)?;
    let answer = seen.look(label, &found);
    drop(found);
    answer
}
