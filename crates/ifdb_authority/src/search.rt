// The search for one who made a tag, back from one who may hold it.
ghost use Rattle.std.specs.Prelude.{◌<◌, ◌∷◌, [], length, IfOk};
ghost use Rattle.ifdb_label.specs.Tags.{AreMade, AreWellFormed};
ghost use Rattle.ifdb_authority.specs.Grantors.{is_same_holding};
ghost use Rattle.ifdb_authority.specs.Search.{AreAbove, IsAnswer, IsExtended, is_above, leads};

use crate::holding::Holding;
use crate::{Authority, OutOfMemory};
use ifdb_label::{Tag, Tags};
use ifdb_value::Principal;
use indexmap::IndexSet;

/// Whether a principal holds a tag, as far as grants and the compounds of the list show: exact where the list has all tags
/// that the tag is below.
///
/// Goes back from the principal over grantors and tags above, each pair once, until it finds one who made their tag.
pub(crate) fn is_held(
    authority: &Authority,
    tags: &Tags,
    p: Principal,
    tag: Tag,
    above: &[Tag],
) -> Result<bool, OutOfMemory>
    requires tag { tag < length tags.now }
    requires above { AreAbove tags.now tag above.now }
    requires well_formed { AreWellFormed tags.now }
    ensures { IfOk result (IsAnswer tags.now authority.now p tag above.now) }
{
    let mut found = IndexSet::new(authority.alloc());
    add(&mut found, Holding { holder: p, tag })?;
    let mut at = 0;
    while at < found.len() {
        let holding = found[at];
        if authority.is_owner(holding.holder, holding.tag) {
            return Ok(true);
        }
        add_steps(&mut found, authority, tags, above, &holding)?;
        at += 1;
    }
    Ok(false)
}

/// Adds the holdings that give a holding by one step.
fn add_steps(
    found: &mut IndexSet<Holding>,
    authority: &Authority,
    tags: &Tags,
    above: &[Tag],
    to: &Holding,
) -> Result<(), OutOfMemory>
    requires tag { to.now.tag < length tags.now }
    requires above { AreMade (length tags.now) above.now }
    ensures { IfOk result (λ _. IsExtended found.old.keys found.new.keys
        (leads tags.now authority.now above.now to.now)) }
{
    authority.add_grantors(found, to)?;
    add_above(found, tags, above, to)
}

/// Adds the principal with each tag of the list that its tag is below.
pub(crate) fn add_above(
    found: &mut IndexSet<Holding>,
    tags: &Tags,
    above: &[Tag],
    of: &Holding,
) -> Result<(), OutOfMemory>
    requires tag { of.now.tag < length tags.now }
    requires above { AreMade (length tags.now) above.now }
    ensures { IfOk result
        (λ _. IsExtended found.old.keys found.new.keys (is_above tags.now above.now of.now)) }
{
    for tag in above {
        add_if_above(found, tags, *tag, of)?;
    }
    Ok(())
}

/// Adds the principal with the tag, if its own tag is below it.
fn add_if_above(
    found: &mut IndexSet<Holding>,
    tags: &Tags,
    tag: Tag,
    of: &Holding,
) -> Result<(), OutOfMemory>
    requires of { of.now.tag < length tags.now }
    requires tag { tag < length tags.now }
    ensures { IfOk result
        (λ _. IsExtended found.old.keys found.new.keys (is_above tags.now (tag ∷ []) of.now)) }
{
    if !tags.below(of.tag, tag) {
        return Ok(());
    }
    add(
        found,
        Holding {
            holder: of.holder,
            tag,
        },
    )
}

/// Adds a holding, unless it is in the list.
pub(crate) fn add(found: &mut IndexSet<Holding>, holding: Holding) -> Result<(), OutOfMemory>
    ensures { IfOk result
        (λ _. IsExtended found.old.keys found.new.keys (is_same_holding holding)) }
{
    found.insert(holding)?;
    Ok(())
}
