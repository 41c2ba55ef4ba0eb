// Rising lists of tags.
ghost use Rattle.std.specs.Prelude.{◌≡◌, IfOk};
ghost use Rattle.ifdb_label.specs.Label.{with_tag, with_tags};

use crate::{OutOfMemory, Tag};

/// Puts each tag of a list into a rising list. In time the product of both lengths, at most.
pub(crate) fn insert_all(rising: &mut Vec<Tag>, list: &[Tag]) -> Result<(), OutOfMemory>
    ensures { IfOk result (λ _. rising.new.items ≡ with_tags list.now rising.old.items) }
{
    for tag in list.iter().rev() {
        insert(rising, *tag)?;
    }
    Ok(())
}

/// Puts a tag into its place in a rising list, unless it stands there.
pub(crate) fn insert(rising: &mut Vec<Tag>, tag: Tag) -> Result<(), OutOfMemory>
    ensures { IfOk result (λ _. rising.new.items ≡ with_tag tag rising.old.items) }
{
    let mut at = 0;
    while at < rising.len() && rising[at] < tag {
        at += 1;
    }
    if at < rising.len() && rising[at] == tag {
        return Ok(());
    }
    rising.insert(at, tag)?;
    Ok(())
}
