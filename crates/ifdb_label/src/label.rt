// Labels: rising lists of tags.
ghost use Rattle.std.specs.Prelude.{◌≡◌, ◌<◌, ◌++◌, [], IfOk, IsTrue, length};
ghost use Rattle.ifdb_label.specs.Tags.{AreMade};
ghost use Rattle.ifdb_label.specs.Label.{flows, is_below_another, is_below_some, is_rising, reduce, strip, union, without_lower};

use crate::rising::insert_all;
use crate::{OutOfMemory, Tag, Tags};
use ifdb_value::SharedList;
use std::alloc::Global;
use std::marker::Model;

/// A set of tags, which several owners share. Contracts see their numbers, each greater than the one before it.
#[derive(Drop)]
pub struct Label {
    tags: SharedList<Tag>,
}

impl Model for Label {
    ghost use Rattle.std.specs.Prelude.{List, ℕ, IsTrue};
    ghost use Rattle.ifdb_label.specs.Label.{is_rising};

    ghost Value = { List ℕ };

    ghost view = { λ l. l.tags };

    ghost invariant = { λ l. IsTrue (is_rising l.tags) };
}

impl Label {
    /// The label with no tags. Takes no memory.
    pub fn empty() -> Self
        ensures { result ≡ [] }
    {
        Label {
            tags: SharedList::new(),
        }
    }

    /// The label with these tags, which rise.
    pub fn of(alloc: Global, tags: Vec<Tag>) -> Result<Self, OutOfMemory>
        requires { IsTrue (is_rising tags.items) }
        ensures { IfOk result (λ label. label ≡ tags.items) }
    {
        Ok(Label {
            tags: SharedList::from_vec(alloc, tags)?,
        })
    }

    /// The label's tags, in rising order.
    pub fn tags(&self) -> &[Tag]
        ensures value { result.now ≡ self.now }
        ensures rising { IsTrue (is_rising result.now) }
    {
        self.tags.items()
    }

    /// One more owner of the same label. Takes no memory; `OutOfMemory` comes where it has too many owners.
    pub fn share(&self) -> Result<Self, OutOfMemory>
        ensures { IfOk result (λ label. label ≡ self.now) }
    {
        Ok(Label {
            tags: self.tags.share()?,
        })
    }

    /// The tags of the list that aren't below another tag of it, rising, each once.
    ///
    /// In time the square of the list's length, times what `Tags::below` takes.
    pub fn reduce(alloc: Global, tags: &Tags, list: &[Tag]) -> Result<Self, OutOfMemory>
        requires { AreMade (length tags.now) list.now }
        ensures value { IfOk result (λ label. label ≡ reduce tags.now list.now) }
        ensures made { IfOk result (λ label. AreMade (length tags.now) label) }
    {
        let mut kept = Vec::new(alloc);
        insert_all(&mut kept, list)?;
        drop_below_another(tags, &mut kept, list);
        Label::of(alloc, kept)
    }

    /// Whether each tag of this label is below some tag of the other: what is at this label may go to the other.
    ///
    /// A tag that isn't made is below itself alone. Takes no memory, and at most a `Tags::below` for each pair of tags.
    pub fn flows(&self, tags: &Tags, other: &Label) -> bool
        ensures { result ≡ flows tags.now self.now other.now }
    {
        let others = other.tags();
        self.tags()
            .iter()
            .all(|tag| is_below_some(tags, *tag, others))
    }

    /// The reduction of both labels' tags together. Costs what `reduce` does.
    pub fn union(&self, alloc: Global, tags: &Tags, other: &Label) -> Result<Self, OutOfMemory>
        requires self_made { AreMade (length tags.now) self.now }
        requires other_made { AreMade (length tags.now) other.now }
        ensures value { IfOk result (λ label. label ≡ union tags.now self.now other.now) }
        ensures made { IfOk result (λ label. AreMade (length tags.now) label) }
    {
        let mut both = Vec::from_slice(alloc, self.tags())?;
        both.extend_from_slice(other.tags())?;
        Label::reduce(alloc, tags, &both)
    }

    /// Whether this label flows to the union of two others. Makes no union, and takes no memory.
    #[tactic(auto, using(crate::proofs::LabelLaws::flows_to_union))]
    pub fn flows_to_union(&self, tags: &Tags, first: &Label, second: &Label) -> bool
        requires self_made { AreMade (length tags.now) self.now }
        requires first_made { AreMade (length tags.now) first.now }
        requires second_made { AreMade (length tags.now) second.now }
        ensures { result ≡ flows tags.now self.now (union tags.now first.now second.now) }
    {
        // That parents are older than their tags, as `count` says, is what lets each tag be tested by itself.
        let _ = tags.count();
        flow_to_either(tags, self.tags(), first.tags(), second.tags())
    }

    /// The tags of this label that aren't below a tag of `of`: none of them exactly where this label flows to `of`.
    pub fn strip(&self, alloc: Global, tags: &Tags, of: &Label) -> Result<Self, OutOfMemory>
        requires self_made { AreMade (length tags.now) self.now }
        requires of_made { AreMade (length tags.now) of.now }
        ensures value { IfOk result (λ label. label ≡ strip tags.now self.now of.now) }
        ensures made { IfOk result (λ label. AreMade (length tags.now) label) }
    {
        let mut left = Vec::from_slice(alloc, self.tags())?;
        drop_below_some(tags, &mut left, of.tags());
        Label::of(alloc, left)
    }
}

/// Whether a tag is below some tag of a list.
fn is_below_some(tags: &Tags, tag: Tag, list: &[Tag]) -> bool
    ensures { result ≡ is_below_some tags.now tag list.now }
{
    list.iter().any(|other| tags.is_below(tag, *other))
}

/// Whether each tag of a list is below some tag of one of two others.
fn flow_to_either(tags: &Tags, list: &[Tag], first: &[Tag], second: &[Tag]) -> bool
    ensures { result ≡ flows tags.now list.now (first.now ++ second.now) }
{
    list.iter()
        .all(|tag| is_below_either(tags, *tag, first, second))
}

/// Whether a tag is below some tag of one of two lists.
#[tactic(auto, using(crate::proofs::LabelLaws::below_either))]
fn is_below_either(tags: &Tags, tag: Tag, first: &[Tag], second: &[Tag]) -> bool
    ensures { result ≡ is_below_some tags.now tag (first.now ++ second.now) }
{
    is_below_some(tags, tag, first) || is_below_some(tags, tag, second)
}

/// Whether a tag is below a tag of a list that isn't itself.
fn is_below_another(tags: &Tags, tag: Tag, list: &[Tag]) -> bool
    ensures { result ≡ is_below_another tags.now tag list.now }
{
    list.iter()
        .any(|other| tag != *other && tags.is_below(tag, *other))
}

/// Drops the tags that are below some tag of a list.
fn drop_below_some(tags: &Tags, from: &mut Vec<Tag>, list: &[Tag])
    ensures { from.new.items ≡ strip tags.now from.old.items list.now }
{
    from.retain(|tag| !is_below_some(tags, *tag, list));
}

/// Drops the tags that are below another tag of a list.
fn drop_below_another(tags: &Tags, from: &mut Vec<Tag>, list: &[Tag])
    ensures { from.new.items ≡ without_lower tags.now from.old.items list.now }
{
    from.retain(|tag| !is_below_another(tags, *tag, list));
}
