// Tags, plain and compound.
ghost use Rattle.std.specs.Prelude.{◌≡◌, ◌↔◌, ◌++◌, ◌∷◌, ◌<◌, [], Some, None, Ok, Err, IsSome, IfOk, OnOk, OnErr, length};
ghost use Rattle.ifdb_label.specs.Tags.{AreMade, AreWellFormed, below, kind_of, made_tag, refusal, are_made, are_compound};
ghost use Rattle.ifdb_label.specs.Ancestors.{HasAbove, HasAncestors};

use crate::OutOfMemory;
use crate::rising::{insert, insert_all};
use std::alloc::{AllocError, Global};
use std::error::Error;
use std::fmt;
use std::marker::Model;

/// A tag's number: tags are numbered from 0 in the order in which they were made.
#[derive(Clone, Copy, Debug, PartialEq, Eq, PartialOrd, Ord)]
pub struct Tag(pub u64);

impl Model for Tag {
    ghost use Rattle.std.specs.Prelude.{ℕ};

    ghost Value = { ℕ };

    ghost view = { λ t. t.0 };

    ghost inverse = { λ n. record { 0 = n } };
}

/// Whether other tags may be made as members of a tag.
#[derive(Clone, Copy, Debug, PartialEq, Eq)]
pub enum TagKind {
    /// A tag of its own, which has no members.
    Plain,
    /// A tag that stands for all of its members.
    Compound,
}

/// Why a tag was not made.
#[derive(Clone, Copy, Debug, PartialEq, Eq)]
pub enum TagFault {
    /// A parent is no tag that was made.
    UnknownTag,
    /// A parent is a plain tag.
    NotCompound,
    /// An allocation was refused.
    OutOfMemory,
}

impl fmt::Display for TagFault {
    fn fmt<W: fmt::Write>(&self, f: &mut fmt::Formatter<W>) -> fmt::Result {
        match self {
            TagFault::UnknownTag => write!(f, "a parent is not made"),
            TagFault::NotCompound => write!(f, "a parent is a plain tag"),
            TagFault::OutOfMemory => write!(f, "out of memory"),
        }
    }
}

impl Error for TagFault {}

impl From<AllocError> for TagFault {
    ghost use Rattle.std.specs.Prelude.{◌≡◌};
    ghost use Rattle.ifdb_label.specs.declared.tag.TagFault.{TagFault};

    ghost from_gives = { λ _ fault. fault ≡ TagFault.OutOfMemory };

    fn from(_: AllocError) -> Self {
        TagFault::OutOfMemory
    }
}

/// One made tag: its kind, the compound tags that it was made in, and all tags that it is below but itself, rising.
#[derive(Drop)]
struct Entry {
    kind: TagKind,
    parents: Vec<Tag>,
    ancestors: Vec<Tag>,
}

impl Model for Entry {
    ghost use Rattle.ifdb_label.specs.Ancestors.{TracedTag};

    ghost Value = { TracedTag };

    ghost use Rattle.ifdb_label.specs.Tags.{made_tag};

    ghost view = { λ e. record { made = made_tag e.kind e.parents.items; ancestors = e.ancestors.items } };
}

impl Entry {
    fn kind(&self) -> TagKind
        ensures { result ≡ self.now.made.kind }
    {
        self.kind
    }

    fn ancestors(&self) -> &[Tag]
        ensures { result.now ≡ self.now.ancestors }
    {
        &self.ancestors
    }

    /// The same tag.
    fn copy(&self, alloc: Global) -> Result<Entry, AllocError>
        ensures { IfOk result (λ entry. entry ≡ self.now) }
    {
        let parents = Vec::from_slice(alloc, &self.parents)?;
        let ancestors = Vec::from_slice(alloc, &self.ancestors)?;
        Ok(Entry {
            kind: self.kind,
            parents,
            ancestors,
        })
    }
}

/// All tags that were made, by number.
///
/// Contracts see the list of each tag's kind and parents, in the order of the numbers. A tag's parents are older than
/// it, and its membership never changes.
#[derive(Drop)]
pub struct Tags {
    alloc: Global,
    entries: Vec<Entry>,
}

impl Model for Tags {
    ghost use Rattle.std.specs.Prelude.{List};
    ghost use Rattle.ifdb_label.specs.Tags.{MadeTag};
    ghost use Rattle.ifdb_label.specs.Ancestors.{made_of, AreTraced};

    ghost Value = { List MadeTag };

    ghost view = { λ t. made_of t.entries.items };

    ghost invariant = { λ t. AreTraced t.entries.items };
}

impl Tags {
    ghost use Rattle.ifdb_label.specs.Tags.{MadeTag};
    ghost use Rattle.ifdb_label.specs.declared.tag.TagFault.TheVariants.{UnknownTag, NotCompound};

    /// No tags. Takes no memory: each `add` takes it from `alloc`.
    pub fn new(alloc: Global) -> Self
        ensures { result ≡ [] }
    {
        Tags {
            alloc,
            entries: Vec::new(alloc),
        }
    }

    /// The same tags, in memory of `alloc`, from which the copy takes more when tags are added to it.
    ///
    /// In time and memory the tags, with the parents and all tags above each.
    pub fn copy(&self, alloc: Global) -> Result<Tags, OutOfMemory>
        ensures { IfOk result (λ tags. tags ≡ self.now) }
    {
        let entries = copied(alloc, &self.entries)?;
        Ok(Tags { alloc, entries })
    }

    /// How many tags were made.
    pub fn count(&self) -> u64
        ensures value { result ≡ length self.now }
        ensures well_formed { AreWellFormed self.now }
    {
        self.entries.len() as u64
    }

    /// A tag's kind, or `None` exactly where the tag isn't made.
    pub fn kind(&self, tag: Tag) -> Option<TagKind>
        ensures value { result ≡ kind_of self.now tag }
        ensures made { IsSome result ↔ (tag < length self.now) }
    {
        let entry = self.entries.get(tag.0 as usize)?;
        Some(entry.kind())
    }

    /// Makes the next tag, as a member of these compound tags, and returns it. The older tags keep their order.
    ///
    /// `UnknownTag` exactly where a parent isn't made; `NotCompound` exactly where all are made and one is plain;
    /// `OutOfMemory` where an allocation is refused. Whatever the error, the tags are as before.
    ///
    /// Gathers the tags above the new one: in time the number of them, times those that the parents have together.
    pub fn add(&mut self, kind: TagKind, parents: &[Tag]) -> Result<Tag, TagFault>
        ensures tag { IfOk result (λ tag. tag ≡ length self.old) }
        ensures made { OnOk result (self.new ≡ self.old ++ made_tag kind parents.now ∷ []) }
        ensures accepted { OnOk result (refusal self.old parents.now ≡ None) }

        // Each refusal, and want of memory apart from these.
        ensures unknown { (result ≡ Err UnknownTag)
            ↔ (refusal self.old parents.now ≡ Some UnknownTag) }
        ensures plain { (result ≡ Err NotCompound)
            ↔ (refusal self.old parents.now ≡ Some NotCompound) }
        ensures err { OnErr result (self.new ≡ self.old) }
    {
        if !self.are_made(parents) {
            return Err(TagFault::UnknownTag);
        }
        if !self.are_compound(parents) {
            return Err(TagFault::NotCompound);
        }
        let tag = Tag(self.count());
        let ancestors = self.all_above(parents)?;
        let parents = Vec::from_slice(self.alloc, parents)?;
        self.append(Entry {
            kind,
            parents,
            ancestors,
        })?;
        Ok(tag)
    }

    /// Whether a tag is the other one or a member of it, at any depth. Takes no memory, and looks through the tags
    /// that are above the first one.
    pub fn below(&self, tag: Tag, other: Tag) -> bool
        requires tag { tag < length self.now }
        requires other { other < length self.now }
        ensures { result ≡ below self.now tag other }
    {
        self.is_below(tag, other)
    }

    /// `below`, for any numbers.
    pub(crate) fn is_below(&self, tag: Tag, other: Tag) -> bool
        ensures { result ≡ below self.now tag other }
    {
        tag == other || self.ancestors(tag).contains(&other)
    }

    /// The tags that a tag is below, itself apart, rising; none where it isn't made. Takes no memory.
    pub fn ancestors(&self, tag: Tag) -> &[Tag]
        ensures above { HasAncestors self.now tag result.now }
        ensures well_formed { AreWellFormed self.now }
    {
        match self.entries.get(tag.0 as usize) {
            Some(entry) => entry.ancestors(),
            None => &[],
        }
    }

    /// The tags that some of the parents is below, rising.
    fn all_above(&self, parents: &[Tag]) -> Result<Vec<Tag>, AllocError>
        ensures { IfOk result (λ above. HasAbove self.now parents.now above.items) }
    {
        let mut above = Vec::new(self.alloc);
        for parent in parents {
            insert(&mut above, *parent)?;
            insert_all(&mut above, self.ancestors(*parent))?;
        }
        Ok(above)
    }

    /// Puts a tag behind the others.
    fn append(&mut self, entry: Entry) -> Result<(), AllocError>
        requires made { AreMade (length self.old) entry.made.parents }
        requires above { HasAbove self.old entry.made.parents entry.ancestors }
        ensures ok { OnOk result (self.new ≡ self.old ++ entry.made ∷ []) }
        ensures err { OnErr result (self.new ≡ self.old) }
    {
        self.entries.push(entry)?;
        Ok(())
    }

    /// Whether each of these tags is made.
    pub fn are_made(&self, tags: &[Tag]) -> bool
        ensures { result ≡ are_made (length self.now) tags.now }
    {
        let count = self.count();
        tags.iter().all(|tag| tag.0 < count)
    }

    /// Whether each of these tags is compound.
    fn are_compound(&self, tags: &[Tag]) -> bool
        requires { AreMade (length self.now) tags.now }
        ensures { result ≡ are_compound self.now tags.now }
    {
        tags.iter()
            .all(|tag| self.kind(*tag) == Some(TagKind::Compound))
    }
}

/// The same entries.
fn copied(alloc: Global, entries: &[Entry]) -> Result<Vec<Entry>, AllocError>
    ensures { IfOk result (λ copies. copies.items ≡ entries.now) }
{
    let mut copies = Vec::new(alloc);
    for entry in entries {
        copies.push(entry.copy(alloc)?)?;
    }
    Ok(copies)
}
