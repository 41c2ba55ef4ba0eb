ghost use Rattle.std.specs.Prelude.{◌≡◌, IfOk, length};
ghost use Rattle.ifdb_label.specs.Tags.{AreMade, are_made};

use ifdb_label::{Label, OutOfMemory, Tag, TagFault, TagKind, Tags};
use std::alloc::Global;
use std::process::Abort;
use std::test::Fail;

/// A compound, two compounds in it, a plain tag in these two, and a plain tag apart.
fn diamond(alloc: Global) -> Result<Tags, TagFault>
    ensures { IfOk result (λ tags. length tags ≡ 5) }
{
    let mut tags = Tags::new(alloc);
    tags.add(TagKind::Compound, &[])?;
    tags.add(TagKind::Compound, &[Tag(0)])?;
    tags.add(TagKind::Compound, &[Tag(0)])?;
    tags.add(TagKind::Plain, &[Tag(1), Tag(2)])?;
    tags.add(TagKind::Plain, &[])?;
    Ok(tags)
}

#[test]
fn members_are_below(rt: HostRuntime) -> Result<(), Fail> {
    let tags = diamond(rt.alloc())?;
    let rows = [
        (0, 0, true),
        (1, 0, true),
        (0, 1, false),
        (1, 2, false),
        (3, 0, true),
        (3, 1, true),
        (3, 2, true),
        (0, 3, false),
        (4, 0, false),
        (3, 4, false),
        (4, 4, true),
    ];
    for (tag, other, want) in rows {
        assert!(rt; tag < 5 && other < 5);
        assert_eq!(rt;
            tags.below(Tag(tag), Tag(other)),
            want,
            "of {tag} and {other}"
        );
    }
    Ok(())
}

#[test]
fn refusals(rt: HostRuntime) -> Result<(), Fail> {
    let mut tags = diamond(rt.alloc())?;
    assert_eq!(rt;
        tags.add(TagKind::Plain, &[Tag(5)]),
        Err(TagFault::UnknownTag)
    );
    assert_eq!(rt;
        tags.add(TagKind::Plain, &[Tag(4)]),
        Err(TagFault::NotCompound)
    );
    assert_eq!(rt;
        tags.add(TagKind::Plain, &[Tag(4), Tag(5)]),
        Err(TagFault::UnknownTag)
    );
    assert_eq!(rt; tags.add(TagKind::Plain, &[Tag(2)]), Ok(Tag(5)));
    assert_eq!(rt; tags.kind(Tag(2)), Some(TagKind::Compound));
    assert_eq!(rt; tags.kind(Tag(5)), Some(TagKind::Plain));
    assert_eq!(rt; tags.kind(Tag(6)), None);
    Ok(())
}

/// Whether all tags of a list are made.
fn are_made(tags: &Tags, list: &[Tag]) -> bool
    ensures { result ≡ are_made (length tags.now) list.now }
{
    list.iter().all(|tag| tag.0 < tags.count())
}

#[test]
fn tags_are_reduced(rt: HostRuntime) -> Result<(), Fail> {
    let tags = diamond(rt.alloc())?;
    let table: [(&[Tag], &[Tag]); 5] = [
        (&[], &[]),
        (&[Tag(4), Tag(3), Tag(4)], &[Tag(3), Tag(4)]),
        (&[Tag(3), Tag(0)], &[Tag(0)]),
        (&[Tag(2), Tag(1), Tag(3)], &[Tag(1), Tag(2)]),
        (&[Tag(4), Tag(1), Tag(0)], &[Tag(0), Tag(4)]),
    ];
    for (list, want) in table {
        assert!(rt; are_made(&tags, list));
        has(&rt, Label::reduce(rt.alloc(), &tags, list)?, want);
    }
    Ok(())
}

/// Tests that a label has these tags.
fn has(rt: &impl Abort, label: Label, want: &[Tag]) {
    assert_eq!(rt; label.tags(), want);
}

/// Two labels; whether the first flows to the second, their union, and what is left of the first without what is below the second.
#[derive(Clone, Copy)]
struct Pair<'a>(&'a [Tag], &'a [Tag], bool, &'a [Tag], &'a [Tag]);

#[test]
fn labels_flow_and_join(rt: HostRuntime) -> Result<(), Fail> {
    let tags = diamond(rt.alloc())?;
    let pairs = [
        Pair(&[], &[Tag(0)], true, &[Tag(0)], &[]),
        Pair(&[Tag(0)], &[], false, &[Tag(0)], &[Tag(0)]),
        // Tag 4 is apart.
        Pair(
            &[Tag(3), Tag(4)],
            &[Tag(0)],
            false,
            &[Tag(0), Tag(4)],
            &[Tag(4)],
        ),
        // A member flows to its compound, and not back.
        Pair(
            &[Tag(3), Tag(4)],
            &[Tag(0), Tag(4)],
            true,
            &[Tag(0), Tag(4)],
            &[],
        ),
        Pair(
            &[Tag(0), Tag(4)],
            &[Tag(3), Tag(4)],
            false,
            &[Tag(0), Tag(4)],
            &[Tag(0)],
        ),
    ];
    for pair in pairs {
        assert!(rt; are_made(&tags, pair.0));
        beside(&rt, rt.alloc(), &tags, &pair)?;
    }
    Ok(())
}

/// Tests what comes of two labels.
fn beside(rt: &impl Abort, alloc: Global, tags: &Tags, pair: &Pair<'_>) -> Result<(), OutOfMemory>
    requires { AreMade (length tags.now) pair.now.0.now }
{
    let first = Label::reduce(alloc, tags, pair.0)?;
    compares(rt, alloc, tags, &first, pair)
}

/// Tests what comes of a label beside the second one.
fn compares(
    rt: &impl Abort,
    alloc: Global,
    tags: &Tags,
    first: &Label,
    pair: &Pair<'_>,
) -> Result<(), OutOfMemory>
    requires { AreMade (length tags.now) first.now }
{
    assert!(rt; are_made(tags, pair.1));
    let second = Label::reduce(alloc, tags, pair.1)?;
    assert_eq!(rt; first.flows(tags, &second), pair.2);
    has(rt, first.union(alloc, tags, &second)?, pair.3);
    has(rt, first.strip(alloc, tags, &second)?, pair.4);
    Ok(())
}

#[test]
fn the_empty_label_flows(rt: HostRuntime) -> Result<(), Fail> {
    let tags = diamond(rt.alloc())?;
    let whole = Label::reduce(rt.alloc(), &tags, &[Tag(0)])?;
    let empty = Label::empty();
    assert!(rt; empty.flows(&tags, &whole));
    assert!(rt; !whole.flows(&tags, &empty));
    Ok(())
}

#[test]
fn a_label_is_shared(rt: HostRuntime) -> Result<(), Fail> {
    let tags = diamond(rt.alloc())?;
    let member = Label::reduce(rt.alloc(), &tags, &[Tag(3), Tag(4)])?;
    let same = member.share()?;
    assert_eq!(rt; same.tags(), member.tags());
    Ok(())
}
