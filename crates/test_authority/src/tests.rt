ghost use Rattle.std.specs.Prelude.{◌<◌, length};

use ifdb_authority::{Authority, GrantFault, OutOfMemory};
use ifdb_label::{Tag, TagFault, TagKind, Tags};
use ifdb_value::Principal;
use std::alloc::Global;
use std::process::Abort;
use std::test::Fail;

#[derive(Clone, Copy)]
enum Call {
    Grant,
    Revoke,
    Holds,
    Copy,
}

use Call::{Copy, Grant, Holds, Revoke};

/// A call: who, of which tag, to whom, and whether that is done or so.
struct Row(Call, u64, u64, u64, bool);

/// Alice (0) grants to guest (1), who grants to a helper (2).
static CHAIN: [Row; 13] = [
    Row(Grant, 0, 2, 1, true),
    Row(Grant, 0, 2, 1, true),
    Row(Grant, 1, 2, 2, true),
    Row(Holds, 2, 2, 2, true),
    Row(Copy, 0, 0, 0, true),
    Row(Revoke, 0, 2, 1, true),
    Row(Holds, 1, 2, 1, false),
    Row(Holds, 2, 2, 2, false),
    Row(Revoke, 0, 2, 1, false),
    Row(Grant, 1, 2, 2, false),
    Row(Grant, 0, 2, 1, true),
    Row(Holds, 2, 2, 2, true),
    Row(Holds, 0, 2, 0, true),
];

/// Guest and helper grant to each other, and no one else to them.
static CYCLE: [Row; 6] = [
    Row(Grant, 0, 2, 1, true),
    Row(Grant, 1, 2, 2, true),
    Row(Grant, 2, 2, 1, true),
    Row(Revoke, 0, 2, 1, true),
    Row(Holds, 1, 2, 1, false),
    Row(Holds, 2, 2, 2, false),
];

/// Guest is granted the whole compound, and grants the one in it to the helper.
static COMPOUNDS: [Row; 9] = [
    Row(Grant, 0, 0, 1, true),
    Row(Grant, 1, 1, 2, true),
    Row(Holds, 1, 0, 1, true),
    Row(Holds, 1, 2, 1, true),
    Row(Holds, 1, 3, 1, false),
    Row(Holds, 2, 0, 2, false),
    Row(Holds, 2, 1, 2, true),
    Row(Holds, 2, 2, 2, true),
    Row(Holds, 2, 3, 2, true),
];

/// A compound, a compound in it, a plain tag in that one, and a plain tag apart.
fn nested(alloc: Global) -> Result<Tags, TagFault> {
    let mut tags = Tags::new(alloc);
    tags.add(TagKind::Compound, &[])?;
    tags.add(TagKind::Compound, &[Tag(0)])?;
    tags.add(TagKind::Plain, &[Tag(1)])?;
    tags.add(TagKind::Plain, &[])?;
    Ok(tags)
}

fn granted(authority: &mut Authority, tags: &Tags, tag: Tag, row: &Row) -> Result<bool, OutOfMemory>
    requires { tag < length tags.now }
{
    match authority.grant(tags, Principal(row.1), tag, Principal(row.3)) {
        Ok(()) => Ok(true),
        Err(GrantFault::NoAuthority) => Ok(false),
        Err(GrantFault::OutOfMemory) => Err(OutOfMemory),
    }
}

fn copied(authority: &mut Authority) -> Result<bool, OutOfMemory> {
    *authority = authority.copy()?;
    Ok(true)
}

fn answer(authority: &mut Authority, tags: &Tags, tag: Tag, row: &Row) -> Result<bool, OutOfMemory>
    requires { tag < length tags.now }
{
    match row.0 {
        Grant => granted(authority, tags, tag, row),
        Revoke => Ok(
            authority
                .revoke(Principal(row.1), tag, Principal(row.3))
                .is_ok(),
        ),
        Holds => authority.holds(tags, Principal(row.1), tag),
        Copy => copied(authority),
    }
}

/// The first three tags are alice's, and the last is the helper's.
fn run(rt: &impl Abort, alloc: Global, rows: &[Row]) -> Result<(), Fail> {
    let tags = nested(alloc)?;
    let mut authority = Authority::new(alloc);
    for owner in [0, 0, 0, 2] {
        authority.made(Principal(owner))?;
    }
    for row in rows {
        let tag = Tag(row.2);
        assert!(rt; tag.0 < tags.count());
        let done = answer(&mut authority, &tags, tag, row)?;
        assert_eq!(rt; done, row.4, "{} {} {}", row.1, row.2, row.3);
    }
    Ok(())
}

#[test]
fn a_chain_of_grants(rt: HostRuntime) -> Result<(), Fail> {
    run(&rt, rt.alloc(), &CHAIN)
}

#[test]
fn a_cycle_of_grants(rt: HostRuntime) -> Result<(), Fail> {
    run(&rt, rt.alloc(), &CYCLE)
}

#[test]
fn compounds(rt: HostRuntime) -> Result<(), Fail> {
    run(&rt, rt.alloc(), &COMPOUNDS)
}
