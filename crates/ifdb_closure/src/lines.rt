// The lines that the session of a CALL is asked.
ghost use Rattle.std.specs.Prelude.{◌≡◌, ◌<◌, ◌++◌, ◌∷◌, true, [], IfOk, length, map, slice_index_or};
ghost use Rattle.ifdb_label.specs.Tags.{are_made};
ghost use Rattle.ifdb_syntax.specs.canonical.Text.{canonical_text};
ghost use Rattle.ifdb_syntax.specs.declared.request.Request.TheVariants as request;
ghost use Rattle.ifdb_catalog.specs.Public.{tag_names};
ghost use Rattle.ifdb_db.specs.Room.{client_in};
ghost use Rattle.ifdb_closure.specs.Closures.{begin_line, names_of};

use crate::statements::Statement;
use ifdb_db::Room;
use ifdb_label::Tag;
use ifdb_syntax::{Request, print};
use ifdb_value::{Name, Names, OutOfMemory, Sequence};
use std::alloc::Global;

const BEGIN: &[u8] = b"BEGIN";

/// The lines of a CALL but for its COMMIT: all but the last one, and the last one.
#[derive(Drop)]
pub(crate) struct Lines<'a> {
    pub(crate) front: Vec<&'a [u8]>,
    pub(crate) last: &'a [u8],
}

impl<'a> Lines<'a> {
    /// HELLO of the owner, SET LABEL to the caller's label, BEGIN and the statements.
    pub(crate) fn of(
        alloc: Global,
        hello: &'a [u8],
        label: &'a [u8],
        statements: &'a [Statement],
    ) -> Result<Self, OutOfMemory>
        ensures { IfOk result (λ lines. map (λ l. l.now) lines.front.items ++ lines.last.now ∷ []
            ≡ hello.entry.now ∷ label.entry.now ∷ begin_line ∷ statements.entry.now) }
    {
        let mut front = Vec::with_capacity(alloc, statements.len() + 2)?;
        front.push(hello)?;
        front.push(label)?;
        let mut last = BEGIN;
        for statement in statements {
            front.push(last)?;
            last = statement.as_bytes();
        }
        Ok(Lines { front, last })
    }
}

/// SET LABEL to the label of a session.
pub(crate) fn label_line(alloc: Global, room: &Room, n: u64) -> Result<Vec<u8>, OutOfMemory>
    requires made { are_made (length (tag_names room.now.desk.seen.public))
        (client_in room.now n).label ≡ true }
    ensures { IfOk result (λ line. line.items ≡ canonical_text (request.SetLabel
        (names_of room.now.desk.seen.public (client_in room.now n).label))) }
{
    let tags = label_names(alloc, room, n)?;
    line_of(alloc, Request::SetLabel { tags })
}

/// The line that says a request: its canonical text.
pub(crate) fn line_of(alloc: Global, request: Request) -> Result<Vec<u8>, OutOfMemory>
    ensures { IfOk result (λ line. line.items ≡ canonical_text request) }
{
    print(alloc, &request)
}

/// The names of a session's label.
fn label_names(alloc: Global, room: &Room, n: u64) -> Result<Names, OutOfMemory>
    requires made { are_made (length (tag_names room.now.desk.seen.public))
        (client_in room.now n).label ≡ true }
    ensures { IfOk result (λ names.
        names ≡ names_of room.now.desk.seen.public (client_in room.now n).label) }
{
    match room.label(n) {
        Some(label) => names_of(alloc, room, label.tags()),
        None => Ok(Sequence::new(alloc)),
    }
}

/// The names of tags that are made.
fn names_of(alloc: Global, room: &Room, tags: &[Tag]) -> Result<Names, OutOfMemory>
    requires made { are_made (length (tag_names room.now.desk.seen.public)) tags.now ≡ true }
    ensures { IfOk result (λ names. names ≡ names_of room.now.desk.seen.public tags.now) }
{
    let mut names = Sequence::with_capacity(alloc, tags.len())?;
    for tag in tags {
        names.push(name_of(alloc, room, *tag)?)?;
    }
    Ok(names)
}

/// The name of a tag that is made.
fn name_of(alloc: Global, room: &Room, tag: Tag) -> Result<Name, OutOfMemory>
    requires made { tag < length (tag_names room.now.desk.seen.public) }
    ensures { IfOk result (λ name.
        name ≡ slice_index_or (tag_names room.now.desk.seen.public) tag []) }
{
    match room.tag_name(tag) {
        Some(name) => name.share(),
        None => unreachable!(),
    }
}
