// Who is inside a level.
ghost use Rattle.std.specs.Prelude.{◌≡◌};
ghost use Rattle.ifdb_label.specs.Label.{flows, is_below_some};
ghost use Rattle.ifdb_label.specs.Tags.{below};
ghost use Rattle.ifdb_model.specs.Low.{is_inside};
ghost use Rattle.ifdb_model.specs.Run.{State};
ghost use Rattle.ifdb_db.specs.Room.{StandsFor};

use ifdb_db::Room;
use ifdb_label::{Tag, Tags};

/// Whether a session is inside a level: each tag of its label is below some tag of the level. A session that was never
/// opened is. A tag of the level that isn't made is above none but itself.
pub(crate) fn is_inside(room: &Room, session: u64, level: &[Tag]) -> bool
    ensures { (st : State) → StandsFor room.now st → result ≡ is_inside level.now st session }
{
    match room.label(session) {
        None => true,
        Some(label) => flow_to(room.tags(), label.tags(), level),
    }
}

/// Whether each tag of a list is below some tag of the level.
fn flow_to(tags: &Tags, list: &[Tag], level: &[Tag]) -> bool
    ensures { result ≡ flows tags.now list.now level.now }
{
    list.iter().all(|tag| is_below_some(tags, *tag, level))
}

/// Whether a tag is below some tag of the level.
fn is_below_some(tags: &Tags, tag: Tag, level: &[Tag]) -> bool
    ensures { result ≡ is_below_some tags.now tag level.now }
{
    level.iter().any(|other| is_below(tags, tag, *other))
}

/// Whether a tag is the other one or a member of it, at any depth; neither need be made.
fn is_below(tags: &Tags, tag: Tag, other: Tag) -> bool
    ensures { result ≡ below tags.now tag other }
{
    tag == other || tags.ancestors(tag).contains(&other)
}
