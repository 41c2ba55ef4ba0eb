// What stands at a gate.
ghost use Rattle.std.specs.Prelude.{◌≡◌};
ghost use Rattle.ifdb_journal.specs.Found.{IsFound, is_broken};

use crate::RecordKind;
use crate::text::{kind_from, may_stand};

// What stands at a gate.
#[derive(Clone, Copy, Debug, PartialEq, Eq)]
pub(crate) enum Found {
    // The gate is closed.
    Shut,
    // A record of this kind and session, with a line of so many bytes.
    Whole(RecordKind, u64, usize),
    // No record.
    Broken,
}

impl Found {
    pub(crate) fn is_broken(self) -> bool
        ensures { result ≡ is_broken self }
    {
        match self {
            Found::Broken => true,
            _ => false,
        }
    }
}

// What stands at the gate that a text begins with.
pub(crate) fn look_at(text: &[u8]) -> Found
    ensures { IsFound text.now result }
{
    let Some((gate, rest)) = text.split_first() else {
        return Found::Broken;
    };
    if *gate == 0 {
        return Found::Shut;
    }
    if rest.len() < 14 {
        return Found::Broken;
    }
    let kind = rest[0];
    let session = u64::from_be_bytes([
        rest[1], rest[2], rest[3], rest[4], rest[5], rest[6], rest[7], rest[8],
    ]);
    let size = u32::from_be_bytes([rest[9], rest[10], rest[11], rest[12]]) as usize;
    if !may_stand(kind, session, size) || rest.len() <= 13 + size {
        return Found::Broken;
    }
    Found::Whole(kind_from(kind), session, size)
}
