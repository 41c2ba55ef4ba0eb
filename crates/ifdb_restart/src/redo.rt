// One redo record, from its bytes.
ghost use Rattle.std.specs.Prelude.{◌≡◌, Err, OnErr, OnOk, length};
ghost use Rattle.ifdb_restart.specs.Restarted.{HasOneMore, IsLonger, IsUnfit};

use ifdb_db::{RedoFault, ServedRoom};
use ifdb_history::GhostList;
use ifdb_redo::{ReadFault, RedoRecord, read_record};
use std::alloc::Global;

/// The records that were made again, in their order, which contracts alone see. It takes no memory.
pub type Made = GhostList<RedoRecord, ()>;

/// Makes the entry again that some bytes record, whatever they are, in a room that nobody has a session in. Takes the memory and the
/// time of the entry, and of its bytes.
///
/// # Errors
/// `DoesNotFit` only where the bytes are no record, or the record restores no log behind what the room stands for; `OutOfMemory`. Whatever
/// the error, the room is as before.
pub fn redo_text(
    alloc: Global,
    room: &mut ServedRoom,
    text: &[u8],
    made: &mut Made,
) -> Result<(), RedoFault>
    requires nobody { length room.old.clients ≡ 0 }
    ensures done { OnOk result (IsLonger room.old room.new text.now) }
    ensures made { OnOk result (HasOneMore made.old.items made.new.items text.now) }
    ensures unfit { result ≡ Err RedoFault.DoesNotFit → IsUnfit room.old text.now }
    ensures clients { room.new.clients ≡ room.old.clients }
    ensures err { OnErr result (room.new ≡ room.old) }
{
    let record = match read_record(alloc, text) {
        Ok(record) => record,
        Err(ReadFault::Broken) => return Err(RedoFault::DoesNotFit),
        Err(ReadFault::OutOfMemory) => return Err(RedoFault::OutOfMemory),
    };
    *made = made.and(&record, &());
    room.redo(record)
}
