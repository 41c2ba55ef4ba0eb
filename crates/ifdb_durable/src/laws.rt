//! What is true of every history of appends. The function does nothing: its contract is the law.
ghost use Rattle.ifdb_durable.specs.Worth.{AppendsKeep};

use ifdb_disk::Disk;

/// Of a history of appends, what one kept stands first in what each later one kept; and a crash at any moment since it, up to
/// the later one, leaves a front of those that the later one kept, which has all that it kept.
pub fn appends_keep<D: Disk>()
    ensures { AppendsKeep D.row.Denot D.tells }
{}
