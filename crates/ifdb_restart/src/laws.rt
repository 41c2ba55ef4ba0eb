// What a restart makes of a served database's records.
ghost use Rattle.ifdb_restart.specs.Laws.{FirstTextsAddAFront, FirstTextsRestoreAFront};

use ifdb_restore::{fronts_restore, runs_are_restored};

/// The first texts of a run's records restore the first entries of its log, one each. A law: it does nothing.
pub fn first_texts_restore_a_front()
    ensures { FirstTextsRestoreAFront }
{
    runs_are_restored();
    fronts_restore();
}

/// Behind texts that restore a log, the first texts of the records of a run from that log restore it with the first entries that the
/// run adds, one each. A law: it does nothing.
pub fn first_texts_add_a_front()
    ensures { FirstTextsAddAFront }
{
    fronts_restore();
}
