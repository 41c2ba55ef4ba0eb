// Laws of what is heard: functions that do nothing, whose contracts are proved of `specs/` alone.
ghost use Rattle.ifdb_keyed.specs.Laws.{OnlyTheKeyIsAdmin, OtherKeysAreNone, OthersAreAsSaid, TheKeyIsAdmin};

/// Nobody is heard as admin but who says HELLO of admin with the server's key, and that one is.
pub fn admin_is_heard_by_key()
    ensures only { OnlyTheKeyIsAdmin }
    ensures key { TheKeyIsAdmin }
    ensures none { OtherKeysAreNone }
{}

/// Each line that is no HELLO of admin is heard as it was said.
pub fn others_are_heard_as_said()
    ensures { OthersAreAsSaid }
{}
