// Laws of the definitions: each function's contract is one, and it does nothing.
ghost use Rattle.ifdb_authority.specs.Laws.{StepsSuffice, CompoundsGiveMembers, MoreGrantsHoldMore, GrantChangesOne, RevocationChangesOne, GrantsStandOnce};

/// Whoever holds a made tag by a chain of any length holds it by one of at most as many steps as there are grants and tags.
pub fn steps_suffice()
    ensures { StepsSuffice }
{}

/// Whoever holds a tag holds each tag below it, so each member of a compound, at any depth.
pub fn compounds_give_members()
    ensures { CompoundsGiveMembers }
{}

/// Whoever holds a tag holds it when more grants stand.
pub fn more_grants_hold_more()
    ensures { MoreGrantsHoldMore }
{}

/// A grant makes that grant stand, a revocation takes it away, and every other grant stands as before.
pub fn changes_touch_one_grant()
    ensures grant { GrantChangesOne }
    ensures revocation { RevocationChangesOne }
{}

/// However often a grant is given, it stands once.
pub fn grants_stand_once()
    ensures { GrantsStandOnce }
{}
