// What a principal's clearance says of its connections.
ghost use Rattle.ifdb_session.specs.Cleared.{ClearedStayInside};

/// A connection that said HELLO as a principal whose clearance flows to a level is inside that level in the one history, from its first turn
/// on. A law: it does nothing.
pub fn cleared_stay_inside()
    ensures { ClearedStayInside }
{}
