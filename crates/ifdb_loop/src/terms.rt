// What connections are allowed, and what time it is for them.

/// What each connection of a loop is allowed.
#[derive(Clone, Copy)]
pub struct Terms {
    /// The most connections at a time.
    pub connections: usize,
    /// How many seconds a connection has for its first line.
    pub hello: u64,
    /// For how many seconds nothing may come of a connection.
    pub idle: u64,
    /// For how many seconds a client may take nothing of what it is owed.
    pub stall: u64,
}

/// The terms at a moment.
#[derive(Clone, Copy)]
pub struct Timing {
    /// The terms.
    pub terms: Terms,
    /// The second that it is now, from any beginning.
    pub now: u64,
}
