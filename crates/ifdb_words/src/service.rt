// What `serve` is asked for.

/// What `serve` is asked for.
#[derive(Clone, Copy, Debug, PartialEq, Eq)]
pub struct Service {
    /// The port that connections come through: from 1 to 65,535.
    pub port: u16,
    /// How many connections are served at a time: from 1 to 64.
    pub workers: usize,
    /// How many connections are taken at most: from 1 to 1,000,000.
    pub links: u64,
    /// How many bytes of each connection are taken: from 1 to 2^40.
    pub limit: u64,
}
