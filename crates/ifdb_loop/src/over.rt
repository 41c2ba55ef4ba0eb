// A connection that is over.
use crate::Ending;

/// A connection that is over, as it is given back.
#[derive(Drop)]
pub struct Over<P> {
    /// The connection.
    pub port: P,
    /// How it ended.
    pub ending: Ending,
}
