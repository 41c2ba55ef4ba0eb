// A session of a desk.
use ifdb_session::Seat;

/// A session as its connection has it.
#[derive(Drop)]
pub struct Place {
    pub(crate) seat: Seat,
    // Whether it is open.
    pub(crate) is_open: bool,
}
