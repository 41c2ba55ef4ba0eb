//! What a served database acknowledges is on its disk, by group commit: records wait in a queue, in the order of the one
//! history, and one thread at a time appends all that wait.
//!
//! The `Queue` lies with what the turns of all connections are taken at. The `Writer` has the journal and its disk, and
//! threads take turns at it too. The `Mark` says how many records are on the disk, and a `Receipt` is what a connection was
//! told of that: it writes a reply only with a receipt for all that the reply was answered from. `GroupCommit` stands round
//! the writer and the mark.
#![tactic(auto)]

mod gives;
mod group;
mod kinds;
mod laws;
mod mark;
mod naming;
mod queue;
mod reply;
mod view;
mod writer;

pub use gives::Gives;
pub use group::{GroupCommit, Member};
pub use laws::appends_keep;
pub use mark::{Mark, Opened, Receipt};
pub use naming::Naming;
pub use queue::Queue;
pub use reply::write_reply;
pub use view::{Flush, Hand, Told};
pub use writer::{Begun, Writer};
