//! A turnstile: threads take turns at one object, and one history tells all that was done in these turns.
//!
//! The history exists in proofs alone. Each thread has a `Pass`, which knows a beginning of the history and which of
//! its entries are the pass's own. `Turnstile::enter` waits for a `Turn`, in which the pass learns the whole history
//! and has the object. `Turn::done` adds one entry, `Turn::leave` adds none. Passes are split for new threads and
//! joined again, and the one that has all shares closes the turnstile.
#![tactic(auto)]

mod gate;
mod kinds;
mod object;
mod turn;
mod turnstile;
mod view;

pub use kinds::NamedEntry;
pub use object::Object;
pub use turn::Turn;
pub use turnstile::{NoTurnstile, Pass, Turnstile};
