//! Rows in versions: a content that any number of snapshots share.
#![tactic(auto)]

mod branch;
mod content;
mod entry;
mod even;
mod join;
mod laws;
mod limb;
mod links;
mod mark;
mod node;
mod page;
mod part;
mod print;
mod put;
mod room;
mod search;
mod share;
mod splice;
mod steps;
mod store;
mod tree;
mod twig;

pub use content::Content;
pub use laws::stands_for_a_log;
pub use steps::Steps;
pub use store::Store;
