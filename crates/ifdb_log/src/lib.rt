//! The file of a served database: a title, and behind it a journal of redo records.
#![tactic(auto)]

mod behind;
mod fault;
mod laws;
mod origin;
mod pieces;
mod reading;
mod title;

pub use behind::Behind;
pub use fault::LogFault;
pub use laws::{
    behind_images, behind_leaves, damaged_has_no_texts, fronts_are_first_texts, journal_is_other,
    texts_are_read_again, title_is_damage,
};
pub use origin::Origin;
pub use pieces::{PIECE_SIZE, Piece, Pieces, longest_text};
pub use reading::Log;
pub use title::{TITLE_SIZE, entitle};
