//! The rows of declassifying views, and what a SELECT answers over tables and views.
//!
//! Declassifying views are those of IFDB (D. Schultz and B. Liskov, EuroSys 2013) in kind; their exact rules are this
//! project's own.
#![tactic(auto)]

mod answer;
mod fault;
mod sources;
mod table;
mod view_label;
mod view_rows;
mod views;

pub use answer::query;
pub use fault::ViewFault;
pub use std::alloc::AllocError as OutOfMemory;
pub use view_rows::rows_of;
pub use views::Views;
