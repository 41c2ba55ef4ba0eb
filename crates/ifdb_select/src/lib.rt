//! SELECT with numbers for its names: sources, and expressions, conditions and items over them.
#![tactic(auto)]

mod kinds;
mod meaning;
mod named;
mod outputs;
mod queries;
mod scope;
mod sources;
mod statement;
mod terms;

pub use ifdb_catalog::OutOfMemory;
pub use kinds::{accepts, agree, expr_kind, have_one_kind, takes, where_fits};
pub use named::{Named, are_distinct, place_named, times};
pub use outputs::{OutputName, output_names};
pub use queries::{bound_select, key_places, scope_of};
pub use scope::{ScopeSource, kind_at};
pub use sources::{columns_of, relation_named, source};
pub use statement::{select, select_fits};
pub use terms::{bound_expr, bound_where};
