//! What statements write, over plain rows of three tables: `note (id, number)`, `visit (id, note)` and `pair (id, note)`, each
//! keyed by id.
//!
//! Each kind of statement has a table of cases in a module of its own; `public` asks over a public state.
mod comparisons;
mod delete;
mod insert;
mod public;
mod rows;
mod statements;
mod tables;
mod update;
