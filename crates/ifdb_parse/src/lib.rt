//! Reading a line as a request.
#![tactic(auto)]

mod authority;
mod conditions;
mod creations;
mod expressions;
mod fault;
mod items;
mod join;
mod kinds;
mod laws;
mod lexemes;
mod limits;
mod line;
mod list;
mod names;
mod queries;
mod requests;
mod shared;
mod statements;
mod stop;
mod tables;
mod way_back;
mod words;

pub use fault::ParseFault;
pub use laws::{parser_reads_the_grammar, requests_are_read};
pub use lexemes::{lexemes_of, without_return};
pub use line::parse;
pub use way_back::{canonical_text_reads_back, requests_read_back};
