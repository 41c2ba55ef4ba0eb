//! The tokens of a line: words, numbers, texts and symbols, each with the places of its bytes.
#![tactic(auto)]

mod fault;
mod front;
mod lexer;
mod limits;
mod line;
mod token;

pub use fault::LexFault;
pub use lexer::lex;
pub use token::{Token, TokenKind, Tokens};
