//! Tests of `lex`: lines with the tokens, or the fault, that the written rules give them.
#![tactic(auto)]

#[cfg(test)]
mod tests;
