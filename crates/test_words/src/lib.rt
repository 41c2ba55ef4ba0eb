//! Tests of the words of the command line: lines of words and what they ask for.
#![tactic(auto)]

#[cfg(test)]
mod tests;
