//! Tests of `answer`: SELECTs over plain rows.
#![tactic(auto)]

#[cfg(test)]
mod tests;
