//! Tests of `query`: SELECTs over three tables and a view.
#![tactic(auto)]

#[cfg(test)]
mod tests;
