//! Tests of `value` and `holds`: expressions and conditions over one row and two.
#![tactic(auto)]

#[cfg(test)]
mod tests;
