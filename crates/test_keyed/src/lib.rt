//! Tests of what is heard of lines by a server with a key for admin, and of keys in files.
#![tactic(auto)]

#[cfg(test)]
mod tests;
