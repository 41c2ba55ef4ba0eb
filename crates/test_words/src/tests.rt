//! Lines of words and what they ask for, by hand from the table of commands.
mod commands;
mod files;
mod levels;

use ifdb_words::{OutOfMemory, Service};
use std::alloc::Global;
use std::test::Fail;

/// What words ask for, as numbers: which command, and the numbers that it has.
type Asked = [u64; 5];

/// The limit where none is said.
const GIBI: u64 = 1 << 30;

/// The words of a line.
fn words_of(alloc: Global, line: &str) -> Result<Vec<String>, Fail> {
    let mut words = Vec::new(alloc);
    for word in line.split_whitespace() {
        words.push(String::from_str(alloc, word)?)?;
    }
    Ok(words)
}

/// How a database is to be served, as numbers.
fn numbers_of_service(service: Service) -> Asked {
    [
        1,
        u64::from(service.port),
        service.workers as u64,
        service.links,
        service.limit,
    ]
}

/// A word of so many letters.
fn letters(alloc: Global, count: usize) -> Result<String, OutOfMemory> {
    let mut word = String::new(alloc);
    for _ in 0..count {
        word.push_str("a")?;
    }
    Ok(word)
}
