// Scripts behind a beginning.
use std::alloc::Global;
use std::test::Fail;

/// What a script begins with, and what is written for that.
#[derive(Clone, Copy)]
pub struct Begun(pub &'static [u8], pub &'static [u8]);

/// An administrator with two tags and a table of notes, and a guest.
pub const NOTES: Begun = Begun(
    b"OPEN\n1 HELLO admin KEY 'admin'\n1 CREATE TAG a\n1 CREATE TAG b\n\
    1 CREATE TABLE note (id INT, body TEXT, PRIMARY KEY (id))\n1 CREATE PRINCIPAL guest KEY 'g'\nOPEN\n2 HELLO guest KEY 'g'\n",
    b"1 OPEN\n1 OK\n1 OK\n1 OK\n1 OK\n1 OK\n2 OPEN\n2 OK\n",
);

/// The same, with a table of visits, each of which is bound to a note.
pub const VISITS: Begun = Begun(
    b"OPEN\n1 HELLO admin KEY 'admin'\n1 CREATE TAG a\n1 CREATE TAG b\n\
    1 CREATE TABLE note (id INT, body TEXT, PRIMARY KEY (id))\n1 CREATE PRINCIPAL guest KEY 'g'\nOPEN\n2 HELLO guest KEY 'g'\n\
    1 CREATE TABLE visit (v INT, note_id INT, PRIMARY KEY (v), FOREIGN KEY (note_id) REFERENCES note)\n",
    b"1 OPEN\n1 OK\n1 OK\n1 OK\n1 OK\n1 OK\n2 OPEN\n2 OK\n1 OK\n",
);

/// Two texts, one behind the other.
pub fn both(alloc: Global, first: &[u8], second: &[u8]) -> Result<Vec<u8>, Fail> {
    let mut bytes = Vec::from_slice(alloc, first)?;
    bytes.extend_from_slice(second)?;
    Ok(bytes)
}
