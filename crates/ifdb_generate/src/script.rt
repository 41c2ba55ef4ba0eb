// The script, round by round.
ghost use Rattle.std.specs.Prelude.{◌≡◌, ◌<◌, ◌++◌, IfOk, OnErr, OnOk};
ghost use Rattle.std.specs.Io.KnownBytes.{Appends};
ghost use Rattle.ifdb_io.specs.Causes.{HasCause, WritesShort};
ghost use Rattle.ifdb_generate.specs.Script.{drawn_after, rounds, script};

use crate::OutOfMemory;
use crate::round::round;
use crate::size::Size;
use ifdb_io::{Failed, Sink, write_all};
use std::alloc::Global;

/// The first session with its tags and table, and the other sessions.
const SETUP: &str =
    "OPEN\n1 HELLO admin KEY 'admin'\n1 CREATE TAG t0\n1 CREATE TAG t1\n1 CREATE TAG t2\n1 CREATE TAG t3\n1 CREATE TABLE item (id INT, qty INT, PRIMARY KEY (id))\nOPEN\n2 HELLO admin KEY 'admin'\nOPEN\n3 HELLO admin KEY 'admin'\nOPEN\n4 HELLO admin KEY 'admin'\n";

/// Writes the script with so many INSERTs, a round at a time, and takes no memory. In time its length, which is under 100 bytes for
/// each INSERT. `Failed` where the output failed: then a front of the script was written.
pub fn generate<W: Sink>(size: Size, output: &mut W) -> Result<(), Failed>
    ensures ok { OnOk result (Appends (W.written output.old) (W.written output.new) (script size)) }
    ensures err { OnErr result
        (WritesShort (W.written output.old) (W.written output.new) (script size)) }
    ensures cause { HasCause (W.faults output.old) (W.faults output.new) result }
{
    write_all(output, SETUP.as_bytes())?;
    write_rounds(output, size)
}

/// Writes all rounds.
fn write_rounds<W: Sink>(output: &mut W, size: Size) -> Result<(), Failed>
    ensures ok { OnOk result
        (Appends (W.written output.old) (W.written output.new) (rounds size size)) }
    ensures err { OnErr result
        (WritesShort (W.written output.old) (W.written output.new) (rounds size size)) }
    ensures cause { HasCause (W.faults output.old) (W.faults output.new) result }
{
    let mut draw = 1;
    for done in 0..size.inserts() {
        draw = next(draw);
        write_all(output, round(size, done + 1, draw).as_str().as_bytes())?;
    }
    Ok(())
}

/// The script with so many INSERTs, in memory.
pub fn generated(alloc: Global, size: Size) -> Result<Vec<u8>, OutOfMemory>
    ensures { IfOk result (λ text. text.items ≡ script size) }
{
    let mut text = Vec::new(alloc);
    text.extend_from_slice(SETUP.as_bytes())?;
    put_rounds(&mut text, size)?;
    Ok(text)
}

/// Adds all rounds.
fn put_rounds(text: &mut Vec<u8>, size: Size) -> Result<(), OutOfMemory>
    ensures { OnOk result (text.new.items ≡ text.old.items ++ rounds size size) }
{
    let mut draw = 1;
    for done in 0..size.inserts() {
        draw = next(draw);
        text.extend_from_slice(round(size, done + 1, draw).as_str().as_bytes())?;
    }
    Ok(())
}

/// What is drawn next.
fn next(draw: u64) -> u64
    requires { draw < 65537 }
    ensures next { result ≡ drawn_after draw }
    ensures small { result < 65537 }
{
    (draw * 75 + 74) % 65537
}
