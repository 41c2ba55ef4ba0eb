//! That the text is the one that was meant: what no clause says.
use crate::{OutOfMemory, Size, generated};
use std::alloc::Global;
use std::test::Fail;

/// The script with one INSERT, written by hand.
const ONE: &[u8] = b"OPEN
1 HELLO admin KEY 'admin'
1 CREATE TAG t0
1 CREATE TAG t1
1 CREATE TAG t2
1 CREATE TAG t3
1 CREATE TABLE item (id INT, qty INT, PRIMARY KEY (id))
OPEN
2 HELLO admin KEY 'admin'
OPEN
3 HELLO admin KEY 'admin'
OPEN
4 HELLO admin KEY 'admin'
2 SET LABEL (t2)
2 INSERT INTO item VALUES (1, 149)
";

#[test]
fn one_insert(rt: HostRuntime) -> Result<(), Fail> {
    let text = text_of(rt.alloc(), 1)?;
    assert!(rt; &text[..] == ONE);
    Ok(())
}

#[test]
fn so_many_lines(rt: HostRuntime) -> Result<(), Fail> {
    assert!(rt; lines(&text_of(rt.alloc(), 8)?) == 31);
    assert!(rt; lines(&text_of(rt.alloc(), 1_000)?) == 2_263);
    Ok(())
}

#[test]
fn sizes(rt: HostRuntime) -> Result<(), Fail> {
    assert!(rt; Size::new(0).is_none());
    assert!(rt; Size::new(1).is_some());
    assert!(rt; Size::new(10_000).is_some());
    assert!(rt; Size::new(10_001).is_none());
    Ok(())
}

/// The script with so many INSERTs; no text where there is none.
fn text_of(alloc: Global, inserts: u64) -> Result<Vec<u8>, OutOfMemory> {
    match Size::new(inserts) {
        Some(size) => generated(alloc, size),
        None => Ok(Vec::new(alloc)),
    }
}

/// How many lines a text has.
fn lines(text: &[u8]) -> usize {
    let mut count: usize = 0;
    for byte in text {
        if *byte == b'\n' {
            count = count.saturating_add(1);
        }
    }
    count
}
