// What no clause says: that connections are served while there is memory, what their sessions see of each other, how they
// end, and what is counted of them.

use ifdb_io::{MemoryLink, MemorySink, MemorySource};
use ifdb_session::{Counts, Ending, InMemory, SharedRoom, serve_link};
use ifdb_turn::Turnstile;
use std::alloc::Global;
use std::sync::Wait;
use std::test::Fail;

const ROOM: usize = 4096;

// A link that gives these bytes in pieces of 7 and takes 4096. Its calls of these numbers fail.
pub(crate) fn link_of(
    alloc: Global,
    input: &str,
    reads: &[u64],
    writes: &[u64],
) -> Result<MemoryLink, Fail> {
    let bytes = Vec::from_slice(alloc, input.as_bytes())?;
    Ok(MemoryLink {
        source: MemorySource::new(bytes, 7, reads.to_vec(alloc)?),
        sink: MemorySink::new(alloc, 5, ROOM, writes.to_vec(alloc)?)?,
    })
}

// Serves the links of a new room, one after another, and gives the end of each and what is counted of all.
fn serve<R: Wait>(
    rt: &R,
    alloc: Global,
    links: &mut Vec<MemoryLink>,
    limit: u32,
) -> Result<(Vec<Ending>, Counts), Fail> {
    let mut endings = Vec::with_capacity(alloc, links.len())?;
    let Ok((hall, mut pass)) = Turnstile::new(alloc, SharedRoom::opening(alloc, InMemory)?) else {
        return Err(Fail::from("no memory"));
    };
    for link in links.iter_mut() {
        let ending = serve_link(
            rt,
            alloc,
            &hall,
            &mut pass,
            &mut InMemory,
            link,
            u64::from(limit),
        );
        let _ = endings.push(ending);
    }
    let shared = hall.close(pass);
    Ok((endings, shared.counts()))
}

// Each client's requests in one connection, and its replies.
#[test]
fn clients_one_after_another(rt: HostRuntime) -> Result<(), Fail> {
    let rows = [
        ("BYE\n", "OK\n"),
        (
            "SHOW LABEL\n\nBYE\n",
            "ERR 2 NotHello\nERR 1 Syntax 0\nOK\n",
        ),
        (
            "HELLO admin KEY 'admin'\r\nCREATE TABLE note (id INT, PRIMARY KEY (id))\nINSERT INTO note VALUES (7)\n",
            "OK\nOK\nOK 1\n",
        ),
        (
            "HELLO admin KEY 'admin'\nBEGIN\nINSERT INTO note VALUES (8)\nSELECT id FROM note ORDER BY id\n",
            "OK\nOK\nOK 1\nROWS 2 1\n7\n8\n",
        ),
        (
            "HELLO admin KEY 'admin'\nSELECT id FROM note\nBYE\nSELECT id FROM note\n",
            "OK\nROWS 1 1\n7\nOK\n",
        ),
        ("HELLO admin KEY 'admin'\nDELETE FROM note", "OK\n"),
        (
            "HELLO admin KEY 'admin'\nSELECT id FROM note\n",
            "OK\nROWS 1 1\n7\n",
        ),
    ];
    let mut links = Vec::new(rt.alloc());
    for (input, _) in rows {
        links.push(link_of(rt.alloc(), input, &[], &[])?)?;
    }
    let (endings, _) = serve(&rt, rt.alloc(), &mut links, 100_000)?;
    assert_eq!(rt; endings.len(), rows.len());
    for (link, (input, want)) in links.iter().zip(rows) {
        assert_eq!(rt; link.sink.bytes(), want.as_bytes(), "of {input}");
    }
    Ok(())
}

// How connections end, by their limit and by the calls that fail.
#[test]
fn connections_end(rt: HostRuntime) -> Result<(), Fail> {
    let none: &[u64] = &[];
    let rows: [(&str, &[u64], &[u64], u32, Ending, &str); 9] = [
        ("BYE\n", none, none, 4, Ending::Bye, "OK\n"),
        ("BYE\n", none, none, 3, Ending::TooMuch, ""),
        ("BYE\nBYE\n", none, none, 7, Ending::Bye, "OK\n"),
        ("BYE", none, none, 9, Ending::End, ""),
        ("", none, none, 0, Ending::End, ""),
        ("BYE\n", &[0], none, 9, Ending::LinkRead, ""),
        ("BYE\n", none, &[0], 9, Ending::LinkWrite, ""),
        ("\nBYE\n", none, &[1], 9, Ending::LinkWrite, "ERR 1"),
        (
            "\n\n\n",
            none,
            none,
            2,
            Ending::TooMuch,
            "ERR 1 Syntax 0\nERR 1 Syntax 0\n",
        ),
    ];
    for (input, reads, writes, limit, ending, want) in rows {
        let mut links = Vec::new(rt.alloc());
        links.push(link_of(rt.alloc(), input, reads, writes)?)?;
        let (endings, _) = serve(&rt, rt.alloc(), &mut links, limit)?;
        assert_eq!(rt; endings.first(), Some(&ending), "of {input} with {limit}");
        for link in &links {
            assert_eq!(rt;
                link.sink.bytes(),
                want.as_bytes(),
                "of {input} with {limit}"
            );
        }
    }
    Ok(())
}

// A line that is too long is told so, and ends the connection.
#[test]
fn long_line_ends_a_connection(rt: HostRuntime) -> Result<(), Fail> {
    let mut bytes = vec![in rt.alloc(); b'x'; 65_536]?;
    bytes.extend_from_slice(b"\nBYE\n")?;
    let source = MemorySource::new(bytes, 40_000, Vec::new(rt.alloc()));
    let sink = MemorySink::new(rt.alloc(), 64, ROOM, Vec::new(rt.alloc()))?;
    let mut links = Vec::new(rt.alloc());
    links.push(MemoryLink { source, sink })?;
    let (endings, _) = serve(&rt, rt.alloc(), &mut links, 1_000_000)?;
    assert_eq!(rt; endings.first(), Some(&Ending::TooLong));
    for link in &links {
        assert_eq!(rt; link.sink.bytes(), b"ERR 21 TooLong\n".as_slice());
    }
    Ok(())
}

// What is counted of a new room that serves these inputs, one connection's after another's.
fn counts_of<R: Wait>(rt: &R, alloc: Global, inputs: &[&str]) -> Result<Counts, Fail> {
    let mut links = Vec::new(alloc);
    for input in inputs {
        links.push(link_of(alloc, input, &[], &[])?)?;
    }
    let (_, counts) = serve(rt, alloc, &mut links, 100_000)?;
    Ok(counts)
}

// Five numbers in the order of the fields: sessions, entries, commits, refused COMMITs, rows.
fn counts(of: [u64; 5]) -> Counts {
    let [sessions, entries, commits, refused, rows] = of;
    Counts {
        sessions,
        entries,
        commits,
        refused,
        rows,
    }
}

// Each opening, line and leaving outside a transaction is an entry; a public change is no commit, and a write is one.
#[test]
fn turns_are_counted(rt: HostRuntime) -> Result<(), Fail> {
    let rows: [(&[&str], [u64; 5]); 7] = [
        (&[], [0, 0, 0, 0, 0]),
        (&[""], [1, 2, 0, 0, 0]),
        (&["BYE\n"], [1, 2, 0, 0, 0]),
        (&["BYE\n", "\nBYE\n"], [2, 5, 0, 0, 0]),
        (
            &["HELLO admin KEY 'admin'\nCREATE TABLE note (id INT, PRIMARY KEY (id))\nBYE\n"],
            [1, 4, 0, 0, 0],
        ),
        (
            &[
                "HELLO admin KEY 'admin'\nCREATE TABLE note (id INT, PRIMARY KEY (id))\nINSERT INTO note VALUES (7)\nBYE\n",
            ],
            [1, 5, 1, 0, 1],
        ),
        (
            &[
                "HELLO admin KEY 'admin'\nCREATE TABLE note (id INT, PRIMARY KEY (id))\nINSERT INTO note VALUES (7), (8)\nDELETE FROM note WHERE id = 7\nBYE\n",
            ],
            [1, 6, 2, 0, 1],
        ),
    ];
    for (inputs, want) in rows {
        assert_eq!(rt; counts_of(&rt, rt.alloc(), inputs)?, counts(want));
    }
    Ok(())
}

// A COMMIT that goes through is a commit, also of no writes, and one that isn't in a transaction isn't a refused COMMIT: that
// is one whose label doesn't flow to what was written. ROLLBACK and a session that leaves drop what was written. BEGIN is an
// entry, and the end of a transaction is one with all its lines.
#[test]
fn transactions_are_counted(rt: HostRuntime) -> Result<(), Fail> {
    let rows: [(&[&str], [u64; 5]); 5] = [
        (
            &[
                "HELLO admin KEY 'admin'\nCREATE TABLE note (id INT, PRIMARY KEY (id))\nBEGIN\nINSERT INTO note VALUES (7)\nCOMMIT\nBYE\n",
            ],
            [1, 6, 1, 0, 1],
        ),
        (
            &["HELLO admin KEY 'admin'\nBEGIN\nCOMMIT\nCOMMIT\nBYE\n"],
            [1, 6, 1, 0, 0],
        ),
        (
            &[
                "HELLO admin KEY 'admin'\nCREATE TAG a\nCREATE TABLE note (id INT, PRIMARY KEY (id))\nBEGIN\nINSERT INTO note VALUES (7)\nSET LABEL (a)\nCOMMIT\n",
            ],
            [1, 7, 0, 1, 0],
        ),
        (
            &[
                "HELLO admin KEY 'admin'\nCREATE TABLE note (id INT, PRIMARY KEY (id))\nBEGIN\nINSERT INTO note VALUES (7)\nROLLBACK\nBYE\n",
            ],
            [1, 6, 0, 0, 0],
        ),
        (
            &[
                "HELLO admin KEY 'admin'\nCREATE TABLE note (id INT, PRIMARY KEY (id))\nINSERT INTO note VALUES (7)\n",
                "HELLO admin KEY 'admin'\nBEGIN\nDELETE FROM note\n",
            ],
            [2, 9, 1, 0, 1],
        ),
    ];
    for (inputs, want) in rows {
        assert_eq!(rt; counts_of(&rt, rt.alloc(), inputs)?, counts(want));
    }
    Ok(())
}
