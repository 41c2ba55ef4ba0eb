// Faults and cuts: of a connection's calls, of a door, by the limit, and of a script that ends anywhere.
ghost use Rattle.std.specs.Prelude.{◌<◌};

use super::*;
use ifdb_io::MemoryDoor;

// What the first of three connections sends: a transaction that it doesn't end.
const FIRST: &str =
    "HELLO admin KEY 'admin'\nCREATE TABLE note (id INT, PRIMARY KEY (id))\nBEGIN\nINSERT INTO note VALUES (1)\n";

const SECOND: &str =
    "HELLO admin KEY 'admin'\nSELECT id FROM note\nINSERT INTO note VALUES (2)\nBYE\n";

const THIRD: &str = "HELLO admin KEY 'admin'\nSELECT id FROM note\nBYE\n";

// What they are answered where nothing fails.
const FIRST_REPLIES: &str = "OK\nOK\nOK\nOK 1\n";

const SECOND_REPLIES: &str = "OK\nROWS 0 1\nOK 1\nOK\n";

const THIRD_REPLIES: &str = "OK\nROWS 1 1\n2\nOK\n";

// A service of the three connections: the limit, the bytes that a call of the first connection gives or takes, which of its reads
// and writes and which call of the door fails, what the connections are answered, and the summary.
struct Case {
    limit: u32,
    piece: usize,
    read: Option<u64>,
    write: Option<u64>,
    door: Option<u64>,
    replies: [&'static str; 3],
    summary: &'static str,
}

const CASES: [Case; 5] = [
    // Reading fails behind the last line.
    Case {
        limit: 65_536,
        piece: 1,
        read: Some(103),
        write: None,
        door: None,
        replies: [FIRST_REPLIES, SECOND_REPLIES, THIRD_REPLIES],
        summary: "sessions 3\nentries 14\ncommits 1\nrefused 0\nrows 1\nfaults 1\n",
    },
    // Writing fails within the second reply.
    Case {
        limit: 65_536,
        piece: 1,
        read: None,
        write: Some(4),
        door: None,
        replies: ["OK\nO", SECOND_REPLIES, THIRD_REPLIES],
        summary: "sessions 3\nentries 13\ncommits 1\nrefused 0\nrows 1\nfaults 1\n",
    },
    // Each connection sends more than its limit.
    Case {
        limit: 24,
        piece: 64,
        read: None,
        write: None,
        door: None,
        replies: ["OK\n"; 3],
        summary: "sessions 3\nentries 9\ncommits 0\nrefused 0\nrows 0\nfaults 3\n",
    },
    // The door fails before the first connection, and behind the last one.
    Case {
        limit: 65_536,
        piece: 64,
        read: None,
        write: None,
        door: Some(0),
        replies: [""; 3],
        summary: "sessions 0\nentries 0\ncommits 0\nrefused 0\nrows 0\nfaults 1\n",
    },
    Case {
        limit: 65_536,
        piece: 64,
        read: None,
        write: None,
        door: Some(3),
        replies: [FIRST_REPLIES, SECOND_REPLIES, THIRD_REPLIES],
        summary: "sessions 3\nentries 14\ncommits 1\nrefused 0\nrows 1\nfaults 1\n",
    },
];

// A connection that sends this.
fn link(alloc: Global, input: &[u8], reads: Calls, writes: Calls) -> Result<MemoryLink, Fail>
    requires { (0 < reads.piece) × (0 < writes.piece) }
{
    let source = source(alloc, input, reads)?;
    let sink = sink(alloc, writes)?;
    Ok(MemoryLink { source, sink })
}

// The three connections of a case.
fn links_of(alloc: Global, case: &Case) -> Result<Vec<MemoryLink>, Fail> {
    let piece = case.piece.max(1);
    let reads = Calls {
        piece,
        fails: case.read,
    };
    let writes = Calls {
        piece,
        fails: case.write,
    };
    let mut links = Vec::new(alloc);
    links.push(link(alloc, FIRST.as_bytes(), reads, writes)?)?;
    links.push(link(alloc, SECOND.as_bytes(), all_of(64), all_of(64))?)?;
    links.push(link(alloc, THIRD.as_bytes(), all_of(64), all_of(64))?)?;
    Ok(links)
}

// A site of one door with these connections.
fn site_of(
    alloc: Global,
    links: Vec<MemoryLink>,
    door: Option<u64>,
) -> Result<MemorySite<MemoryLink>, Fail> {
    let mut doors = Vec::new(alloc);
    doors.push(MemoryDoor::new(alloc, links, failing(alloc, door)?)?)?;
    Ok(MemorySite::new(alloc, doors, Vec::new(alloc)))
}

// The output of a service.
fn output_of(alloc: Global, summary: &str) -> Result<Vec<u8>, Fail> {
    both(alloc, b"LISTENING 7070\n", summary.as_bytes())
}

#[test]
fn services_tell_their_faults(rt: HostRuntime) -> Result<(), Fail> {
    for case in &CASES {
        let mut site = site_of(rt.alloc(), links_of(rt.alloc(), case)?, case.door)?;
        let ran = serve_one(&rt, case.limit, &mut site);
        are_answered(&rt, &site, &case.replies);
        drop(site);
        let ran = ran?;
        assert_eq!(rt; ran.status, Status::Done);
        let want = output_of(rt.alloc(), case.summary)?;
        assert_eq!(rt; ran.written.as_slice(), want.as_slice(), "{}", case.summary);
    }
    Ok(())
}

// Serves a site by one worker.
fn serve_one<R: AllocGlobal + Threads + Wait + Sync>(
    rt: &R,
    limit: u32,
    site: &mut MemorySite<MemoryLink>,
) -> Result<Ran, Fail> {
    let words = format!(in rt.alloc(); "serve --port 7070 --workers 1 --limit {limit}")?;
    served(rt, words.as_str(), site)
}

// Checks that the connections that a site has back were answered so, in their order.
fn are_answered(rt: &impl Abort, site: &MemorySite<MemoryLink>, replies: &[&str]) {
    for door in site.back() {
        for (link, reply) in door.back().iter().zip(replies) {
            assert_eq!(rt; link.sink.bytes(), reply.as_bytes(), "{reply}");
        }
    }
}

// A connection that sends a line of one byte too many.
fn long_line(alloc: Global) -> Result<Vec<MemoryLink>, Fail> {
    let long = vec![in alloc; b'x'; 65_536]?;
    let mut links = Vec::new(alloc);
    links.push(link(alloc, &long, all_of(40_000), all_of(40_000))?)?;
    Ok(links)
}

#[test]
fn a_long_line_ends_its_connection(rt: HostRuntime) -> Result<(), Fail> {
    let mut site = site_of(rt.alloc(), long_line(rt.alloc())?, None)?;
    let ran = served(&rt, "serve --port 7070 --workers 1", &mut site);
    are_answered(&rt, &site, &["ERR 21 TooLong\n"]);
    drop(site);
    let ran = ran?;
    assert_eq!(rt; ran.status, Status::Done);
    let summary = "sessions 1\nentries 2\ncommits 0\nrefused 0\nrows 0\nfaults 1\n";
    let want = output_of(rt.alloc(), summary)?;
    assert_eq!(rt; ran.written.as_slice(), want.as_slice());
    Ok(())
}

// The plainest script, line by line, and what each line is answered.
static PLAINEST: [(&str, &str); 13] = [
    ("OPEN\n", "1 OPEN\n"),
    ("1 HELLO admin KEY 'admin'\n", "1 OK\n"),
    ("1 CREATE TAG a\n", "1 OK\n"),
    ("1 CREATE TAG b\n", "1 OK\n"),
    (
        "1 CREATE TABLE note (id INT, body TEXT, PRIMARY KEY (id))\n",
        "1 OK\n",
    ),
    ("1 CREATE PRINCIPAL guest KEY 'g'\n", "1 OK\n"),
    ("OPEN\n", "2 OPEN\n"),
    ("2 HELLO guest KEY 'g'\n", "2 OK\n"),
    ("1 SET LABEL (a)\n", "1 OK\n"),
    ("1 INSERT INTO note VALUES (1, 'x')\n", "1 OK 1\n"),
    ("2 SELECT id, body FROM note\n", "2 ROWS 0 2\n"),
    ("2 SET LABEL (a)\n", "2 OK\n"),
    ("2 SELECT id, body FROM note\n", "2 ROWS 1 2\n2 1\tx\n"),
];

// A script that ends anywhere is answered up to its last whole line; what stands behind that is answered as a line too.
#[test]
fn cut_scripts_are_answered_so_far(rt: HostRuntime) -> Result<(), Fail> {
    let mut script = Vec::new(rt.alloc());
    let mut replies = Vec::new(rt.alloc());
    for (line, reply) in &PLAINEST {
        for cut in 0..line.len() {
            let front = both(rt.alloc(), &script, &line.as_bytes()[..cut])?;
            let ran = run(&rt, &front, 65_536)?;
            assert_eq!(rt; ran.status, Status::Done);
            assert!(rt; ran.written.starts_with(&replies), "cut at {cut} of {line}");
        }
        script.extend_from_slice(line.as_bytes())?;
        replies.extend_from_slice(reply.as_bytes())?;
    }
    let ran = run(&rt, &script, 65_536)?;
    assert_eq!(rt; ran.written.as_slice(), replies.as_slice());
    Ok(())
}
