// The service of connections in memory, as the words ask for it.
use super::*;
use ifdb_io::MemoryDoor;

const HELLO: &str = "HELLO admin KEY 'admin'\n";

// A link that sends these lines.
fn link(alloc: Global, input: &str) -> Result<MemoryLink, Fail> {
    let source = source(alloc, input.as_bytes(), all_of(64))?;
    let sink = sink(alloc, all_of(64))?;
    Ok(MemoryLink { source, sink })
}

// A door with these links.
fn door(alloc: Global, inputs: &[&str]) -> Result<MemoryDoor<MemoryLink>, Fail> {
    let mut links = Vec::new(alloc);
    for input in inputs {
        links.push(link(alloc, input)?)?;
    }
    Ok(MemoryDoor::new(alloc, links, Vec::new(alloc))?)
}

// A site whose doors have one link each, which sends HELLO and BYE.
fn site(alloc: Global, doors: usize) -> Result<MemorySite<MemoryLink>, Fail> {
    let hello = both(alloc, HELLO.as_bytes(), b"BYE\n")?;
    let mut all = Vec::new(alloc);
    for _ in 0..doors {
        all.push(door(alloc, &[std::str::from_utf8(&hello).unwrap_or("")])?)?;
    }
    Ok(MemorySite::new(alloc, all, Vec::new(alloc)))
}

// Words, how many doors the site has, how the service ends, and what it writes first.
static SERVICES: [(&str, usize, Status, &str); 4] = [
    (
        "serve --port 7070 --workers 1",
        1,
        Status::Done,
        "LISTENING 7070\nsessions 1\nentries 3\n",
    ),
    (
        "serve --port=9 --workers=3 --links 1",
        3,
        Status::Done,
        "LISTENING 9\nsessions 3\nentries 9\n",
    ),
    (
        "serve --port 7070",
        4,
        Status::Done,
        "LISTENING 7070\nsessions 4\nentries 12\n",
    ),
    ("serve --port 7070", 3, Status::SiteFault, ""),
];

#[test]
fn connections_are_served_as_the_words_say(rt: HostRuntime) -> Result<(), Fail> {
    for (words, doors, status, front) in &SERVICES {
        let mut site = site(rt.alloc(), *doors)?;
        let ran = served(&rt, words, &mut site);
        are_answered(&rt, &site, b"OK\nOK\n");
        drop(site);
        let ran = ran?;
        assert_eq!(rt; ran.status, *status, "{front}");
        assert!(rt; ran.written.starts_with(front.as_bytes()), "{front}");
    }
    Ok(())
}

// Checks that each connection that a site has back was answered so.
fn are_answered(rt: &impl Abort, site: &MemorySite<MemoryLink>, replies: &[u8]) {
    for door in site.back() {
        for link in door.back() {
            assert_eq!(rt; link.sink.bytes(), replies);
        }
    }
}

// The limit of the words is that of each connection.
#[test]
fn each_connection_has_the_limit(rt: HostRuntime) -> Result<(), Fail> {
    let ran = one_door(&rt, "serve --port 1 --workers 1 --limit 12")?;
    assert_eq!(rt; ran.status, Status::Done);
    let want = "LISTENING 1\nsessions 2\nentries 5\ncommits 0\nrefused 0\nrows 0\nfaults 1\n";
    assert_eq!(rt; ran.written.as_slice(), want.as_bytes());
    Ok(())
}

// Serves a door with two connections, of which the second sends more than twelve bytes.
fn one_door<R: AllocGlobal + Threads + Wait + Sync>(rt: &R, words: &str) -> Result<Ran, Fail> {
    let mut doors = Vec::new(rt.alloc());
    doors.push(door(rt.alloc(), &["BYE\n", "SHOW LABEL\nBYE\n"])?)?;
    let mut site = MemorySite::new(rt.alloc(), doors, Vec::new(rt.alloc()));
    served(rt, words, &mut site)
}
