// Sites in memory: worked rows, faults, and ends.
use super::*;

// A site of one door with these links.
fn site_of(alloc: Global, inputs: &[&str]) -> Result<MemorySite<MemoryLink>, Fail> {
    let mut links = Vec::new(alloc);
    for input in inputs {
        links.push(link_of(alloc, input, &[], &[])?)?;
    }
    let mut doors = Vec::new(alloc);
    doors.push(MemoryDoor::new(alloc, links, Vec::new(alloc))?)?;
    Ok(MemorySite::new(alloc, doors, Vec::new(alloc)))
}

// Three links of one door: a transaction that its client drops, a row, and who sees it.
#[test]
fn three_links_of_one_door(rt: HostRuntime) -> Result<(), Fail> {
    let inputs = [
        "HELLO admin KEY 'admin'\nCREATE TABLE note (id INT, PRIMARY KEY (id))\nBEGIN\nINSERT INTO note VALUES (1)\nCOMM",
        "HELLO admin KEY 'admin'\nSELECT id FROM note\nINSERT INTO note VALUES (2)\nBYE\n",
        "HELLO admin KEY 'admin'\nSELECT id FROM note\nBYE\n",
    ];
    let replies = [
        "OK\nOK\nOK\nOK 1\n",
        "OK\nROWS 0 1\nOK 1\nOK\n",
        "OK\nROWS 1 1\n2\nOK\n",
    ];
    let mut site = site_of(rt.alloc(), &inputs)?;
    let mut output = output_of(rt.alloc(), &[])?;
    assert_eq!(rt; serve_at(&rt, &mut output, &mut site, 1), ServiceEnd::Done);
    let want = "LISTENING 7070\nsessions 3\nentries 14\ncommits 1\nrefused 0\nrows 1\nfaults 0\n";
    assert_eq!(rt; output.bytes(), want.as_bytes());
    for door in site.back() {
        assert_eq!(rt; door.left(), 0);
        for (link, reply) in door.back().iter().zip(replies) {
            assert_eq!(rt; link.sink.bytes(), reply.as_bytes());
        }
    }
    Ok(())
}

// Links and a door that fail are counted, and the others are served.
#[test]
fn faults_are_counted(rt: HostRuntime) -> Result<(), Fail> {
    let alloc = rt.alloc();
    let mut first = Vec::new(alloc);
    first.push(link_of(alloc, "HELLO admin KEY 'admin'\n", &[1], &[])?)?;
    first.push(link_of(alloc, "BYE\n", &[], &[0])?)?;
    first.push(link_of(alloc, "BYE\n", &[], &[])?)?;
    let mut second = Vec::new(alloc);
    second.push(link_of(alloc, "\nBYE\n", &[], &[])?)?;
    second.push(link_of(alloc, "BYE\n", &[], &[])?)?;
    let mut doors = Vec::new(alloc);
    doors.push(MemoryDoor::new(alloc, first, Vec::new(alloc))?)?;
    let mut fails = Vec::new(alloc);
    fails.push(1)?;
    doors.push(MemoryDoor::new(alloc, second, fails)?)?;
    let mut site = MemorySite::new(alloc, doors, Vec::new(alloc));
    let mut output = output_of(alloc, &[])?;
    assert_eq!(rt; serve_at(&rt, &mut output, &mut site, 2), ServiceEnd::Done);
    let want = "LISTENING 7070\nsessions 4\nentries 9\ncommits 0\nrefused 0\nrows 0\nfaults 3\n";
    assert_eq!(rt; output.bytes(), want.as_bytes());
    let mut left = Vec::new(alloc);
    for door in site.back() {
        left.push(door.left())?;
    }
    assert_eq!(rt; left.as_slice(), [0, 1].as_slice());
    Ok(())
}

// What a service that can't go on leaves behind.
#[test]
fn services_end(rt: HostRuntime) -> Result<(), Fail> {
    let alloc = rt.alloc();
    let table = [
        (&[][..], ServiceEnd::Done, 0, "LISTENING 7070\nsessions 1\n"),
        (&[0][..], ServiceEnd::WriteFault, 1, ""),
        (&[4][..], ServiceEnd::WriteFault, 0, "LISTENING 7070\n"),
        (
            &[5][..],
            ServiceEnd::WriteFault,
            0,
            "LISTENING 7070\nsessions",
        ),
    ];
    for (fails, end, left, want) in table {
        let mut site = site_of(alloc, &["BYE\n"])?;
        let mut output = output_of(alloc, fails)?;
        assert_eq!(rt; serve_at(&rt, &mut output, &mut site, 1), end);
        assert!(rt; output.bytes().starts_with(want.as_bytes()), "{want}");
        for door in site.back() {
            assert_eq!(rt; door.left(), left, "{want}");
        }
    }
    let mut site = site_of(alloc, &["BYE\n"])?;
    let mut output = output_of(alloc, &[])?;
    assert_eq!(rt;
        serve_at(&rt, &mut output, &mut site, 2),
        ServiceEnd::SiteFault
    );
    assert_eq!(rt; output.bytes(), b"".as_slice());
    Ok(())
}
