// Two links that wait for each other: workers run side by side, and no turn lasts from a BEGIN to its COMMIT.
use super::*;
use ifdb_io::{Failed, Sink, Source};
use std::sync::Arc;
use std::sync::atomic::{AtomicU64, Ordering};

// How often a link looks at the other before it gives up.
const LOOKS: u64 = 200_000_000;

// A link that gives a line only once the other link has got so many replies.
#[derive(Drop)]
struct Meeting {
    lines: Vec<(u64, &'static str)>,
    given: usize,
    replies: Arc<AtomicU64>,
    others: Arc<AtomicU64>,
    failed: u64,
}

impl Source for Meeting {
    ghost use Rattle.std.specs.Prelude.{None};

    ghost left = { λ _. None };

    ghost faults = { λ m. m.failed };

    fn read(&mut self, buf: &mut [u8]) -> Result<usize, Failed> {
        let Some(&(replies, line)) = self.lines.get(self.given) else {
            return Ok(0);
        };
        self.given += 1;
        for _ in 0..LOOKS {
            if self.others.load(Ordering::SeqCst) >= replies {
                let count = line.len().min(buf.len());
                buf[..count].copy_from_slice(&line.as_bytes()[..count]);
                return Ok(count);
            }
        }
        self.failed = self.failed.saturating_add(1);
        Err(Failed)
    }
}

impl Sink for Meeting {
    ghost use Rattle.std.specs.Prelude.{None};

    ghost written = { λ _. None };

    ghost faults = { λ _. 0 };

    ghost beside = { λ m. (None, m.failed, 0) };

    fn write(&mut self, piece: &[u8]) -> Result<usize, Failed> {
        self.replies.fetch_add(1, Ordering::SeqCst);
        Ok(piece.len())
    }
}

impl Link for Meeting {
    ghost use Rattle.std.specs.Prelude.{refl};

    ghost reading = { λ _. refl };

    ghost writing = { λ _. refl };
}

// A door with one such link.
fn door_of(
    alloc: Global,
    lines: &[(u64, &'static str)],
    replies: &Arc<AtomicU64>,
    others: &Arc<AtomicU64>,
) -> Result<MemoryDoor<Meeting>, Fail> {
    let mut links = Vec::new(alloc);
    links.push(Meeting {
        lines: lines.to_vec(alloc)?,
        given: 0,
        replies: replies.clone()?,
        others: others.clone()?,
        failed: 0,
    })?;
    Ok(MemoryDoor::new(alloc, links, Vec::new(alloc))?)
}

#[test]
fn two_links_meet(rt: HostRuntime) -> Result<(), Fail> {
    let alloc = rt.alloc();
    let first = Arc::new(alloc, AtomicU64::new(0))?;
    let second = Arc::new(alloc, AtomicU64::new(0))?;
    let ones = [
        (0, "HELLO admin KEY 'admin'\n"),
        (0, "CREATE TABLE note (id INT, PRIMARY KEY (id))\n"),
        (0, "BEGIN\n"),
        (2, "COMMIT\n"),
        (2, "BYE\n"),
    ];
    let others = [
        (3, "HELLO admin KEY 'admin'\n"),
        (3, "INSERT INTO note VALUES (1)\n"),
        (3, "BYE\n"),
    ];
    let mut doors = Vec::new(alloc);
    doors.push(door_of(alloc, &ones, &first, &second)?)?;
    doors.push(door_of(alloc, &others, &second, &first)?)?;
    let mut site = MemorySite::new(alloc, doors, Vec::new(alloc));
    let mut output = output_of(alloc, &[])?;
    assert_eq!(rt; serve_at(&rt, &mut output, &mut site, 2), ServiceEnd::Done);
    let want = "LISTENING 7070\nsessions 2\nentries 10\ncommits 2\nrefused 0\nrows 1\nfaults 0\n";
    assert_eq!(rt; output.bytes(), want.as_bytes());
    Ok(())
}
