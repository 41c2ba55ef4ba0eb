// The words of `host`, over a folder in memory and a site of gates in memory.
use super::*;
use ifdb_disk::{MemoryDisk, MemoryShelf};
use ifdb_folder::{Folder, MemoryFolder, Name, Named};
use ifdb_io::{MemorySink, MemorySource};
use ifdb_loop::{Coming, Ending, Halt, MemoryGate, MemoryGates, Step};
use ifdb_top::{HostStatus, MoreStatus, top_host};

// A table is made and a row inserted, and another in a transaction that the client leaves open.
pub(super) const FIRST: &str =
    "HELLO admin KEY 'sesame'\nCREATE TABLE note (id INT, PRIMARY KEY (id))\nINSERT INTO note VALUES (1)\nBEGIN\nINSERT INTO note VALUES (2)\n";

pub(super) const FIRST_REPLIES: &str = "OK\nOK\nOK 1\nOK\nOK 1\n";

pub(super) const FIRST_OUTPUT: &str =
    "LISTENING 7070\nsessions 1\nentries 6\ncommits 1\nrefused 0\nrows 1\n";

// Its replies up to that to the first row.
const UP_TO_THE_ROW: &str = "OK\nOK\nOK 1\n";

// What is there is looked at.
pub(super) const SECOND: &str = "HELLO admin KEY 'sesame'\nSELECT id FROM note\nBYE\n";

pub(super) const SECOND_REPLIES: &str = "OK\nROWS 1 1\n1\nOK\n";

pub(super) const SECOND_OUTPUT: &str =
    "LISTENING 7070\nsessions 1\nentries 4\ncommits 0\nrefused 0\nrows 1\n";

const WORDS: &str = "host --file d --admin-key k --port 7070 --loops 1";

const LISTENING: &str = "LISTENING 7070\n";

// What those are told who say another key, and ask for a table.
const NOBODY: &str = "ERR 4 BadKey\nERR 2 NotHello\n";

// The file of the key.
pub(super) const KEY: &[u8] = b"sesame\n";

const USAGE: &str =
    "usage: ifdb host --file F --admin-key A --port P [--loops W] [--connections N] [--limit B] [--hello S] [--idle S] [--stall S]\n";

// More waits than a loop of these tests takes.
const WAITS: u64 = 1000;

// What a client says, and how its first calls end.
#[derive(Clone, Copy)]
pub(super) struct Client<'a> {
    says: &'a str,
    reads: &'a [Step],
    writes: &'a [Step],
}

// A client that says this at once, and takes all replies.
pub(super) const fn saying(says: &str) -> Client {
    Client {
        says,
        reads: &[],
        writes: &[],
    }
}

// Where the program finds gates, databases and secrets.
#[derive(Drop)]
pub(super) struct Place {
    pub(super) gates: MemoryGates,
    pub(super) folder: MemoryFolder,
    pub(super) secrets: MemoryShelf,
}

// What the program is called over beside that.
#[derive(Drop)]
struct Rest {
    input: MemorySource,
    output: MemorySink,
    site: MemorySite<MemoryLink>,
    shelf: MemoryShelf,
}

// How a call of the program ended, what was written for it, its gates, and the disk that the database's name has then.
#[derive(Drop)]
pub(super) struct HostedHere {
    pub(super) end: HostStatus,
    pub(super) written: Vec<u8>,
    pub(super) gates: MemoryGates,
    pub(super) disk: MemoryDisk,
}

// A disk of these bytes, which fails at this one of its calls.
pub(super) fn disk_of(alloc: Global, bytes: &[u8], fails: Option<u64>) -> Result<MemoryDisk, Fail> {
    let bytes = Vec::from_slice(alloc, bytes)?;
    Ok(MemoryDisk::new(alloc, bytes, 1000, 1000, failing(alloc, fails)?)?)
}

// A shelf that gives this disk, but at this call of `open`.
pub(super) fn shelf_of(
    alloc: Global,
    disk: MemoryDisk,
    fails: Option<u64>,
) -> Result<MemoryShelf, Fail> {
    Ok(MemoryShelf::new(disk, failing(alloc, fails)?))
}

// A shelf that gives the file of the key.
pub(super) fn key_shelf(alloc: Global) -> Result<MemoryShelf, Fail> {
    shelf_of(alloc, disk_of(alloc, KEY, None)?, None)
}

// A folder with the disk of a database, and that of its new file; these calls of it fail.
pub(super) fn folder_of(
    alloc: Global,
    disk: MemoryDisk,
    spare: MemoryDisk,
    fails: &[u64],
) -> Result<MemoryFolder, Fail> {
    let fails = Vec::from_slice(alloc, fails)?;
    let first = Named {
        name: Name::of("d"),
        disk: Some(disk),
    };
    let second = Named {
        name: Name::of("d.new"),
        disk: Some(spare),
    };
    Ok(MemoryFolder::new(first, second, fails))
}

// The connection of a client.
fn coming(alloc: Global, client: Client) -> Result<Coming, Fail> {
    let mut one = Coming {
        bytes: Vec::new(alloc),
        reads: Vec::new(alloc),
        writes: Vec::new(alloc),
    };
    one.bytes.extend_from_slice(client.says.as_bytes())?;
    one.reads.extend_from_slice(client.reads)?;
    one.writes.extend_from_slice(client.writes)?;
    Ok(one)
}

// A gate through which these clients come, the last one first, and at which so many waits succeed.
fn gate_of(alloc: Global, clients: &[Client], waits: u64) -> Result<MemoryGate, Fail> {
    let mut all = Vec::new(alloc);
    for client in clients {
        all.push(coming(alloc, *client)?)?;
    }
    Ok(MemoryGate::new(alloc, all, waits)?)
}

// A site of one gate.
fn site_of(alloc: Global, gate: MemoryGate) -> Result<MemoryGates, Fail> {
    let gates = Vec::from_array(alloc, [gate])?;
    Ok(MemoryGates::new(alloc, gates, Vec::new(alloc)))
}

// A site of one gate, through which these clients come.
pub(super) fn gates_of(alloc: Global, clients: &[Client]) -> Result<MemoryGates, Fail> {
    site_of(alloc, gate_of(alloc, clients, WAITS)?)
}

// The key's file and a folder with this disk, of which these calls fail, behind these gates.
pub(super) fn place_of(
    alloc: Global,
    gates: MemoryGates,
    disk: MemoryDisk,
    fails: &[u64],
) -> Result<Place, Fail> {
    let folder = folder_of(alloc, disk, disk_of(alloc, b"", None)?, fails)?;
    Ok(Place {
        gates,
        folder,
        secrets: key_shelf(alloc)?,
    })
}

// No input, room for output, no doors, and an empty shelf.
fn rest_of(alloc: Global) -> Result<Rest, Fail> {
    let shelf = shelf_of(alloc, disk_of(alloc, b"", None)?, None)?;
    let output = sink(alloc, all_of(64))?;
    Ok(Rest {
        input: source(alloc, b"", all_of(64))?,
        output,
        site: MemorySite::new(alloc, Vec::new(alloc), Vec::new(alloc)),
        shelf,
    })
}

// Calls the program with these words.
pub(super) fn run_over<R: AllocGlobal + Threads + Wait + Sync>(
    rt: &R,
    words: &str,
    place: Place,
) -> Result<HostedHere, Fail> {
    let mut place = place;
    let words = words_of(rt.alloc(), words)?;
    let mut rest = rest_of(rt.alloc())?;
    let end = top_host(
        rt,
        &words,
        &mut rest.input,
        &mut rest.output,
        &mut rest.site,
        &mut place.gates,
        &mut place.folder,
        &mut rest.shelf,
        &mut place.secrets,
    );
    let written = Vec::from_slice(rt.alloc(), rest.output.bytes())?;
    let disk = place.folder.take("d")?;
    Ok(HostedHere {
        end,
        written,
        gates: place.gates,
        disk,
    })
}

// Calls the program with these words over these gates and this disk.
pub(super) fn run_at<R: AllocGlobal + Threads + Wait + Sync>(
    rt: &R,
    words: &str,
    gates: MemoryGates,
    disk: MemoryDisk,
) -> Result<HostedHere, Fail> {
    let place = place_of(rt.alloc(), gates, disk, &[])?;
    run_over(rt, words, place)
}

// Calls the program with these words over one client and this disk.
pub(super) fn run_hosted<R: AllocGlobal + Threads + Wait + Sync>(
    rt: &R,
    words: &str,
    client: Client,
    disk: MemoryDisk,
) -> Result<HostedHere, Fail> {
    let gates = gates_of(rt.alloc(), &[client])?;
    run_at(rt, words, gates, disk)
}

// What the connection of this number was told that came back through this gate, and how it ended.
fn told_at(gates: &MemoryGates, gate: usize, number: usize) -> Option<(&[u8], Ending)> {
    let over = gates.back().get(gate)?.back().get(number)?;
    Some((over.port.written(), over.ending))
}

// What the only connection was told; nothing, where there was none.
pub(super) fn told(gates: &MemoryGates) -> &[u8] {
    match told_at(gates, 0, 0) {
        Some((told, _)) => told,
        None => b"",
    }
}

// How the only connection ended.
fn ending(gates: &MemoryGates) -> Option<Ending> {
    let (_, ending) = told_at(gates, 0, 0)?;
    Some(ending)
}

// The program ended as it should.
pub(super) const DONE: HostStatus = HostStatus::More(MoreStatus::Base(Status::Done));

const SITE_FAULT: HostStatus = HostStatus::More(MoreStatus::Base(Status::SiteFault));

// Serves a client over a disk, and compares what is written for it and what the client is told.
pub(super) fn goes_on<R: Abort + AllocGlobal + Threads + Wait + Sync>(
    rt: &R,
    client: Client,
    disk: MemoryDisk,
    (written, replies): (&str, &str),
) -> Result<MemoryDisk, Fail> {
    let ran = run_hosted(rt, WORDS, client, disk)?;
    assert_eq!(rt; ran.end, DONE);
    assert_eq!(rt; ran.written.as_slice(), written.as_bytes());
    assert_eq!(rt; told(&ran.gates), replies.as_bytes());
    Ok(ran.disk)
}

#[test]
fn kept_and_served_again(rt: HostRuntime) -> Result<(), Fail> {
    let disk = disk_of(rt.alloc(), b"", None)?;
    let disk = goes_on(&rt, saying(FIRST), disk, (FIRST_OUTPUT, FIRST_REPLIES))?;
    goes_on(&rt, saying(SECOND), disk, (SECOND_OUTPUT, SECOND_REPLIES))?;
    Ok(())
}

// Steps that give or take so many bytes at a time, with a wait before each.
fn in_pieces(alloc: Global, size: usize) -> Result<Vec<Step>, Fail> {
    let mut steps = Vec::new(alloc);
    for _ in 0..200 {
        steps.push(Step::Wait)?;
        steps.push(Step::Piece(size))?;
    }
    Ok(steps)
}

#[test]
fn whole_replies_whatever_the_pieces(rt: HostRuntime) -> Result<(), Fail> {
    for size in [1, 2, 7, 64] {
        let steps = in_pieces(rt.alloc(), size)?;
        let client = Client {
            says: FIRST,
            reads: &steps,
            writes: &steps,
        };
        let words = "host --file d --admin-key k --port 7070 --loops 1 --hello 86400";
        let ran = run_hosted(&rt, words, client, disk_of(rt.alloc(), b"", None)?)?;
        assert_eq!(rt; ran.end, DONE);
        assert_eq!(rt; ran.written.as_slice(), FIRST_OUTPUT.as_bytes());
        assert_eq!(rt; told(&ran.gates), FIRST_REPLIES.as_bytes(), "{size}");
        assert_eq!(rt; ending(&ran.gates), Some(Ending::End));
    }
    Ok(())
}

// Checks that a row is found on a disk of which a client was told that it was inserted.
fn is_found<R: Abort + AllocGlobal + Threads + Wait + Sync>(
    rt: &R,
    disk: MemoryDisk,
    is_told: bool,
) -> Result<(), Fail> {
    let ran = run_hosted(rt, WORDS, saying(SECOND), disk)?;
    assert_eq!(rt; ran.end, DONE);
    if is_told {
        assert_eq!(rt; told(&ran.gates), SECOND_REPLIES.as_bytes());
    }
    Ok(())
}

// Steps that move so many bytes so often, and then a failure.
fn fails_behind(alloc: Global, count: usize, size: usize) -> Result<Vec<Step>, Fail> {
    let mut steps = Vec::new(alloc);
    for _ in 0..count {
        steps.push(Step::Piece(size))?;
    }
    steps.push(Step::Fail)?;
    Ok(steps)
}

// Reading fails behind so many pieces.
fn read_fails<R: Abort + AllocGlobal + Threads + Wait + Sync>(
    rt: &R,
    count: usize,
) -> Result<(), Fail> {
    let reads = fails_behind(rt.alloc(), count, 25)?;
    let client = Client {
        says: FIRST,
        reads: &reads,
        writes: &[],
    };
    let ran = run_hosted(rt, WORDS, client, disk_of(rt.alloc(), b"", None)?)?;
    assert_eq!(rt; ran.end, DONE);
    assert!(rt;
        FIRST_REPLIES.as_bytes().starts_with(told(&ran.gates)),
        "{count}"
    );
    assert_eq!(rt; ending(&ran.gates), Some(Ending::LinkRead));
    let is_told = told(&ran.gates).starts_with(UP_TO_THE_ROW.as_bytes());
    is_found(rt, ran.disk, is_told)
}

#[test]
fn a_read_fails_at_each_call(rt: HostRuntime) -> Result<(), Fail> {
    for count in 0..6 {
        read_fails(&rt, count)?;
    }
    Ok(())
}

// Writing fails behind so many pieces. Each line was asked, and what it did is kept.
fn write_fails<R: Abort + AllocGlobal + Threads + Wait + Sync>(
    rt: &R,
    count: usize,
) -> Result<(), Fail> {
    let writes = fails_behind(rt.alloc(), count, 2)?;
    let client = Client {
        says: FIRST,
        reads: &[],
        writes: &writes,
    };
    let ran = run_hosted(rt, WORDS, client, disk_of(rt.alloc(), b"", None)?)?;
    assert_eq!(rt; ran.end, DONE);
    assert!(rt;
        FIRST_REPLIES.as_bytes().starts_with(told(&ran.gates)),
        "{count}"
    );
    assert_eq!(rt; told(&ran.gates).len(), count.saturating_mul(2));
    assert_eq!(rt; ending(&ran.gates), Some(Ending::LinkWrite));
    is_found(rt, ran.disk, true)
}

#[test]
fn a_write_fails_at_each_call(rt: HostRuntime) -> Result<(), Fail> {
    for count in 0..9 {
        write_fails(&rt, count)?;
    }
    Ok(())
}

// The disk fails at this call: the client is told a front of the replies, and what it was told is found behind a crash. Whether the disk
// was called so often.
fn disk_fails<R: Abort + AllocGlobal + Threads + Wait + Sync>(
    rt: &R,
    call: u64,
) -> Result<bool, Fail> {
    let disk = disk_of(rt.alloc(), b"", Some(call))?;
    let client = Client {
        says: FIRST,
        reads: &[Step::Piece(25), Step::Piece(45), Step::Piece(28)],
        writes: &[],
    };
    let ran = run_hosted(rt, WORDS, client, disk)?;
    assert!(rt;
        FIRST_REPLIES.as_bytes().starts_with(told(&ran.gates)),
        "{call}"
    );
    if ran.end != HostStatus::DiskFault {
        assert_eq!(rt; ran.end, DONE);
        return Ok(false);
    }
    assert!(rt; LISTENING.as_bytes().starts_with(&ran.written), "{call}");
    let is_told = told(&ran.gates).starts_with(UP_TO_THE_ROW.as_bytes());
    is_found(rt, ran.disk.crash(255), is_told)?;
    Ok(true)
}

#[test]
fn no_reply_before_it_is_kept(rt: HostRuntime) -> Result<(), Fail> {
    for call in 0..8 {
        assert!(rt; disk_fails(&rt, call)?, "{call}");
    }
    for call in 8..24 {
        let _ = disk_fails(&rt, call)?;
    }
    Ok(())
}

// Options, how the first reads and writes end, what the client is told, and how it ends. A second passes with each wait.
static TERMS: [(&str, &[Step], &[Step], &str, Ending); 9] = [
    ("--hello 3", &[Step::Wait; 9], &[], "", Ending::LinkRead),
    ("--hello 30", &[Step::Wait; 9], &[], NOTHING, Ending::Bye),
    ("--idle 3", &SILENT, &[], "OK\n", Ending::LinkRead),
    ("--idle 30", &SILENT, &[], NOTHING, Ending::Bye),
    ("--stall 3", &[], &[Step::Wait; 9], "", Ending::Bye),
    ("--stall 30", &[], &[Step::Wait; 9], NOTHING, Ending::Bye),
    ("--limit 24", &[], &[], "", Ending::TooMuch),
    ("--limit 30", &[], &[], "OK\n", Ending::TooMuch),
    ("--limit 99", &[], &[], NOTHING, Ending::Bye),
];

// What one is told who looks where there is nothing.
const NOTHING: &str = "OK\nERR 6 UnknownName\nOK\n";

// The first line comes, and then nothing for a while.
const SILENT: [Step; 10] = [
    Step::Piece(25),
    Step::Wait,
    Step::Wait,
    Step::Wait,
    Step::Wait,
    Step::Wait,
    Step::Wait,
    Step::Wait,
    Step::Wait,
    Step::Wait,
];

#[test]
fn each_connection_has_its_terms(rt: HostRuntime) -> Result<(), Fail> {
    for (options, reads, writes, replies, end) in &TERMS {
        let words = format!(in rt.alloc(); "{WORDS} {options}")?;
        let client = Client {
            says: SECOND,
            reads,
            writes,
        };
        let ran = run_hosted(&rt, words.as_str(), client, disk_of(rt.alloc(), b"", None)?)?;
        assert_eq!(rt; ran.end, DONE, "{options}");
        assert_eq!(rt; told(&ran.gates), replies.as_bytes(), "{options}");
        assert_eq!(rt; ending(&ran.gates), Some(*end), "{options}");
    }
    Ok(())
}

// How many connections a gate refused.
fn refused(gates: &MemoryGates) -> Option<u64> {
    Some(gates.back().first()?.refused)
}

#[test]
fn as_many_connections_as_the_words_say(rt: HostRuntime) -> Result<(), Fail> {
    for (most, left_out) in [(1, 2), (2, 1), (3, 0)] {
        let gates = gates_of(rt.alloc(), &[saying(SECOND); 3])?;
        let words = format!(in rt.alloc(); "{WORDS} --connections {most}")?;
        let ran = run_at(&rt, words.as_str(), gates, disk_of(rt.alloc(), b"", None)?)?;
        assert_eq!(rt; ran.end, DONE);
        assert_eq!(rt; refused(&ran.gates), Some(left_out), "{most}");
    }
    Ok(())
}

// Two gates, through each of which a client comes; so many waits at the second succeed.
fn two_gates(alloc: Global, waits: u64) -> Result<MemoryGates, Fail> {
    let second = gate_of(alloc, &[saying("HELLO admin KEY 'sesame'\nBYE\n")], waits)?;
    let first = gate_of(alloc, &[saying("HELLO admin KEY 'no'\nBYE\n")], WAITS)?;
    let gates = Vec::from_array(alloc, [first, second])?;
    Ok(MemoryGates::new(alloc, gates, Vec::new(alloc)))
}

const TWO_LOOPS: &str = "host --file d --admin-key k --port 7070 --loops 2";

#[test]
fn two_loops_serve_one_history(rt: HostRuntime) -> Result<(), Fail> {
    let gates = two_gates(rt.alloc(), WAITS)?;
    let ran = run_at(&rt, TWO_LOOPS, gates, disk_of(rt.alloc(), b"", None)?)?;
    let first = (b"ERR 4 BadKey\nOK\n".as_slice(), Ending::Bye);
    let second = (b"OK\nOK\n".as_slice(), Ending::Bye);
    assert_eq!(rt; ran.end, DONE);
    assert!(rt; told_at(&ran.gates, 0, 0) == Some(first));
    assert!(rt; told_at(&ran.gates, 1, 0) == Some(second));
    assert!(rt; ran.written.starts_with(b"LISTENING 7070\nsessions 2\n"));
    Ok(())
}

// One of two gates fails before a client came through it, or behind that.
#[test]
fn a_gate_fails(rt: HostRuntime) -> Result<(), Fail> {
    for waits in 0..2 {
        let gates = two_gates(rt.alloc(), waits)?;
        let ran = run_at(&rt, TWO_LOOPS, gates, disk_of(rt.alloc(), b"", None)?)?;
        assert_eq!(rt; ran.end, SITE_FAULT);
        assert_eq!(rt; ran.written.as_slice(), LISTENING.as_bytes());
        let halted = told_at(&ran.gates, 1, 0);
        let came = waits > 0;
        assert_eq!(rt; halted.is_some(), came);
        if let Some((told, end)) = halted {
            assert!(rt; told.is_empty());
            assert_eq!(rt; end, Ending::Halted(Halt::Gate));
        }
    }
    Ok(())
}

// Too few gates, and a site that fails.
fn failing_sites(alloc: Global) -> Result<Vec<MemoryGates>, Fail> {
    let mut sites = Vec::new(alloc);
    sites.push(MemoryGates::new(alloc, Vec::new(alloc), Vec::new(alloc)))?;
    let gates = Vec::from_array(alloc, [gate_of(alloc, &[saying(FIRST)], WAITS)?])?;
    sites.push(MemoryGates::new(alloc, gates, failing(alloc, Some(0))?))?;
    Ok(sites)
}

#[test]
fn a_site_gives_none(rt: HostRuntime) -> Result<(), Fail> {
    for gates in failing_sites(rt.alloc())? {
        let ran = run_at(&rt, WORDS, gates, disk_of(rt.alloc(), b"", None)?)?;
        assert_eq!(rt; ran.end, SITE_FAULT);
        assert!(rt; ran.written.is_empty());
        assert!(rt; ran.gates.back().is_empty());
        goes_on(&rt, saying(FIRST), ran.disk, (FIRST_OUTPUT, FIRST_REPLIES))?;
    }
    Ok(())
}

// The disk's bytes, which calls of the folder fail, and how it ends: another file, a damaged one, and no disk. The first call
// is that of a compaction, without which the database is served too.
static STOPS: [(&[u8], &[u64], HostStatus); 4] = [
    (b"\x01\x09\0", &[], HostStatus::NotADatabase),
    (
        b"ifdb log 1     \n\x01\x09\0",
        &[],
        HostStatus::More(MoreStatus::Damaged(16)),
    ),
    (b"", &[1], HostStatus::DiskFault),
    (b"", &[0, 1], HostStatus::DiskFault),
];

#[test]
fn what_stops_it(rt: HostRuntime) -> Result<(), Fail> {
    for (bytes, refused, end) in &STOPS {
        let gates = gates_of(rt.alloc(), &[saying(FIRST)])?;
        let disk = disk_of(rt.alloc(), bytes, None)?;
        let ran = run_over(&rt, WORDS, place_of(rt.alloc(), gates, disk, refused)?)?;
        assert_eq!(rt; ran.end, *end);
        assert!(rt; ran.written.is_empty());
        assert!(rt; told_at(&ran.gates, 0, 0).is_none());
    }
    assert_eq!(rt; HostStatus::NotADatabase.exit_code(), 8);
    Ok(())
}

#[test]
fn served_where_it_is_not_compacted(rt: HostRuntime) -> Result<(), Fail> {
    let gates = gates_of(rt.alloc(), &[saying(FIRST)])?;
    let place = place_of(rt.alloc(), gates, disk_of(rt.alloc(), b"", None)?, &[0])?;
    let ran = run_over(&rt, WORDS, place)?;
    assert_eq!(rt; ran.end, DONE);
    assert_eq!(rt; told(&ran.gates), FIRST_REPLIES.as_bytes());
    Ok(())
}

// What the file of the key holds, which call of its shelf gives none, and how it ends: no line, an empty one, one that is too long, and
// no file. The database isn't asked for.
static LACKS: [(&[u8], Option<u64>, HostStatus); 4] = [
    (b"", None, HostStatus::NoKey),
    (b"\r\nsesame\n", None, HostStatus::NoKey),
    (
        b"0123456789012345678901234567890123456789012345678901234567890123456789",
        None,
        HostStatus::NoKey,
    ),
    (KEY, Some(0), HostStatus::DiskFault),
];

// Where the file of the key holds these bytes, and this call of its shelf gives none.
fn place_with_key(alloc: Global, bytes: &[u8], refused: Option<u64>) -> Result<Place, Fail> {
    let gates = gates_of(alloc, &[saying(FIRST)])?;
    let folder = folder_of(
        alloc,
        disk_of(alloc, b"", None)?,
        disk_of(alloc, b"", None)?,
        &[],
    )?;
    Ok(Place {
        gates,
        folder,
        secrets: shelf_of(alloc, disk_of(alloc, bytes, None)?, refused)?,
    })
}

#[test]
fn without_a_key(rt: HostRuntime) -> Result<(), Fail> {
    for (bytes, refused, end) in &LACKS {
        let ran = run_over(&rt, WORDS, place_with_key(rt.alloc(), bytes, *refused)?)?;
        assert_eq!(rt; ran.end, *end);
        assert!(rt; ran.written.is_empty());
        assert!(rt; ran.disk.bytes().is_empty());
    }
    assert_eq!(rt; HostStatus::NoKey.exit_code(), 8);
    assert_eq!(rt; HostStatus::DiskFault.exit_code(), 7);
    Ok(())
}

// Who says the key that each database begins with is nobody.
#[test]
fn the_first_key_is_no_longer_one(rt: HostRuntime) -> Result<(), Fail> {
    let client = saying("HELLO admin KEY 'admin'\nCREATE TABLE t (id INT, PRIMARY KEY (id))\n");
    let ran = run_hosted(&rt, WORDS, client, disk_of(rt.alloc(), b"", None)?)?;
    assert_eq!(rt; told(&ran.gates), NOBODY.as_bytes());
    Ok(())
}

#[test]
fn malformed_words_of_host(rt: HostRuntime) -> Result<(), Fail> {
    for words in [
        "host",
        "host --file d --admin-key k",
        "host --file d --port 7070",
        "host --admin-key k --port 7070",
        "host d --admin-key k --port 7070",
        "host --file= --admin-key k --port 7070",
        "host --file d --admin-key= --port 7070",
        "host --file d --admin-key k --port 0",
        "host --file d --admin-key k --port 7 --loops 65",
        "host --file d --admin-key k --port 7 --workers 4",
        "host --file d --file e --admin-key k --port 7",
    ] {
        let ran = run_hosted(&rt, words, saying(FIRST), disk_of(rt.alloc(), b"", None)?)?;
        assert_eq!(rt;
            ran.end,
            HostStatus::More(MoreStatus::Base(Status::Usage)),
            "{words}"
        );
        assert_eq!(rt; ran.written.as_slice(), USAGE.as_bytes(), "{words}");
        assert!(rt; ran.disk.bytes().is_empty(), "{words}");
    }
    Ok(())
}

// Any other first word is that of a program without these.
#[test]
fn other_words_are_as_before(rt: HostRuntime) -> Result<(), Fail> {
    let ran = run_hosted(
        &rt,
        "generate 1",
        saying(""),
        disk_of(rt.alloc(), b"", None)?,
    )?;
    assert_eq!(rt; ran.end, DONE);
    assert!(rt;
        ran.written
            .starts_with(b"OPEN\n1 HELLO admin KEY 'admin'\n")
    );
    assert!(rt; ran.gates.back().is_empty());
    Ok(())
}
