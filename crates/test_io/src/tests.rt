// What no clause says: that the calls succeed, and worked rows. And that what a link means is enough
// for its callers: what was written stays while a line is read.
ghost use Rattle.std.specs.Prelude.{◌≡◌, ◌≢◌, ◌<◌, ◌≤◌, false, length, OnErr};

use ifdb_io::*;
use std::alloc::Global;
use std::process::Abort;
use std::test::Fail;

// Reading a line of a link leaves what was written.
fn next_of<K: Link>(reader: &mut LineReader, link: &mut K) -> Result<Line, LineFault>
    requires { reader.old.over ≡ false }
    ensures written { K.written link.new ≡ K.written link.old }
    ensures faults { K.Sink.faults link.new ≡ K.Sink.faults link.old }
{
    reader.next(link)
}

// Writing to a link leaves what is left to read.
fn reply<K: Link>(link: &mut K, text: &[u8]) -> Result<(), Failed>
    ensures left { K.left link.new ≡ K.left link.old }
    ensures faults { K.Source.faults link.new ≡ K.Source.faults link.old }
{
    write_all(link, text)
}

// A sure source gives no fault.
fn sure_next(reader: &mut LineReader, source: &mut SureSource) -> Result<Line, LineFault>
    requires { reader.old.over ≡ false }
    ensures { result ≢ Err LineFault.Read }
{
    reader.next(source)
}

// A sure sink gives no fault before its room is full.
fn sure_reply(sink: &mut SureSink, text: &[u8]) -> Result<(), Failed>
    ensures { OnErr result (sink.old.room ≤ length sink.new.written) }
{
    write_all(sink, text)
}

// As many bytes of `x`, and then these.
fn input(alloc: Global, count: usize, behind: &str) -> Result<Vec<u8>, OutOfMemory> {
    let mut bytes = vec![in alloc; b'x'; count]?;
    bytes.extend_from_slice(behind.as_bytes())?;
    Ok(bytes)
}

// What a reader answers up to its end: a letter for each answer, and the text, or the length of a long one.
fn answers(alloc: Global, source: &mut MemorySource, limit: u32) -> Result<String, Fail> {
    let mut reader = LineReader::new(alloc, u64::from(limit))?;
    let mut all = String::new(alloc);
    for _ in 0..8 {
        if reader.is_over() {
            break;
        }
        all.push_str(match reader.next(source) {
            Ok(Line::Whole) => "W",
            Ok(Line::Rest) => "R",
            Ok(Line::TooLong) => "L",
            Ok(Line::End) => "E",
            Err(LineFault::Read) => "F",
            Err(LineFault::TooMuch) => "M",
        })?;
        match std::str::from_utf8(reader.text()) {
            Ok(text) if text.len() < 8 => all.push_str(text)?,
            _ => all.push_str(format!(in alloc; "{}", reader.text().len())?.as_str())?,
        }
        all.push_str(" ")?;
    }
    Ok(all)
}

const PIECES: [usize; 3] = [1, 3, 65536];

// As many bytes of `x`, what stands behind them, the limit, and the answers.
type LineRow = (usize, &'static str, u32, &'static str);

static LINES: [LineRow; 24] = [
    (0, "", 99999, "E "),
    (0, "\n", 99999, "W E "),
    (0, "a\n\nb", 99999, "Wa W Rb "),
    (0, "a\r\n", 99999, "Wa\r E "),
    (65535, "", 99999, "R65535 "),
    (65535, "\n", 99999, "W65535 E "),
    (65536, "", 99999, "L65536 E "),
    (65536, "\n", 99999, "L65536 E "),
    (65536, "\nab\nc", 99999, "L65536 Wab Rc "),
    (65537, "", 99999, "L65536 E "),
    (65537, "\n\nab\n", 99999, "L65536 W Wab E "),
    // The limit at the end of the input, and below it.
    (0, "", 0, "E "),
    (0, "\n", 0, "M "),
    (0, "OPEN\n", 5, "WOPEN E "),
    (0, "OPEN\n", 4, "MOPEN "),
    (0, "OPEN", 4, "ROPEN "),
    (0, "OPEN", 3, "MOPE "),
    (0, "a\nb\n", 3, "Wa Mb "),
    (0, "a\nb\n", 2, "Wa M "),
    (65535, "\n", 65536, "W65535 E "),
    (65535, "\n", 65535, "M65535 "),
    (65536, "\n", 65537, "L65536 E "),
    (65536, "\n", 65536, "L65536 M "),
    (65536, "\n", 65535, "M65535 "),
];

#[test]
fn lines_of_each_length(rt: HostRuntime) -> Result<(), Fail> {
    for row in &LINES {
        for piece in PIECES {
            are_answered(&rt, rt.alloc(), row, piece)?;
        }
    }
    Ok(())
}

// Tests what a reader answers, where so many bytes are given at a time.
fn are_answered(rt: &impl Abort, alloc: Global, row: &LineRow, piece: usize) -> Result<(), Fail> {
    let (count, behind, limit, want) = *row;
    assert!(rt; piece > 0);
    let mut source = source_of(alloc, count, behind, piece)?;
    let got = answers(alloc, &mut source, limit)?;
    assert_eq!(rt; got.as_str(), want, "at {count}, {limit} and {piece}");
    Ok(())
}

// As many bytes of `x`, and then these, in pieces of this size.
fn source_of(
    alloc: Global,
    count: usize,
    behind: &str,
    piece: usize,
) -> Result<MemorySource, OutOfMemory>
    requires { 0 < piece }
{
    let bytes = input(alloc, count, behind)?;
    Ok(MemorySource::new(bytes, piece, Vec::new(alloc)))
}

// Two lines in pieces of three bytes, where this read fails.
fn failing_source(alloc: Global, fail: u64) -> Result<MemorySource, OutOfMemory> {
    let fails = Vec::from_array(alloc, [fail])?;
    let bytes = input(alloc, 0, "a\nbXcYd\n")?;
    Ok(MemorySource::new(bytes, 3, fails))
}

#[test]
fn failing_read_ends_the_lines(rt: HostRuntime) -> Result<(), Fail> {
    for (fail, want) in [(0, "F "), (1, "Wa Fb "), (2, "Wa FbXcY ")] {
        let mut source = failing_source(rt.alloc(), fail)?;
        let got = answers(rt.alloc(), &mut source, 100)?;
        assert_eq!(rt; got.as_str(), want, "at call {fail}");
    }
    Ok(())
}

// A piece, a room and the call that fails; whether `hello` is written, and what of it is there.
type WriteRow = (usize, usize, u64, bool, &'static str);

static WRITES: [WriteRow; 9] = [
    (1, 100, 9, true, "hello"),
    (3, 100, 9, true, "hello"),
    (65536, 100, 9, true, "hello"),
    (3, 5, 9, true, "hello"),
    (3, 4, 9, false, "hell"),
    (3, 0, 9, false, ""),
    (3, 100, 0, false, ""),
    (3, 100, 1, false, "hel"),
    (3, 100, 2, true, "hello"),
];

#[test]
fn writes_in_pieces(rt: HostRuntime) -> Result<(), Fail> {
    for row in &WRITES {
        is_written(&rt, rt.alloc(), row)?;
    }
    Ok(())
}

fn is_written(rt: &impl Abort, alloc: Global, row: &WriteRow) -> Result<(), OutOfMemory> {
    let (piece, room, fail, written, want) = *row;
    assert!(rt; piece > 0);
    let mut sink = sink_of(alloc, piece, room, fail)?;
    let result = write_all(&mut sink, b"hello");
    assert_eq!(rt; result.is_ok(), written, "with {piece}, {room} and {fail}");
    assert_eq!(rt;
        sink.bytes(),
        want.as_bytes(),
        "with {piece}, {room} and {fail}"
    );
    Ok(())
}

// A sink that takes pieces of this size, has this room, and fails at this call.
fn sink_of(alloc: Global, piece: usize, room: usize, fail: u64) -> Result<MemorySink, OutOfMemory>
    requires { 0 < piece }
{
    let fails = Vec::from_array(alloc, [fail])?;
    MemorySink::new(alloc, piece, room, fails)
}

#[test]
fn link_of_sure_ends(rt: HostRuntime) -> Result<(), Fail> {
    let bytes = input(rt.alloc(), 3, "\n")?;
    let mut link = SureLink {
        source: SureSource::new(bytes, 2),
        sink: SureSink::new(rt.alloc(), 2, 4)?,
    };
    let mut reader = LineReader::new(rt.alloc(), 100)?;
    assert_eq!(rt; next_of(&mut reader, &mut link), Ok(Line::Whole));
    assert_eq!(rt; reply(&mut link, reader.text()), Ok(()));
    assert_eq!(rt; reader.taken(), 4);
    assert_eq!(rt; reply(&mut link, b"!!"), Err(Failed));
    assert_eq!(rt; link.sink.bytes(), b"xxx!".as_slice());
    Ok(())
}

// A link that gives nothing and takes so many bytes.
fn link_of(alloc: Global, room: usize) -> Result<MemoryLink, OutOfMemory> {
    Ok(MemoryLink {
        source: MemorySource::new(Vec::new(alloc), 1, Vec::new(alloc)),
        sink: MemorySink::new(alloc, 9, room, Vec::new(alloc))?,
    })
}

// A door with links that take 0 bytes, 1 byte and so on, and fails at this call.
fn door_of(alloc: Global, links: usize, fail: u64) -> Result<MemoryDoor<MemoryLink>, OutOfMemory> {
    let mut all = Vec::new(alloc);
    for room in 0..links {
        all.push(link_of(alloc, room)?)?;
    }
    MemoryDoor::new(alloc, all, [fail].to_vec(alloc)?)
}

// Takes up to eight links of a door, writes to each and hands it back. How often the door failed.
fn serve<D: Door>(door: &mut D) -> u64 {
    let mut failures: u64 = 0;
    for _ in 0..8 {
        match door.next() {
            Ok(Some(mut link)) => {
                let _ = write_all(&mut link, b"hello");
                door.done(link);
            }
            Ok(None) => break,
            Err(Failed) => failures = failures.saturating_add(1),
        }
    }
    failures
}

#[test]
fn door_gives_its_links_in_order(rt: HostRuntime) -> Result<(), Fail> {
    let mut door = door_of(rt.alloc(), 3, 1)?;
    assert_eq!(rt; door.left(), 3);
    assert_eq!(rt; serve(&mut door), 1);
    assert_eq!(rt; door.left(), 0);
    let back = door.back();
    assert_eq!(rt; back.len(), 3);
    for (link, want) in back.iter().zip(["", "h", "he"]) {
        assert_eq!(rt; link.sink.bytes(), want.as_bytes());
    }
    Ok(())
}

// Doors with one link, two and three.
fn three_doors(alloc: Global) -> Result<Vec<MemoryDoor<MemoryLink>>, OutOfMemory> {
    let mut doors = Vec::new(alloc);
    for links in 1..4 {
        doors.push(door_of(alloc, links, 9)?)?;
    }
    Ok(doors)
}

// A site with these, whose third call fails.
fn site_of(alloc: Global) -> Result<MemorySite<MemoryLink>, OutOfMemory> {
    let fails = Vec::from_array(alloc, [2])?;
    let doors = three_doors(alloc)?;
    Ok(MemorySite::new(alloc, doors, fails))
}

#[test]
fn site_gives_its_first_doors(rt: HostRuntime) -> Result<(), Fail> {
    let mut site = site_of(rt.alloc())?;
    for (count, links) in [(4, 9), (2, 1), (2, 9)] {
        let refused = site.doors(7070, count, links).err();
        assert_eq!(rt; refused, Some(SiteFault::Failed), "{count} with {links}");
    }
    let doors = site.doors(7070, 2, 2)?;
    assert_eq!(rt; doors.len(), 2);
    site.close(doors);
    assert_eq!(rt; site.back().len(), 2);
    assert_eq!(rt; site.back()[1].left(), 2);
    Ok(())
}
