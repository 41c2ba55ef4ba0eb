// What no clause says: that a loop gets on, whatever the pieces, the waits and the faults.
use crate::Echo;
use ifdb_loop::{Coming, Ending, Halt, Loop, MemoryGate, Step, Terms, serve};
use std::alloc::Global;
use std::test::Fail;

const TERMS: Terms = Terms {
    connections: 100,
    hello: 100,
    idle: 100,
    stall: 100,
};

// How many bytes a connection may give, where it isn't said.
const LIMIT: usize = 1_000_000;

// A loop that was run: its gate, how many sessions have left, and how it ended.
#[derive(Drop)]
struct Ran {
    gate: MemoryGate,
    left: u64,
    end: Result<(), Halt>,
}

// A loop that takes so many bytes of a connection, whose gate fails after so many waits, and where the settling of this number fails.
fn run(
    alloc: Global,
    terms: Terms,
    limit: usize,
    coming: Vec<Coming>,
    waits: u64,
    fails_at: u64,
) -> Result<Ran, Fail> {
    let mut gate = MemoryGate::new(alloc, coming, waits)?;
    let mut echo = Echo::new(alloc, limit, fails_at);
    let mut looping = Loop::new(alloc, terms)?;
    let end = serve(&mut gate, &mut echo, &mut looping);
    Ok(Ran {
        gate,
        left: echo.left,
        end,
    })
}

// A connection that gives this, whose first calls go by these steps.
fn coming(alloc: Global, text: &[u8], reads: &[Step], writes: &[Step]) -> Result<Coming, Fail> {
    let mut one = Coming {
        bytes: Vec::new(alloc),
        reads: Vec::new(alloc),
        writes: Vec::new(alloc),
    };
    one.bytes.extend_from_slice(text)?;
    one.reads.extend_from_slice(reads)?;
    one.writes.extend_from_slice(writes)?;
    Ok(one)
}

// What the connection of this number was told that was given back, and how it ended.
fn told(gate: &MemoryGate, number: usize) -> Option<(&[u8], Ending)> {
    let over = gate.back().get(number)?;
    Some((over.port.written(), over.ending))
}

// How many bytes it was told, and how it ended.
fn counted(gate: &MemoryGate, number: usize) -> Option<(usize, Ending)> {
    let (text, ending) = told(gate, number)?;
    Some((text.len(), ending))
}

// One connection, by itself.
fn alone(
    alloc: Global,
    terms: Terms,
    text: &[u8],
    reads: &[Step],
    writes: &[Step],
) -> Result<MemoryGate, Fail> {
    let mut all = Vec::new(alloc);
    all.push(coming(alloc, text, reads, writes)?)?;
    Ok(run(alloc, terms, LIMIT, all, 100, 0)?.gate)
}

#[test]
fn lines_are_answered_whatever_the_pieces(rt: HostRuntime) -> Result<(), Fail> {
    for size in 1..14 {
        let piece = Step::Piece(size);
        let reads = [
            piece,
            Step::Wait,
            piece,
            piece,
            Step::Wait,
            piece,
            piece,
            piece,
            piece,
            piece,
            piece,
            piece,
            piece,
            piece,
        ];
        let writes = [Step::Wait, Step::Piece(2), Step::Piece(1), Step::Wait];
        let text = b"a\nbb\n\nBYE\nmore\n";
        let gate = alone(rt.alloc(), TERMS, text, &reads, &writes)?;
        let want = b"a\nbb\n\nBYE\n".as_slice();
        assert!(rt; told(&gate, 0) == Some((want, Ending::Bye)));
    }
    Ok(())
}

#[test]
fn each_gets_its_own(rt: HostRuntime) -> Result<(), Fail> {
    let alloc = rt.alloc();
    let mut all = Vec::new(alloc);
    all.push(coming(alloc, b"third\n", &[Step::Wait, Step::Wait], &[])?)?;
    all.push(coming(alloc, b"second\nhalf", &[Step::Wait], &[])?)?;
    all.push(coming(alloc, b"first\nBYE\n", &[], &[])?)?;
    let ran = run(alloc, TERMS, LIMIT, all, 10, 0)?;
    assert!(rt; told(&ran.gate, 0) == Some((b"first\nBYE\n".as_slice(), Ending::Bye)));
    assert!(rt; told(&ran.gate, 1) == Some((b"second\n".as_slice(), Ending::End)));
    assert!(rt; told(&ran.gate, 2) == Some((b"third\n".as_slice(), Ending::End)));
    assert_eq!(rt; ran.left, 3);
    assert!(rt; ran.end == Ok(()));
    Ok(())
}

#[test]
fn a_fault_ends_its_connection_alone(rt: HostRuntime) -> Result<(), Fail> {
    let alloc = rt.alloc();
    let mut all = Vec::new(alloc);
    all.push(coming(alloc, b"kept\nBYE\n", &[Step::Wait, Step::Wait], &[])?)?;
    let reads = [Step::Piece(6), Step::Piece(5)];
    let writes = [Step::Piece(3), Step::Fail];
    all.push(coming(alloc, b"asked\nlost\n", &reads, &writes)?)?;
    let reads = [Step::Piece(5), Step::Fail];
    all.push(coming(alloc, b"read\nlost\n", &reads, &[])?)?;
    let gate = run(alloc, TERMS, LIMIT, all, 10, 0)?.gate;
    assert!(rt; told(&gate, 0) == Some((b"ask".as_slice(), Ending::LinkWrite)));
    assert!(rt; told(&gate, 1) == Some((b"read\n".as_slice(), Ending::LinkRead)));
    assert!(rt; told(&gate, 2) == Some((b"kept\nBYE\n".as_slice(), Ending::Bye)));
    Ok(())
}

#[test]
fn a_fault_may_come_at_any_call(rt: HostRuntime) -> Result<(), Fail> {
    let text = b"a\nb\nc\nd\ne\nBYE\n";
    for call in 0..5 {
        let mut steps = [Step::Piece(2); 5];
        steps[call] = Step::Fail;
        let gate = alone(rt.alloc(), TERMS, text, &steps, &[])?;
        let want = &text[..2 * call];
        assert!(rt; told(&gate, 0) == Some((want, Ending::LinkRead)));
        let gate = alone(rt.alloc(), TERMS, text, &[Step::Piece(2); 5], &steps)?;
        assert!(rt; told(&gate, 0) == Some((want, Ending::LinkWrite)));
    }
    Ok(())
}

#[test]
fn nothing_is_written_that_is_not_kept(rt: HostRuntime) -> Result<(), Fail> {
    let alloc = rt.alloc();
    let mut all = Vec::new(alloc);
    all.push(coming(alloc, b"a\nBYE\n", &[], &[])?)?;
    all.push(coming(alloc, b"b\n", &[Step::Piece(2), Step::Wait], &[])?)?;
    let ran = run(alloc, TERMS, LIMIT, all, 10, 2)?;
    let unkept = Ending::Halted(Halt::Unkept);
    assert!(rt; told(&ran.gate, 0) == Some((b"".as_slice(), unkept)));
    assert!(rt; told(&ran.gate, 1) == Some((b"".as_slice(), Ending::Bye)));
    assert_eq!(rt; ran.left, 2);
    assert!(rt; ran.end == Err(Halt::Unkept));
    Ok(())
}

#[test]
fn a_line_that_is_too_long_is_refused(rt: HostRuntime) -> Result<(), Fail> {
    let alloc = rt.alloc();
    let mut text = Vec::new(alloc);
    text.extend_from_slice(b"first\n")?;
    text.resize(6 + 65_536, b'y')?;
    text.extend_from_slice(b"\nnever\n")?;
    let gate = alone(alloc, TERMS, &text, &[Step::Piece(40_000)], &[])?;
    let want = b"first\n!\n".as_slice();
    assert!(rt; told(&gate, 0) == Some((want, Ending::TooLong)));
    Ok(())
}

#[test]
fn no_more_is_taken_than_the_limit(rt: HostRuntime) -> Result<(), Fail> {
    let endings = [Ending::TooMuch, Ending::TooMuch, Ending::End, Ending::End];
    for (ending, bytes) in endings.into_iter().zip(4..8) {
        let mut all = Vec::new(rt.alloc());
        all.push(coming(rt.alloc(), b"abc\nde", &[], &[])?)?;
        let gate = run(rt.alloc(), TERMS, bytes, all, 100, 0)?.gate;
        assert!(rt; told(&gate, 0) == Some((b"abc\n".as_slice(), ending)));
    }
    Ok(())
}

#[test]
fn many_lines_of_one_wait_for_one_of_another(rt: HostRuntime) -> Result<(), Fail> {
    let alloc = rt.alloc();
    let mut many = Vec::new(alloc);
    many.resize(10_000, b'\n')?;
    let mut all = Vec::new(alloc);
    all.push(coming(alloc, b"BYE\n", &[], &[])?)?;
    all.push(coming(alloc, &many, &[], &[])?)?;
    let ran = run(alloc, TERMS, LIMIT, all, 3, 0)?;
    let halted = Ending::Halted(Halt::Gate);
    assert!(rt; told(&ran.gate, 0) == Some((b"BYE\n".as_slice(), Ending::Bye)));
    // One turn in the first round, and two in the next: it was listed, and is ready.
    assert!(rt; counted(&ran.gate, 1) == Some((3 * 128, halted)));
    assert!(rt; ran.end == Err(Halt::Gate));
    Ok(())
}

#[test]
fn who_is_silent_or_takes_nothing_is_put_out(rt: HostRuntime) -> Result<(), Fail> {
    let waits = [Step::Wait; 50];
    let terms = Terms {
        hello: 5,
        idle: 10,
        stall: 20,
        ..TERMS
    };
    let gate = alone(rt.alloc(), terms, b"a\n", &waits, &[])?;
    assert!(rt; told(&gate, 0) == Some((b"".as_slice(), Ending::LinkRead)));
    let reads = [Step::Piece(2)];
    let gate = alone(rt.alloc(), terms, b"a\nb\n", &reads, &waits)?;
    assert!(rt; told(&gate, 0) == Some((b"".as_slice(), Ending::End)));
    Ok(())
}

#[test]
fn those_past_the_most_are_refused(rt: HostRuntime) -> Result<(), Fail> {
    let alloc = rt.alloc();
    let mut all = Vec::new(alloc);
    for _ in 0..3 {
        all.push(coming(alloc, b"BYE\n", &[], &[])?)?;
    }
    let terms = Terms {
        connections: 2,
        ..TERMS
    };
    let gate = run(alloc, terms, LIMIT, all, 5, 0)?.gate;
    assert_eq!(rt; gate.back().len(), 2);
    assert_eq!(rt; gate.refused, 1);
    Ok(())
}
