// The generator's script and what its run counts.
ghost use Rattle.std.specs.Prelude.{◌<◌};

use super::*;

// The names of the five numbers, in their order.
const NAMES: [&str; 5] = ["lines", "ok", "rows", "errors", "live"];

// What a run of eight INSERTs counts.
const EIGHT: &[u8] = b"lines 31\nok 28\nrows 2\nerrors 1\nlive 7\n";

// What the words write, and how they end.
fn written_for<R: AllocGlobal + Threads + Wait + Sync>(
    rt: &R,
    words: &str,
    piece: usize,
) -> Result<Ran, Fail>
    requires { 0 < piece }
{
    ended(rt, words, b"", (all_of(1), all_of(piece)))
}

// The numbers of a summary; none where it isn't five lines, each a name and a number.
fn numbers_of(text: &[u8]) -> Option<[u64; 5]> {
    let text = str::from_utf8(text).ok()?;
    let mut numbers = [0; 5];
    let mut lines = text.split('\n');
    for place in 0..5 {
        let (name, number) = lines.next()?.split_once(' ')?;
        if name != NAMES[place] {
            return None;
        }
        numbers[place] = number.parse().ok()?;
    }
    Some(numbers)
}

#[test]
fn eight_inserts(rt: HostRuntime) -> Result<(), Fail> {
    for words in [
        "generate --run 8",
        "generate 8 --run",
        "generate --run 0000000000008",
    ] {
        ends_with(
            &rt,
            words,
            b"",
            (all_of(1), all_of(7)),
            (Status::Done, EIGHT),
        )?;
    }
    Ok(())
}

#[test]
fn its_run_counts_what_run_writes(rt: HostRuntime) -> Result<(), Fail> {
    let script = written_for(&rt, "generate 8", 64)?;
    assert_eq!(rt; script.status, Status::Done);
    let ran = run(&rt, &script.written, 64)?;
    let mut counts = [0, 0, 0];
    for line in ran.written.split(|byte| *byte == b'\n') {
        count(&mut counts, line);
    }
    assert_eq!(rt; counts, [28, 2, 1]);
    Ok(())
}

// Counts a line that begins with OK or OPEN, ROWS, or ERR behind its session's number.
fn count(counts: &mut [u64; 3], line: &[u8]) {
    let kinds = [
        (0, b" OK".as_slice()),
        (0, b" OPEN".as_slice()),
        (1, b" ROWS".as_slice()),
        (2, b" ERR".as_slice()),
    ];
    let Some(at) = line.iter().position(|byte| *byte == b' ') else {
        return;
    };
    for (kind, word) in kinds {
        if line[at..].starts_with(word) {
            counts[kind] = counts[kind].saturating_add(1);
        }
    }
}

#[test]
fn ten_thousand_inserts_come_out_alike(rt: HostRuntime) -> Result<(), Fail> {
    let first = written_for(&rt, "generate --run 10000", 64)?;
    let second = written_for(&rt, "generate --run 10000", 4096)?;
    assert_eq!(rt; first.written.as_slice(), second.written.as_slice());
    let [lines, ok, rows, errors, live] = numbers_of(&first.written).unwrap_or([0; 5]);
    assert_eq!(rt; lines, 22_513);
    assert_eq!(rt; rows, 2_500);
    assert_eq!(rt; ok, live.saturating_add(10_013));
    assert_eq!(rt; errors, 10_000_u64.saturating_sub(live));
    Ok(())
}
