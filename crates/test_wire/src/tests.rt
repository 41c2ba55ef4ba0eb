// What no clause says: that the calls succeed, and texts written by hand.
use ifdb_value::{OutOfMemory, Value, ValueRow, ValueRows, Word};
use ifdb_wire::{Fault, Out, Reply, StepLine, Table, step_line};
use std::alloc::Global;
use std::process::Abort;
use std::test::Fail;

#[test]
fn faults_have_numbers(rt: HostRuntime) -> Result<(), Fail> {
    assert_eq!(rt; Fault::Syntax(7).number(), 1);
    assert_eq!(rt; Fault::TypeMismatch.number(), 11);
    assert_eq!(rt; Fault::NoSession.number(), 28);
    Ok(())
}

// Longer than the room that a buffer has at first.
const LONG_LABEL: &str =
    "atag_0123456789_0123456789_0123456789_01234567,btag_0123456789_0123456789_0123456789_01234567,ctag_0123456789_0123456789_0123456789_01234567";

const LONG_LABEL_LINE: &str =
    "7 LABEL (atag_0123456789_0123456789_0123456789_01234567,btag_0123456789_0123456789_0123456789_01234567,ctag_0123456789_0123456789_0123456789_01234567)\n";

// Tests that a reply is put as this text.
fn is_put(rt: &impl Abort, out: &mut Out, session: Option<u64>, reply: &Reply, wanted: &str) {
    out.speak_for(session);
    assert!(rt; out.bytes().is_empty());
    assert!(rt; out.put(reply), "{wanted}");
    assert_eq!(rt; out.bytes(), wanted.as_bytes());
}

// Tests that nothing is left of what was put.
fn clears(rt: &impl Abort, out: &mut Out) {
    out.clear();
    assert!(rt; out.bytes().is_empty());
}

#[test]
fn replies_have_their_lines(rt: HostRuntime) -> Result<(), Fail> {
    let mut out = Out::new(rt.alloc())?;
    let table = [
        (None, Reply::Done, "OK\n"),
        (Some(3), Reply::Opened, "3 OPEN\n"),
        (None, Reply::Count(40), "OK 40\n"),
        (
            Some(u64::MAX),
            Reply::Count(u64::MAX),
            "18446744073709551615 OK 18446744073709551615\n",
        ),
        (
            Some(0),
            Reply::Refused(Fault::TooLong),
            "0 ERR 21 TooLong\n",
        ),
        (
            Some(12),
            Reply::Refused(Fault::Syntax(14)),
            "12 ERR 1 Syntax 14\n",
        ),
        (
            Some(1),
            Reply::Refused(Fault::StillReferenced),
            "1 ERR 19 StillReferenced\n",
        ),
    ];
    for (session, reply, wanted) in &table {
        is_put(&rt, &mut out, *session, reply, wanted);
        clears(&rt, &mut out);
    }
    Ok(())
}

// A session, a label's text, and what is put of it.
type LabelRow = (Option<u64>, &'static str, &'static str);

static LABELS: [LabelRow; 3] = [
    (Some(1), "", "1 LABEL ()\n"),
    (None, "a,every", "LABEL (a,every)\n"),
    (Some(7), LONG_LABEL, LONG_LABEL_LINE),
];

#[test]
fn labels_have_their_lines(rt: HostRuntime) -> Result<(), Fail> {
    let mut out = Out::new(rt.alloc())?;
    for row in &LABELS {
        label_is_put(&rt, rt.alloc(), &mut out, row)?;
    }
    Ok(())
}

fn label_is_put(
    rt: &impl Abort,
    alloc: Global,
    out: &mut Out,
    row: &LabelRow,
) -> Result<(), OutOfMemory> {
    let (session, text, wanted) = *row;
    let label = Reply::Label(Word::of(alloc, text)?);
    is_put(rt, out, session, &label, wanted);
    clears(rt, out);
    Ok(())
}

// A row of a number and a text.
fn row(alloc: Global, number: i64, text: &str) -> Result<ValueRow, OutOfMemory> {
    let text = Word::of(alloc, text)?;
    Ok(ValueRow::from_vec(Vec::from_array(alloc, [Value::Int(number), Value::Text(text)])?))
}

static NUMBERED: [(i64, &str); 3] = [
    (39, "it's a\\b"),
    (
        i64::MIN,
        "\\\t\r and no more, in a row so long that the buffer has to take more room",
    ),
    (-1, ""),
];

fn three_rows(alloc: Global) -> Result<ValueRows, OutOfMemory> {
    let mut rows = ValueRows::new(alloc);
    for (number, text) in &NUMBERED {
        rows.push(row(alloc, *number, text)?)?;
    }
    Ok(rows)
}

#[test]
fn tables_have_a_line_for_each_row(rt: HostRuntime) -> Result<(), Fail> {
    let mut out = Out::new(rt.alloc())?;
    let none = ValueRows::new(rt.alloc());
    table_is_put(&rt, &mut out, none, "2 ROWS 0 2\n");
    table_is_put(
        &rt,
        &mut out,
        three_rows(rt.alloc())?,
        "2 ROWS 3 2\n2 39\tit's a\\\\b\n2 -9223372036854775808\t\\\\\\t\\r and no more, in a row so long that the buffer has to take more room\n2 -1\t\n",
    );
    Ok(())
}

// Tests that a table of two columns is put as this text to session 2.
fn table_is_put(rt: &impl Abort, out: &mut Out, rows: ValueRows, wanted: &str) {
    let table = Reply::Rows(Table { columns: 2, rows });
    is_put(rt, out, Some(2), &table, wanted);
}

#[test]
fn lines_are_read(rt: HostRuntime) -> Result<(), Fail> {
    let table = [
        ("", StepLine::Skip),
        ("\r", StepLine::Skip),
        ("# OPEN", StepLine::Skip),
        ("OPEN\r", StepLine::Open),
        ("OPEN ", StepLine::Stray),
        ("open", StepLine::Stray),
        ("OPEN\r\r", StepLine::Stray),
        ("7 BEGIN", StepLine::Ask(7, b"BEGIN")),
        ("1  SHOW LABEL\r\r", StepLine::Ask(1, b" SHOW LABEL\r")),
        ("12", StepLine::Ask(12, b"")),
        ("12 ", StepLine::Ask(12, b"")),
        (
            "999999999999999999 X",
            StepLine::Ask(999_999_999_999_999_999, b"X"),
        ),
        ("1000000000000000000 X", StepLine::Stray),
        ("0 X", StepLine::Stray),
        ("01 X", StepLine::Stray),
        ("-1 X", StepLine::Stray),
        ("1\tX", StepLine::Stray),
        (" 1 X", StepLine::Stray),
        ("foo", StepLine::Stray),
    ];
    for (line, wanted) in table {
        assert_eq!(rt; step_line(line.as_bytes()), wanted, "{line}");
    }
    Ok(())
}
