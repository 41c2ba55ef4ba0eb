//! How long each SELECT takes.
ghost use Rattle.std.specs.Prelude.{◌≤◌, IsTrue, length};
ghost use Rattle.ifdb_label.specs.Tags.{AreMade};
ghost use Rattle.ifdb_row.specs.Seen.{are_rows_made};
ghost use Rattle.ifdb_plan.specs.Keys.{are_keyed};
ghost use Rattle.ifdb_exec.specs.Given.{are_given_keyed};

use crate::checks::are_public;
use crate::requests::{groups, join, look_up, order, range, scan};
use crate::tables::{all_rows, apart_rows, scattered};
use ifdb_bound::BoundSelect;
use ifdb_exec::{Given, Reading, answer};
use ifdb_label::{Label, Tags};
use ifdb_plan::are_keyed;
use ifdb_row::{ListRows, OutOfMemory, Row};
use ifdb_value::{Shared, TableId};
use std::io;
use std::time::Instant;

/// The place of each table's key.
static KEY: [usize; 1] = [0];

/// How often each SELECT is tried; the least time counts.
const TRIES: u32 = 5;

/// How many look-ups are timed together.
const LOOK_UPS: u32 = 20_000;

/// The tables that are asked of.
#[derive(Clone, Copy)]
enum Tables {
    /// Tables whose rows join.
    Joining,
    /// Tables none of whose rows joins with another.
    Apart,
}

/// Prints how many rows each SELECT answers, of so many in a table.
pub(crate) fn show(rt: &HostRuntime, count: u32) -> io::Result<()> {
    ask_all(rt, count, false)
}

/// Prints what each SELECT takes, over so many rows in a table.
pub(crate) fn time(rt: &HostRuntime, count: u32) -> io::Result<()> {
    ask_all(rt, count, true)
}

/// Asks each SELECT.
fn ask_all(rt: &HostRuntime, count: u32, is_timed: bool) -> io::Result<()> {
    println!(rt; "{count} rows")?;
    let rows = all_rows(rt.alloc(), count)?;
    ask_over(rt, rows, Tables::Joining, count, is_timed)?;
    let rows = apart_rows(rt.alloc(), count)?;
    ask_over(rt, rows, Tables::Apart, count, is_timed)
}

/// Asks each SELECT that there is for tables of these rows.
fn ask_over(
    rt: &HostRuntime,
    rows: Vec<Shared<Row>>,
    tables: Tables,
    count: u32,
    is_timed: bool,
) -> io::Result<()> {
    if !are_public(&rows)
        || !are_keyed(TableId(0), &KEY, &rows)
        || !are_keyed(TableId(1), &KEY, &rows)
    {
        return Ok(());
    }
    let Some(rows) = ListRows::try_new(rows) else {
        return Ok(());
    };
    let alloc = rt.alloc();
    let tags = Tags::new(alloc);
    let label = Label::empty();
    let reading = Reading {
        alloc,
        tags: &tags,
        names: &[],
        label: &label,
    };
    let asked = Asked {
        reading: &reading,
        rows: &rows,
        is_timed,
    };
    match tables {
        Tables::Joining => ask_joining(rt, &asked, count),
        Tables::Apart => ask_nothing(rt, &asked),
    }
}

/// Asks the SELECTs over one table, and the joins.
fn ask_joining(rt: &HostRuntime, asked: &Asked<'_, '_>, count: u32) -> io::Result<()>
    requires made { IsTrue
        (are_rows_made (length asked.now.reading.now.tags.now) asked.now.rows.now) }
    requires label { AreMade
        (length asked.now.reading.now.tags.now) asked.now.reading.now.label.now }
    requires first { IsTrue (are_keyed 0 KEY asked.now.rows.now) }
    requires second { IsTrue (are_keyed 1 KEY asked.now.rows.now) }
{
    ask_one(rt, asked, count)?;
    ask_both(rt, asked)
}

/// Who asks, and of which rows.
#[derive(Drop)]
struct Asked<'s, 'q> {
    reading: &'s Reading<'q>,
    rows: &'s ListRows,
    is_timed: bool,
}

impl Asked<'_, '_> {
    /// How often each SELECT is tried.
    fn tries(&self) -> u32 {
        if self.is_timed { TRIES } else { 1 }
    }

    /// How many look-ups are asked.
    fn look_ups(&self) -> u32 {
        if self.is_timed { LOOK_UPS } else { 1 }
    }
}

/// Asks the SELECTs over one table.
fn ask_one(rt: &HostRuntime, asked: &Asked<'_, '_>, count: u32) -> io::Result<()>
    requires made { IsTrue
        (are_rows_made (length asked.now.reading.now.tags.now) asked.now.rows.now) }
    requires label { AreMade
        (length asked.now.reading.now.tags.now) asked.now.reading.now.label.now }
    requires keyed { IsTrue (are_keyed 0 KEY asked.now.rows.now) }
{
    let alloc = rt.alloc();
    let given = [Given::Keyed(TableId(0), &KEY)];
    let quarter = i64::from(count / 4);
    let what = "scan with a condition and COUNT";
    told(rt, asked, what, scan(alloc, quarter), &given)?;
    let what = "GROUP BY with COUNT and SUM";
    told(rt, asked, what, groups(alloc), &given)?;
    told(rt, asked, "ORDER BY", order(alloc), &given)?;
    let half = i64::from(count / 2);
    let request = range(alloc, half, half.wrapping_add(101));
    told(rt, asked, "a range of a hundred keys", request, &given)?;
    ask_keys(rt, asked, count, &given)
}

/// Asks for the rows of some keys of the first table.
fn ask_keys(
    rt: &HostRuntime,
    asked: &Asked<'_, '_>,
    count: u32,
    given: &[Given<'_>],
) -> io::Result<()>
    requires made { IsTrue
        (are_rows_made (length asked.now.reading.now.tags.now) asked.now.rows.now) }
    requires label { AreMade
        (length asked.now.reading.now.tags.now) asked.now.reading.now.label.now }
    requires keyed { IsTrue (are_given_keyed asked.now.rows.now given.now) }
    requires room { length given.now ≤ 4 }
{
    let mut best = Best::new();
    for _ in 0..asked.tries() {
        let start = Instant::now(rt)?;
        for i in 0..asked.look_ups() {
            let request = look_up(rt.alloc(), scattered(i, count))?;
            best.found = ask(asked, &request, given)?;
        }
        best.take(start.elapsed(rt)?.as_micros());
    }
    best.tell(rt, asked, "look-ups of a key")
}

/// Asks the SELECTs over both tables.
fn ask_both(rt: &HostRuntime, asked: &Asked<'_, '_>) -> io::Result<()>
    requires made { IsTrue
        (are_rows_made (length asked.now.reading.now.tags.now) asked.now.rows.now) }
    requires label { AreMade
        (length asked.now.reading.now.tags.now) asked.now.reading.now.label.now }
    requires first { IsTrue (are_keyed 0 KEY asked.now.rows.now) }
    requires second { IsTrue (are_keyed 1 KEY asked.now.rows.now) }
{
    let alloc = rt.alloc();
    let given = [
        Given::Keyed(TableId(0), &KEY),
        Given::Keyed(TableId(1), &KEY),
    ];
    told(rt, asked, "join on the key", join(alloc, 0), &given)?;
    told(rt, asked, "join on another column", join(alloc, 2), &given)
}

/// Asks the joins over both tables whose rows don't join: on numbers, and on NULL, which equals nothing.
fn ask_nothing(rt: &HostRuntime, asked: &Asked<'_, '_>) -> io::Result<()>
    requires made { IsTrue
        (are_rows_made (length asked.now.reading.now.tags.now) asked.now.rows.now) }
    requires label { AreMade
        (length asked.now.reading.now.tags.now) asked.now.reading.now.label.now }
    requires first { IsTrue (are_keyed 0 KEY asked.now.rows.now) }
    requires second { IsTrue (are_keyed 1 KEY asked.now.rows.now) }
{
    let alloc = rt.alloc();
    let given = [
        Given::Keyed(TableId(0), &KEY),
        Given::Keyed(TableId(1), &KEY),
    ];
    told(rt, asked, "join that finds nothing", join(alloc, 1), &given)?;
    told(rt, asked, "join on NULL", join(alloc, 2), &given)
}

/// Asks a SELECT that there was memory for, and prints its time or how many rows it answers.
fn told(
    rt: &HostRuntime,
    asked: &Asked<'_, '_>,
    what: &str,
    query: Result<BoundSelect, OutOfMemory>,
    given: &[Given<'_>],
) -> io::Result<()>
    requires made { IsTrue
        (are_rows_made (length asked.now.reading.now.tags.now) asked.now.rows.now) }
    requires label { AreMade
        (length asked.now.reading.now.tags.now) asked.now.reading.now.label.now }
    requires keyed { IsTrue (are_given_keyed asked.now.rows.now given.now) }
    requires room { length given.now ≤ 4 }
{
    let query = query?;
    let mut best = Best::new();
    for _ in 0..asked.tries() {
        let start = Instant::now(rt)?;
        best.found = ask(asked, &query, given)?;
        best.take(start.elapsed(rt)?.as_micros());
    }
    best.tell(rt, asked, what)
}

/// How many rows a SELECT answers.
fn ask(asked: &Asked<'_, '_>, query: &BoundSelect, given: &[Given<'_>]) -> io::Result<usize>
    requires made { IsTrue
        (are_rows_made (length asked.now.reading.now.tags.now) asked.now.rows.now) }
    requires label { AreMade
        (length asked.now.reading.now.tags.now) asked.now.reading.now.label.now }
    requires keyed { IsTrue (are_given_keyed asked.now.rows.now given.now) }
    requires room { length given.now ≤ 4 }
{
    match answer(asked.reading, asked.rows, query, given) {
        Ok(rows) => Ok(rows.len()),
        Err(_) => Err(io::Error::from(OutOfMemory)),
    }
}

/// How many rows a SELECT answers, and its least time so far, in microseconds.
#[derive(Drop)]
struct Best {
    found: usize,
    time: u128,
}

impl Best {
    fn new() -> Self {
        Best {
            found: 0,
            time: u128::MAX,
        }
    }

    /// Takes the time of one try.
    fn take(&mut self, time: u128) {
        self.time = self.time.min(time);
    }

    /// Prints the time, or how many rows were found.
    fn tell(self, rt: &HostRuntime, asked: &Asked<'_, '_>, what: &str) -> io::Result<()> {
        let Best { found, time } = self;
        if asked.is_timed {
            println!(rt; "  {what}: {time} us")
        } else {
            println!(rt; "  {what}: {found} rows")
        }
    }
}
