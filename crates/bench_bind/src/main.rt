//! Times binding on statements as an application writes them, in a catalog of three tables and a view.
//!
//! With a word, as `time`, it prints for each statement how many are bound a second. Without one it prints how each is bound, which
//! is the same each time.
#![tactic(auto)]

mod statements;

use ifdb_bind::bind;
use ifdb_bound::{Bound, OutOfMemory};
use ifdb_catalog::{Catalog, bound_changes_are_new};
use ifdb_parse::{ParseFault, parse};
use ifdb_syntax::Request;
use ifdb_value::Principal;
use ifdb_wire::Fault;
use statements::{MADE, STATEMENTS, Statement};
use std::alloc::Global;
use std::time::Instant;
use std::{env, io};

/// How often each statement is bound, to find the least time.
const CALLS: u32 = 300;

/// Who asks.
const ASKER: Principal = Principal(0);

fn main(rt: HostRuntime) -> io::Result<()> {
    let timed = env::args(&rt)?.nth(1).is_some();
    let Ok(catalog) = made(rt.alloc()) else {
        return println!(rt; "the catalog isn't made");
    };
    let printed = print(&rt, &catalog, timed);
    drop(catalog);
    printed
}

/// Prints of each statement its times, or how it is bound.
fn print(rt: &HostRuntime, catalog: &Catalog, timed: bool) -> io::Result<()> {
    for statement in &STATEMENTS {
        if timed {
            time(rt, catalog, statement)?;
        } else {
            show(rt, catalog, statement)?;
        }
    }
    Ok(())
}

/// Why the catalog isn't made, or a statement isn't bound.
#[derive(Clone, Copy, Debug)]
enum BenchFault {
    /// A line is no request.
    Read(ParseFault),
    /// A request is refused.
    Refused(Fault),
}

impl From<ParseFault> for BenchFault {
    fn from(fault: ParseFault) -> Self {
        BenchFault::Read(fault)
    }
}

impl From<Fault> for BenchFault {
    fn from(fault: Fault) -> Self {
        BenchFault::Refused(fault)
    }
}

impl From<OutOfMemory> for BenchFault {
    fn from(_: OutOfMemory) -> Self {
        BenchFault::Refused(Fault::OutOfMemory)
    }
}

/// The catalog that the statements are bound in.
fn made(alloc: Global) -> Result<Catalog, BenchFault> {
    let mut catalog = Catalog::opening(alloc)?;
    match make_all(alloc, &mut catalog) {
        Ok(()) => Ok(catalog),
        Err(fault) => {
            drop(catalog);
            Err(fault)
        }
    }
}

/// Makes what the catalog is made of.
fn make_all(alloc: Global, catalog: &mut Catalog) -> Result<(), BenchFault> {
    for line in &MADE {
        let request = parse(alloc, line)?;
        make(alloc, catalog, request)?;
    }
    Ok(())
}

/// Makes the change that is asked for.
fn make(alloc: Global, catalog: &mut Catalog, request: Request) -> Result<(), Fault> {
    let bound = bind(alloc, catalog, ASKER, request)?;
    bound_changes_are_new();
    match bound {
        Bound::Change(change) => catalog.apply(change),
        other => {
            drop(other);
            Ok(())
        }
    }
}

/// Prints how a statement is bound.
fn show(rt: &HostRuntime, catalog: &Catalog, statement: &Statement) -> io::Result<()> {
    match bound_form(rt.alloc(), catalog, statement.text) {
        Ok(form) => println!(rt; "{}: {form}", statement.name),
        Err(fault) => println!(rt; "{}: {fault:?}", statement.name),
    }
}

/// The form of what a line is bound to.
fn bound_form(alloc: Global, catalog: &Catalog, line: &[u8]) -> Result<&'static str, BenchFault> {
    let request = parse(alloc, line)?;
    let bound = bind(alloc, catalog, ASKER, request)?;
    let form = form(&bound);
    drop(bound);
    Ok(form)
}

/// The form of a bound request.
fn form(bound: &Bound) -> &'static str {
    match bound {
        Bound::Change(_) => "a change",
        Bound::SetLabel { .. } => "a label",
        Bound::Select(_) => "a SELECT",
        Bound::Insert { .. } => "an INSERT",
        Bound::Update { .. } => "an UPDATE",
        Bound::Delete { .. } => "a DELETE",
        Bound::Other => "another request",
    }
}

/// Prints how many of a statement's requests are bound a second, by the least time of many calls. Reading isn't timed.
fn time(rt: &HostRuntime, catalog: &Catalog, statement: &Statement) -> io::Result<()> {
    let mut least = u64::MAX;
    for _ in 0..CALLS {
        let Ok(request) = parse(rt.alloc(), statement.text) else {
            return println!(rt; "{}: no request", statement.name);
        };
        least = least.min(time_one(rt, catalog, request)?);
    }
    println!(rt; "{}: {} bound/s", statement.name, per_second(least))
}

/// How many nanoseconds a request takes to be bound. Letting go of the answer isn't timed.
fn time_one(rt: &HostRuntime, catalog: &Catalog, request: Request) -> io::Result<u64> {
    let start = Instant::now(rt);
    let answer = bind(rt.alloc(), catalog, ASKER, request);
    let time = nanoseconds_since(rt, start);
    drop(answer);
    time
}

/// How many nanoseconds went by since a time, if the clock could be read then and can be now.
fn nanoseconds_since(rt: &HostRuntime, start: io::Result<Instant>) -> io::Result<u64> {
    let time = start?.elapsed(rt)?;
    Ok(
        time.as_secs()
            .saturating_mul(1_000_000_000)
            .saturating_add(time.subsec_nanos() as u64),
    )
}

/// How often a second what takes so many nanoseconds can be done.
fn per_second(nanoseconds: u64) -> u64 {
    1_000_000_000u64.checked_div(nanoseconds).unwrap_or(0)
}
