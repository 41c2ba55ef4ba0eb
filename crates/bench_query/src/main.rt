//! Times SELECTs over two tables of many rows: a scan, a look-up, joins, groups and order.
//!
//! With a word, as `time`, it prints what each takes at 10,000 and at 100,000 rows a table. Without one it asks them of a few
//! rows, and prints how many rows each answers, which is the same each time.
#![tactic(auto)]

mod checks;
mod requests;
mod tables;
mod timing;

use std::{env, io};

fn main(rt: HostRuntime) -> io::Result<()> {
    if env::args(&rt)?.nth(1).is_some() {
        timing::time(&rt, 10_000)?;
        timing::time(&rt, 100_000)?;
    } else {
        timing::show(&rt, 20)?;
    }
    Ok(())
}
