// How `host` serves, by its words.
ghost use Rattle.std.specs.Prelude.{◌≡◌, IfOk};
ghost use Rattle.clap.specs.Words.{app_of, found_of, first_value};
ghost use Rattle.ifdb_words.specs.Clap.{with_bounds, with_loops, with_patience};
ghost use Rattle.ifdb_words.specs.Loops.{connections_of, hello_of, idle_of, loop_service_of, loops_of, patience_of, stall_of};

use crate::limit::limit_of;
use crate::numbers::{maybe_to, number_or};
use crate::options::option;
use crate::serve::port_of;
use clap::ArgMatches;
use std::alloc::{AllocError as OutOfMemory, Global};

/// The most loops.
const MOST_LOOPS: u64 = 64;

/// The most connections at a time.
const MOST_CONNECTIONS: u64 = 1_000_000;

/// How many connections are served at a time where the words don't say it.
const DEFAULT_CONNECTIONS: u64 = 10_000;

/// The seconds of a day, the longest of each wait.
const DAY: u64 = 86_400;

/// The seconds until the first line, where the words don't say them.
const DEFAULT_HELLO: u64 = 10;

/// The seconds between what is sent, where the words don't say them.
const DEFAULT_IDLE: u64 = 600;

/// The seconds until some of a reply is taken, where the words don't say them.
const DEFAULT_STALL: u64 = 60;

/// How long connections may keep the server waiting, in seconds: each from 1 to 86,400.
#[derive(Clone, Copy, Debug, PartialEq, Eq)]
pub struct Patience {
    /// Until its first line.
    pub hello: u64,
    /// Between what it sends.
    pub idle: u64,
    /// Until it takes some of what it is sent.
    pub stall: u64,
}

/// How a database is to be served.
#[derive(Clone, Copy, Debug, PartialEq, Eq)]
pub struct LoopService {
    /// The port that connections come through: from 1 to 65,535.
    pub port: u16,
    /// How many threads serve them: from 1 to 64, or as many as there are processors.
    pub loops: Option<usize>,
    /// How many connections are served at a time: from 1 to 1,000,000.
    pub connections: usize,
    /// How many bytes of each connection are taken: from 1 to 2^40.
    pub limit: u64,
    /// How long they may keep the server waiting.
    pub patience: Patience,
}

/// How a database is to be served, by the values of the options.
pub fn loop_service_of(matches: &ArgMatches) -> Option<LoopService>
    ensures { result ≡ loop_service_of (first_value (found_of matches.now)) }
{
    let port = port_of(matches)?;
    let loops = loops_of(matches)?;
    let connections = connections_of(matches)?;
    let limit = limit_of(matches)?;
    let patience = patience_of(matches)?;
    Some(LoopService {
        port,
        loops,
        connections,
        limit,
        patience,
    })
}

/// How many loops there are to be, if it is said.
fn loops_of(matches: &ArgMatches) -> Option<Option<usize>>
    ensures { result ≡ loops_of (first_value (found_of matches.now)) }
{
    match maybe_to(MOST_LOOPS, matches.get_str("loops"))? {
        Some(loops) => Some(Some(loops as usize)),
        None => Some(None),
    }
}

/// How many connections are served at a time.
fn connections_of(matches: &ArgMatches) -> Option<usize>
    ensures { result ≡ connections_of (first_value (found_of matches.now)) }
{
    let connections = number_or(
        DEFAULT_CONNECTIONS,
        MOST_CONNECTIONS,
        matches.get_str("connections"),
    )?;
    Some(connections as usize)
}

/// How long connections may keep the server waiting.
fn patience_of(matches: &ArgMatches) -> Option<Patience>
    ensures { result ≡ patience_of (first_value (found_of matches.now)) }
{
    let hello = number_or(DEFAULT_HELLO, DAY, matches.get_str("hello"))?;
    let idle = number_or(DEFAULT_IDLE, DAY, matches.get_str("idle"))?;
    let stall = number_or(DEFAULT_STALL, DAY, matches.get_str("stall"))?;
    Some(Patience { hello, idle, stall })
}

/// The command with the options by which it says how it serves.
pub fn with_loops<'a>(
    alloc: Global,
    command: clap::Command<'a>,
) -> Result<clap::Command<'a>, OutOfMemory>
    ensures { IfOk result (λ with. app_of with ≡ with_loops (app_of command.entry)) }
{
    let with_port = command.arg(option(alloc, "port", true))?;
    let with_count = with_port.arg(option(alloc, "loops", false))?;
    let bounded = with_bounds(alloc, with_count)?;
    with_patience(alloc, bounded)
}

/// The command with the options by which it bounds what is served.
fn with_bounds<'a>(
    alloc: Global,
    command: clap::Command<'a>,
) -> Result<clap::Command<'a>, OutOfMemory>
    ensures { IfOk result (λ with. app_of with ≡ with_bounds (app_of command.entry)) }
{
    let with_connections = command.arg(option(alloc, "connections", false))?;
    with_connections.arg(option(alloc, "limit", false))
}

/// The command with the options by which it says how long connections may keep the server waiting.
fn with_patience<'a>(
    alloc: Global,
    command: clap::Command<'a>,
) -> Result<clap::Command<'a>, OutOfMemory>
    ensures { IfOk result (λ with. app_of with ≡ with_patience (app_of command.entry)) }
{
    let with_hello = command.arg(option(alloc, "hello", false))?;
    let with_idle = with_hello.arg(option(alloc, "idle", false))?;
    with_idle.arg(option(alloc, "stall", false))
}
