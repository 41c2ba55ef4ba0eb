// The words behind `serve`.
ghost use Rattle.std.specs.Prelude.{◌≡◌, IfOk, map, string_bytes};
ghost use Rattle.clap.specs.Words.{app_of, found_of, first_value};
ghost use Rattle.ifdb_words.specs.Clap.{serve_app, with_service};
ghost use Rattle.ifdb_words.specs.Serve.{port_of, serve_in, serve_of, service_of, workers_of};

use crate::command::Command;
use crate::limit::limit_of;
use crate::numbers::{needed_to, number_or};
use crate::options::{bare_command, option, taken};
use crate::service::Service;
use clap::ArgMatches;
use std::alloc::{AllocError as OutOfMemory, Global};

/// The highest port.
const MOST_PORT: u64 = 65_535;

/// The most connections that are served at a time, and how many it are where the words don't say it.
const MOST_WORKERS: u64 = 64;

const DEFAULT_WORKERS: u64 = 4;

/// The most connections that may be taken, and how many are where the words don't say it.
const MOST_LINKS: u64 = 1_000_000;

/// What the words behind `serve` ask for; `None` exactly where they aren't well formed. The only error is want of memory.
#[tactic(auto, using(crate::proofs::ServeOptions::free, crate::proofs::ServeOptions::serve_taken, crate::proofs::ServeOptions::serve_refused))]
pub fn serve_in(alloc: Global, words: &[String]) -> Result<Option<Command>, OutOfMemory>
    ensures { IfOk result (λ command. command ≡ serve_in (map string_bytes words.now)) }
{
    let command = serve_command(alloc)?;
    match taken(command, words)? {
        Some(matches) => Ok(serve_of(&matches)),
        None => Ok(None),
    }
}

/// What the values of the options ask for.
fn serve_of(matches: &ArgMatches) -> Option<Command>
    ensures { result ≡ serve_of (first_value (found_of matches.now)) }
{
    Some(Command::Serve(service_of(matches)?))
}

/// The service that the values of the options ask for.
pub fn service_of(matches: &ArgMatches) -> Option<Service>
    ensures { result ≡ service_of (first_value (found_of matches.now)) }
{
    let port = port_of(matches)?;
    let workers = workers_of(matches)?;
    let links = number_or(MOST_LINKS, MOST_LINKS, matches.get_str("links"))?;
    let limit = limit_of(matches)?;
    Some(Service {
        port,
        workers,
        links,
        limit,
    })
}

/// The port.
pub fn port_of(matches: &ArgMatches) -> Option<u16>
    ensures { result ≡ port_of (first_value (found_of matches.now)) }
{
    let port = needed_to(MOST_PORT, matches.get_str("port"))?;
    u16::try_from(port).ok()
}

/// How many connections are served at a time.
fn workers_of(matches: &ArgMatches) -> Option<usize>
    ensures { result ≡ workers_of (first_value (found_of matches.now)) }
{
    let workers = number_or(DEFAULT_WORKERS, MOST_WORKERS, matches.get_str("workers"))?;
    Some(workers as usize)
}

/// The command as clap knows it.
fn serve_command<'a>(alloc: Global) -> Result<clap::Command<'a>, OutOfMemory>
    ensures { IfOk result (λ command. app_of command ≡ serve_app) }
{
    with_service(alloc, bare_command(alloc, "serve"))
}

/// The command with the options of a service.
pub fn with_service<'a>(
    alloc: Global,
    command: clap::Command<'a>,
) -> Result<clap::Command<'a>, OutOfMemory>
    ensures { IfOk result (λ with. app_of with ≡ with_service (app_of command.entry)) }
{
    let with_port = command.arg(option(alloc, "port", true))?;
    let with_workers = with_port.arg(option(alloc, "workers", false))?;
    let with_links = with_workers.arg(option(alloc, "links", false))?;
    with_links.arg(option(alloc, "limit", false))
}
