// The words of `run`, `serve` and `generate`, and those of no command.
use super::{Asked, GIBI, numbers_of_service, words_of};
use ifdb_words::{Command, OutOfMemory, Text, command_of};
use std::alloc::AllocGlobal;
use std::test::Fail;

const MEBI: u64 = 1 << 20;

/// What a text is asked for with, as numbers.
fn numbers_of_text(text: Text) -> Asked {
    match text {
        Text::Script(size) => [2, size.inserts(), 0, 0, 0],
        Text::Counts(size) => [3, size.inserts(), 0, 0, 0],
    }
}

/// What a command asks for, as numbers.
fn numbers_of(command: Command) -> Asked {
    match command {
        Command::Run { limit } => [0, limit, 0, 0, 0],
        Command::Serve(service) => numbers_of_service(service),
        Command::Write(text) => numbers_of_text(text),
    }
}

/// What words ask for, if they are well formed.
fn asked_by<T: AllocGlobal>(rt: &T, words: &[String]) -> Result<Option<Asked>, OutOfMemory> {
    match command_of(rt.alloc(), words) {
        Ok(Some(command)) => Ok(Some(numbers_of(command))),
        Ok(None) => Ok(None),
        Err(OutOfMemory) => Err(OutOfMemory),
    }
}

/// What a line asks for, if it is well formed.
fn asked<T: AllocGlobal>(rt: &T, line: &str) -> Result<Option<Asked>, Fail> {
    let words = words_of(rt.alloc(), line)?;
    Ok(asked_by(rt, &words)?)
}

/// The first of the lines that is well formed, if one is.
fn first_well_formed<'a, T: AllocGlobal>(
    rt: &T,
    lines: &[&'a str],
) -> Result<Option<&'a str>, Fail> {
    for line in lines {
        if asked(rt, line)?.is_some() {
            return Ok(Some(*line));
        }
    }
    Ok(None)
}

#[test]
fn well_formed_words(rt: HostRuntime) -> Result<(), Fail> {
    let table: [(&str, Asked); 24] = [
        ("run", [0, GIBI, 0, 0, 0]),
        ("run --limit 1", [0, 1, 0, 0, 0]),
        ("run --limit=1048576", [0, MEBI, 0, 0, 0]),
        ("run --limit 1099511627776", [0, 1 << 40, 0, 0, 0]),
        ("run --limit 0000000000007", [0, 7, 0, 0, 0]),
        ("serve --port 7000", [1, 7_000, 4, 1_000_000, GIBI]),
        ("serve --port=1", [1, 1, 4, 1_000_000, GIBI]),
        ("serve --port 65535", [1, 65_535, 4, 1_000_000, GIBI]),
        (
            "serve --port 7000 --workers 1",
            [1, 7_000, 1, 1_000_000, GIBI],
        ),
        (
            "serve --port 7000 --workers=64",
            [1, 7_000, 64, 1_000_000, GIBI],
        ),
        ("serve --port 7000 --links 1", [1, 7_000, 4, 1, GIBI]),
        (
            "serve --port 7000 --links=1000000",
            [1, 7_000, 4, 1_000_000, GIBI],
        ),
        ("serve --port 7000 --limit 1", [1, 7_000, 4, 1_000_000, 1]),
        (
            "serve --limit=1099511627776 --port 7000",
            [1, 7_000, 4, 1_000_000, 1 << 40],
        ),
        (
            "serve --port 7000 --workers 8 --links 9 --limit 10",
            [1, 7_000, 8, 9, 10],
        ),
        (
            "serve --limit=10 --links=9 --workers=8 --port=7000",
            [1, 7_000, 8, 9, 10],
        ),
        (
            "serve --links 9 --port=7000 --limit 10 --workers=8",
            [1, 7_000, 8, 9, 10],
        ),
        (
            "serve --workers 08 --port 07000",
            [1, 7_000, 8, 1_000_000, GIBI],
        ),
        ("generate 1", [2, 1, 0, 0, 0]),
        ("generate 10000", [2, 10_000, 0, 0, 0]),
        ("generate 0000000010000", [2, 10_000, 0, 0, 0]),
        ("generate --run 1", [3, 1, 0, 0, 0]),
        ("generate 10000 --run", [3, 10_000, 0, 0, 0]),
        ("generate --run 8", [3, 8, 0, 0, 0]),
    ];
    for (line, wanted) in table {
        assert_eq!(rt; asked(&rt, line)?, Some(wanted), "{line}");
    }
    Ok(())
}

#[test]
fn words_of_no_command(rt: HostRuntime) -> Result<(), Fail> {
    let table = [
        "",
        "run run",
        "Run",
        "go",
        "help",
        "--help",
        "-h",
        "-V",
        "--version",
        "--",
        "-- run",
        "--limit 1",
        "7",
    ];
    assert_eq!(rt; first_well_formed(&rt, &table)?, None);
    Ok(())
}

#[test]
fn words_that_run_refuses(rt: HostRuntime) -> Result<(), Fail> {
    let table = [
        "run 1",
        "run -",
        "run --",
        "run -h",
        "run --help",
        "run help",
        "run -V",
        "run --limit",
        "run --limit=",
        "run --limit 0",
        "run --limit=0",
        "run --limit 1099511627777",
        "run --limit=1099511627777",
        "run --limit 00000000000001",
        "run --limit 99999999999999999999",
        "run --limit -1",
        "run --limit=-1",
        "run --limit +1",
        "run --limit=1.0",
        "run --limit 1_000",
        "run --limit 0x10",
        "run --limit 1 --limit 1",
        "run --limit=1 --limit=2",
        "run --limit 1 2",
        "run --limit 1 --",
        "run -- --limit 1",
        "run --limit -- 1",
        "run --limit - 1",
        "run --limit --limit 1",
        "run --lim 1",
        "run --limit=1=1",
        "run --Limit 1",
        "run -limit 1",
        "run -l 1",
        "run limit 1",
        "run --port 7000",
        "run --=1",
        "run --workers=4",
    ];
    assert_eq!(rt; first_well_formed(&rt, &table)?, None);
    Ok(())
}

#[test]
fn words_that_serve_refuses(rt: HostRuntime) -> Result<(), Fail> {
    let table = [
        "serve",
        "serve 7000",
        "serve --workers 4",
        "serve --port",
        "serve --port=",
        "serve --port 0",
        "serve --port 65536",
        "serve --port=-7000",
        "serve --port -7000",
        "serve --port 7000 --port 7000",
        "serve --port=7000 --port 7001",
        "serve --port 7000 7001",
        "serve --port 7000 --",
        "serve -- --port 7000",
        "serve --port -- 7000",
        "serve --port 7000 --workers 0",
        "serve --port 7000 --workers 65",
        "serve --port 7000 --workers",
        "serve --port 7000 --links 0",
        "serve --port 7000 --links 1000001",
        "serve --port 7000 --limit 0",
        "serve --port 7000 --limit 1099511627777",
        "serve --port 7000 --workers 1 --workers=2",
        "serve --port 7000 --help",
        "serve --port 7000 -h",
        "serve --port 7000 help",
        "serve --port 7000 --verbose",
        "serve --port --workers 4",
        "serve --port 00000000007000",
        "serve -p 7000",
        "serve --port 7000 --limit 1 --links 1 --limit 1",
    ];
    assert_eq!(rt; first_well_formed(&rt, &table)?, None);
    Ok(())
}

#[test]
fn words_that_generate_refuses(rt: HostRuntime) -> Result<(), Fail> {
    let table = [
        "generate",
        "generate --run",
        "generate --run --run",
        "generate --run 8 --run",
        "generate --run --run 8",
        "generate 8 9",
        "generate --run 8 9",
        "generate 0",
        "generate 10001",
        "generate --run 0",
        "generate --run 10001",
        "generate -8",
        "generate +8",
        "generate --run=8",
        "generate 8 --",
        "generate -- 8",
        "generate -r 8",
        "generate --help",
        "generate 00000000000008",
    ];
    assert_eq!(rt; first_well_formed(&rt, &table)?, None);
    Ok(())
}
