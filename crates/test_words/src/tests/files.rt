// The words behind commands over files: `keep`, `host`, `compact` and `inspect`.
use super::{GIBI, letters, words_of};
use ifdb_words::{LoopService, Patience, host_in, keep_in, one_file_in};
use std::alloc::AllocGlobal;
use std::test::Fail;

/// Whether the words behind `keep` ask for this file and limit.
fn keeps<T: AllocGlobal>(rt: &T, line: &str, file: &str, limit: u64) -> Result<bool, Fail> {
    let words = words_of(rt.alloc(), line)?;
    match keep_in(rt.alloc(), &words)? {
        Some(keep) => Ok(keep.file.as_str() == file && keep.limit == limit),
        None => Ok(false),
    }
}

#[test]
fn words_behind_keep(rt: HostRuntime) -> Result<(), Fail> {
    static TABLE: [(&str, &str, u64); 5] = [
        ("--file j", "j", GIBI),
        ("--file=/var/lib/j --limit 7", "/var/lib/j", 7),
        ("--limit=1099511627776 --file é", "é", 1 << 40),
        ("--file=a=b", "a=b", GIBI),
        ("--file none", "none", GIBI),
    ];
    for (line, file, limit) in &TABLE {
        assert!(rt; keeps(&rt, line, file, *limit)?, "{line}");
    }
    for (count, fits) in [(1, true), (255, true), (256, false)] {
        let name = letters(rt.alloc(), count)?;
        let mut line = String::from_str(rt.alloc(), "--file=")?;
        line.push_str(&name)?;
        assert_eq!(rt; keeps(&rt, &line, &name, GIBI)?, fits, "{count}");
    }
    Ok(())
}

#[test]
fn words_that_keep_refuses(rt: HostRuntime) -> Result<(), Fail> {
    for line in [
        "",
        "j",
        "--file",
        "--file=",
        "--file -j",
        "--file j --limit 0",
        "--file j --limit 1099511627777",
        "--file j --file j",
        "--file j --tags none",
        "--limit 7",
    ] {
        let words = words_of(rt.alloc(), line)?;
        assert!(rt; keep_in(rt.alloc(), &words)?.is_none(), "{line}");
    }
    Ok(())
}

/// How a database is served where only the port is said, as 7,000.
const USUAL: LoopService = LoopService {
    port: 7_000,
    loops: None,
    connections: 10_000,
    limit: GIBI,
    patience: PATIENCE,
};

/// How long connections may keep the server waiting where the words don't say it.
const PATIENCE: Patience = Patience {
    hello: 10,
    idle: 600,
    stall: 60,
};

/// What the words behind `host` ask for, if they are well formed: whether the files are these, and how the database is to be served.
fn hosted<T: AllocGlobal>(
    rt: &T,
    line: &str,
    file: &str,
    key_file: &str,
) -> Result<Option<(bool, LoopService)>, Fail> {
    let words = words_of(rt.alloc(), line)?;
    match host_in(rt.alloc(), &words)? {
        Some(hosting) => {
            let named = hosting.file.as_str() == file && hosting.key_file.as_str() == key_file;
            Ok(Some((named, hosting.service)))
        }
        None => Ok(None),
    }
}

#[test]
fn words_behind_host(rt: HostRuntime) -> Result<(), Fail> {
    static TABLE: [(&str, &str, &str, LoopService); 5] = [
        ("--file d --admin-key k --port 7000", "d", "k", USUAL),
        (
            "--stall=14 --idle=13 --hello=12 --limit=10 --connections=9 --loops=8 --port=7001 --admin-key=/etc/k --file=/var/d",
            "/var/d",
            "/etc/k",
            LoopService {
                port: 7_001,
                loops: Some(8),
                connections: 9,
                limit: 10,
                patience: Patience {
                    hello: 12,
                    idle: 13,
                    stall: 14,
                },
            },
        ),
        (
            "--admin-key=--file --port 7000 --file=--admin-key",
            "--admin-key",
            "--file",
            USUAL,
        ),
        ("--file d --admin-key d --port 7000", "d", "d", USUAL),
        (
            "--admin-key=k=k --file é --port 07000 --loops 064",
            "é",
            "k=k",
            LoopService {
                loops: Some(64),
                ..USUAL
            },
        ),
    ];
    for (line, file, key_file, wanted) in &TABLE {
        assert_eq!(rt;
            hosted(&rt, line, file, key_file)?,
            Some((true, *wanted)),
            "{line}"
        );
    }
    for (count, wanted) in [(1, Some(true)), (255, Some(true)), (256, None)] {
        let name = letters(rt.alloc(), count)?;
        let mut line = String::from_str(rt.alloc(), "--port 7000 --file d --admin-key ")?;
        line.push_str(&name)?;
        let found = hosted(&rt, &line, "d", &name)?;
        assert_eq!(rt; found.map(|(named, _)| named), wanted, "{count}");
    }
    Ok(())
}

/// How a database is served by these options behind the files' and the port's.
fn served<T: AllocGlobal>(rt: &T, options: &str) -> Result<Option<LoopService>, Fail> {
    let mut line = String::from_str(rt.alloc(), "--file d --admin-key k --port 7000 ")?;
    line.push_str(options)?;
    let found = hosted(rt, &line, "d", "k")?;
    Ok(found.map(|(_, service)| service))
}

/// As usual, but for how long connections may keep the server waiting.
const fn patient(patience: Patience) -> LoopService {
    LoopService { patience, ..USUAL }
}

#[test]
fn bounds_of_host(rt: HostRuntime) -> Result<(), Fail> {
    let table = [
        (
            "--loops 1",
            LoopService {
                loops: Some(1),
                ..USUAL
            },
        ),
        (
            "--loops=64",
            LoopService {
                loops: Some(64),
                ..USUAL
            },
        ),
        (
            "--connections 1",
            LoopService {
                connections: 1,
                ..USUAL
            },
        ),
        (
            "--connections=1000000",
            LoopService {
                connections: 1_000_000,
                ..USUAL
            },
        ),
        ("--limit 1", LoopService { limit: 1, ..USUAL }),
        (
            "--limit=1099511627776",
            LoopService {
                limit: 1 << 40,
                ..USUAL
            },
        ),
        (
            "--hello 1",
            patient(Patience {
                hello: 1,
                ..PATIENCE
            }),
        ),
        (
            "--hello=86400",
            patient(Patience {
                hello: 86_400,
                ..PATIENCE
            }),
        ),
        (
            "--idle 1",
            patient(Patience {
                idle: 1,
                ..PATIENCE
            }),
        ),
        (
            "--idle=86400",
            patient(Patience {
                idle: 86_400,
                ..PATIENCE
            }),
        ),
        (
            "--stall 1",
            patient(Patience {
                stall: 1,
                ..PATIENCE
            }),
        ),
        (
            "--stall=86400",
            patient(Patience {
                stall: 86_400,
                ..PATIENCE
            }),
        ),
    ];
    for (options, wanted) in table {
        assert_eq!(rt; served(&rt, options)?, Some(wanted), "{options}");
    }
    Ok(())
}

#[test]
fn bounds_that_host_holds(rt: HostRuntime) -> Result<(), Fail> {
    for options in [
        "--loops 0",
        "--loops 65",
        "--loops -1",
        "--loops=",
        "--loops",
        "--loops four",
        "--loops 4 --loops 4",
        "--connections 0",
        "--connections 1000001",
        "--connections 1 --connections=2",
        "--limit 0",
        "--limit 1099511627777",
        "--hello 0",
        "--hello 86401",
        "--hello 10s",
        "--idle 0",
        "--idle 86401",
        "--idle=1.5",
        "--stall 0",
        "--stall 86401",
        "--stall 60 --stall 60",
        "--workers 4",
        "--links 9",
    ] {
        assert_eq!(rt; served(&rt, options)?, None, "{options}");
    }
    Ok(())
}

#[test]
fn words_that_host_refuses(rt: HostRuntime) -> Result<(), Fail> {
    for line in [
        "",
        "d",
        "--file d",
        "--file d --port 7000",
        "--admin-key k --port 7000",
        "--file d --admin-key k",
        "--file d --admin-key --port 7000",
        "--file d --port 7000 --admin-key",
        "--file d --port 7000 --admin-key=",
        "--file d --port 7000 --admin-key -k",
        "--file d --port 7000 --admin-key -",
        "--file d --port 7000 --admin-key k --admin-key k",
        "--file d --port 7000 --admin-key k --admin-key=l",
        "--file d --port 7000 --admin-key k l",
        "--file d --port 7000 --adminkey k",
        "--file d --port 7000 --admin_key k",
        "--file d --port 7000 --Admin-Key k",
        "--file d --file d --port 7000 --admin-key k",
        "--file= --port 7000 --admin-key k",
        "--file d --port 0 --admin-key k",
        "--file d --port 65536 --admin-key k",
        "--file d --port 7000 --admin-key k --tags none",
    ] {
        let words = words_of(rt.alloc(), line)?;
        assert!(rt; host_in(rt.alloc(), &words)?.is_none(), "{line}");
    }
    Ok(())
}

#[test]
fn words_of_one_file(rt: HostRuntime) -> Result<(), Fail> {
    static TABLE: [(&str, Option<&str>); 11] = [
        ("--file d", Some("d")),
        ("--file=/var/lib/d", Some("/var/lib/d")),
        ("--file=a=b", Some("a=b")),
        ("", None),
        ("d", None),
        ("--file", None),
        ("--file=", None),
        ("--file -d", None),
        ("--file d --file d", None),
        ("--file d --limit 7", None),
        ("--file d d", None),
    ];
    for (line, wanted) in &TABLE {
        let words = words_of(rt.alloc(), line)?;
        let found = one_file_in(rt.alloc(), &words)?;
        assert_eq!(rt; found.as_ref().map(|file| file.as_str()), *wanted, "{line}");
    }
    Ok(())
}
