// Lines with the canonical text of their request, or the fault, that the written rules give them.
mod faults;
mod limits;
mod lines;

use ifdb_parse::{ParseFault, parse};
use ifdb_syntax::{Request, print};
use limits::Built;
use std::alloc::Global;
use std::process::Abort;
use std::test::Fail;

/// The canonical text of a request.
fn printed(alloc: Global, request: &Request) -> Result<String, Fail> {
    let text = print(alloc, request)?;
    Ok(String::from_utf8_lossy(alloc, text.as_slice())?)
}

/// A fault.
fn told(alloc: Global, fault: ParseFault) -> Result<String, Fail> {
    Ok(format!(in alloc; "{fault:?}")?)
}

/// The canonical text of a line's request, or its fault.
fn shown(alloc: Global, line: &[u8]) -> Result<String, Fail> {
    match parse(alloc, line) {
        Ok(request) => {
            let text = printed(alloc, &request);
            drop(request);
            text
        }
        Err(fault) => told(alloc, fault),
    }
}

/// Checks that each line is answered so.
fn are_answered(rt: &impl Abort, alloc: Global, rows: &[(&[u8], &str)]) -> Result<(), Fail> {
    for (line, want) in rows {
        let found = shown(alloc, line)?;
        assert_eq!(rt; found.as_str(), *want, "{line:?}");
    }
    Ok(())
}

/// Checks that each line has a request, whose text is read as it.
fn are_read(rt: &impl Abort, alloc: Global, rows: &[(&[u8], &str)]) -> Result<(), Fail> {
    are_answered(rt, alloc, rows)?;
    for (_, text) in rows {
        let again = shown(alloc, text.as_bytes())?;
        assert_eq!(rt; again.as_str(), *text);
    }
    Ok(())
}

#[test]
fn requests_are_read(rt: HostRuntime) -> Result<(), Fail> {
    are_read(&rt, rt.alloc(), &lines::SESSIONS)?;
    are_read(&rt, rt.alloc(), &lines::AUTHORITY)?;
    are_read(&rt, rt.alloc(), &lines::TABLES)?;
    are_read(&rt, rt.alloc(), &lines::SELECTS)?;
    Ok(())
}

#[test]
fn conditions_are_read(rt: HostRuntime) -> Result<(), Fail> {
    are_read(&rt, rt.alloc(), &lines::EXPRESSIONS)?;
    are_read(&rt, rt.alloc(), &lines::CONDITIONS)?;
    are_read(&rt, rt.alloc(), &lines::WRITES)?;
    Ok(())
}

#[test]
fn faults_are_placed(rt: HostRuntime) -> Result<(), Fail> {
    are_answered(&rt, rt.alloc(), &faults::TOKEN_FAULTS)?;
    are_answered(&rt, rt.alloc(), &faults::FIRST_PLACES)?;
    are_answered(&rt, rt.alloc(), &faults::LAST_PLACES)?;
    are_answered(&rt, rt.alloc(), &faults::LIMITS)?;
    Ok(())
}

#[test]
fn faults_of_definitions_are_placed(rt: HostRuntime) -> Result<(), Fail> {
    are_answered(&rt, rt.alloc(), &faults::OPENING_PLACES)?;
    are_answered(&rt, rt.alloc(), &faults::DEFINITION_PLACES)?;
    are_answered(&rt, rt.alloc(), &faults::WORD_PLACES)?;
    Ok(())
}

#[test]
fn faults_of_queries_are_placed(rt: HostRuntime) -> Result<(), Fail> {
    are_answered(&rt, rt.alloc(), &faults::ITEM_PLACES)?;
    are_answered(&rt, rt.alloc(), &faults::SOURCE_PLACES)?;
    are_answered(&rt, rt.alloc(), &faults::CONDITION_PLACES)?;
    are_answered(&rt, rt.alloc(), &faults::ORDER_PLACES)?;
    Ok(())
}

#[test]
fn faults_of_writes_are_placed(rt: HostRuntime) -> Result<(), Fail> {
    are_answered(&rt, rt.alloc(), &faults::INSERT_PLACES)?;
    are_answered(&rt, rt.alloc(), &faults::CHANGE_PLACES)?;
    Ok(())
}

/// A line of a front, a part so many times, and an end.
fn line_of(
    alloc: Global,
    front: &[u8],
    part: &[u8],
    times: usize,
    end: &[u8],
) -> Result<Vec<u8>, Fail> {
    let mut line = Vec::new(alloc);
    line.extend_from_slice(front)?;
    for _ in 0..times {
        line.extend_from_slice(part)?;
    }
    line.extend_from_slice(end)?;
    Ok(line)
}

/// Whether a line is a request, or its fault.
fn judged(alloc: Global, line: &[u8]) -> Result<String, Fail> {
    match parse(alloc, line) {
        Ok(request) => {
            drop(request);
            Ok(format!(in alloc; "request")?)
        }
        Err(fault) => told(alloc, fault),
    }
}

/// Checks of each line whether it is a request, or which fault it has.
fn are_limited(rt: &impl Abort, alloc: Global, rows: &[Built]) -> Result<(), Fail> {
    for (front, part, times, end, want) in rows {
        let line = line_of(alloc, front, part, *times, end)?;
        let found = judged(alloc, &line)?;
        assert_eq!(rt; found.as_str(), *want, "{part:?} {times} times");
    }
    Ok(())
}

#[test]
fn limits_are_kept(rt: HostRuntime) -> Result<(), Fail> {
    are_limited(&rt, rt.alloc(), &limits::LISTS)?;
    are_limited(&rt, rt.alloc(), &limits::DEPTHS)?;
    are_limited(&rt, rt.alloc(), &limits::LONGEST)?;
    Ok(())
}
