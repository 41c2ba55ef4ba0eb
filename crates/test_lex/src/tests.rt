// Lines with the tokens or the fault that the written rules give them.
mod lines;

use ifdb_lex::{TokenKind, lex};
use std::alloc::Global;
use std::process::Abort;
use std::test::Fail;

/// A line's tokens, each as `kind start-end`, or its fault.
fn shown(alloc: Global, line: &[u8]) -> Result<String, Fail> {
    let tokens = match lex(alloc, line) {
        Ok(tokens) => tokens,
        Err(fault) => return Ok(format!(in alloc; "{fault:?}")?),
    };
    let mut text = String::new(alloc);
    for token in tokens.items() {
        let kind = match token.kind {
            TokenKind::Word => format!(in alloc; "word")?,
            TokenKind::Number(value) => format!(in alloc; "{value}")?,
            TokenKind::Text => format!(in alloc; "text")?,
            TokenKind::Symbol(byte) => format!(in alloc; "{}", byte as char)?,
            TokenKind::NotEqual => format!(in alloc; "<>")?,
            TokenKind::AtMost => format!(in alloc; "<=")?,
            TokenKind::AtLeast => format!(in alloc; ">=")?,
        };
        let separator = if text.is_empty() { "" } else { " " };
        let piece = format!(in alloc; "{separator}{kind} {}-{}", token.start, token.end)?;
        text.push_str(piece.as_str())?;
    }
    Ok(text)
}

/// A line of one part so many times, and then another.
fn built(alloc: Global, part: &[u8], times: usize, rest: &[u8]) -> Result<Vec<u8>, Fail> {
    let mut line = Vec::new(alloc);
    for _ in 0..times {
        line.extend_from_slice(part)?;
    }
    line.extend_from_slice(rest)?;
    Ok(line)
}

/// Checks that each line has these tokens, or this fault.
fn are_cut(rt: &impl Abort, alloc: Global, rows: &[(&[u8], &str)]) -> Result<(), Fail> {
    for (line, want) in rows {
        let found = shown(alloc, line)?;
        assert_eq!(rt; found.as_str(), *want, "{line:?}");
    }
    Ok(())
}

#[test]
fn lines_are_cut(rt: HostRuntime) -> Result<(), Fail> {
    are_cut(&rt, rt.alloc(), &lines::BLANKS)?;
    are_cut(&rt, rt.alloc(), &lines::WORDS)?;
    are_cut(&rt, rt.alloc(), &lines::NUMBERS)?;
    are_cut(&rt, rt.alloc(), &lines::SYMBOLS)?;
    are_cut(&rt, rt.alloc(), &lines::TEXTS)?;
    are_cut(&rt, rt.alloc(), &lines::STRAY_BYTES)?;
    are_cut(&rt, rt.alloc(), &lines::BAD_BYTES)?;
    are_cut(&rt, rt.alloc(), &lines::PLACES_FIRST)?;
    Ok(())
}

#[test]
fn limits_are_kept(rt: HostRuntime) -> Result<(), Fail> {
    // How many tokens there are, or None for Limit.
    let rows: [(&[u8], usize, &[u8], Option<usize>); 21] = [
        (b"a", 63, b"", Some(1)),
        (b"a", 64, b"", None),
        (b"a", 62, b"_", Some(1)),
        (b"a", 63, b"9", None),
        (b"a", 63, b" b", Some(2)),
        (b"0", 500, b"9223372036854775808", Some(1)),
        (b"0", 500, b"9223372036854775809", None),
        (b"(", 32, b"", Some(32)),
        (b"(", 33, b"", None),
        (b"(", 32, b")(", Some(34)),
        (b"(", 32, b")((", None),
        (b")(", 40, b"", Some(80)),
        (b")", 9, b"((((", Some(13)),
        (b"()", 100, b"", Some(200)),
        (b"NOT ", 64, b"", Some(64)),
        (b"NOT ", 65, b"", None),
        (b"not ", 64, b"NoT", None),
        (b"nOt ", 64, b"nott", Some(65)),
        (b"NO ", 65, b"", Some(65)),
        (b"'NOT' ", 65, b"", Some(65)),
        (b"NOT(", 33, b"", None),
    ];
    for (part, times, rest, want) in rows {
        let line = built(rt.alloc(), part, times, rest)?;
        let found = lex(rt.alloc(), &line).ok().map(|tokens| tokens.len());
        assert_eq!(rt; found, want, "{part:?} {times} times");
    }
    Ok(())
}
