// Kinds of lines.

use std::alloc::{AllocError, Global};

/// Lines that repeat one part, up to their last bytes.
pub struct Kind {
    pub name: &'static str,
    pub part: &'static [u8],
    pub last: &'static [u8],
}

/// The kinds of lines that are timed.
pub static KINDS: [Kind; 6] = [
    Kind {
        name: "words",
        part: b"word ",
        last: b"",
    },
    Kind {
        name: "digits",
        part: b"7",
        last: b"",
    },
    Kind {
        name: "quotes",
        part: b"''",
        last: b"",
    },
    Kind {
        name: "blanks",
        part: b" \t",
        last: b"",
    },
    Kind {
        name: "parentheses",
        part: b"(",
        last: b"",
    },
    Kind {
        name: "bad UTF-8 at the end",
        part: b"word ",
        last: b"\xff",
    },
];

/// A line of this kind and about this length: the part as often as it fits, and then the last bytes.
pub fn line_of(alloc: Global, kind: &Kind, len: usize) -> Result<Vec<u8>, AllocError> {
    let mut line = Vec::new(alloc);
    for _ in 0..len / kind.part.len().max(1) {
        line.extend_from_slice(kind.part)?;
    }
    line.extend_from_slice(kind.last)?;
    Ok(line)
}
