// Statements that both parsers read, and lines at the limits of ours.
use std::alloc::{AllocError, Global};

/// A statement, and its name in the report.
pub struct Statement {
    pub name: &'static str,
    pub text: &'static [u8],
}

/// Statements as an application writes them.
pub static STATEMENTS: [Statement; 6] = [
    Statement {
        name: "create",
        text: b"CREATE TABLE visit (id INT, pid INT, fee INT, why TEXT, PRIMARY KEY (id), FOREIGN KEY (pid) REFERENCES patient)",
    },
    Statement {
        name: "insert",
        text: b"INSERT INTO note VALUES (1, 'x'), (2, 'y'), (3, 'x')",
    },
    Statement {
        name: "select",
        text: b"SELECT id, body FROM note WHERE id = 1 AND NOT (body = 'x' OR id < -5) ORDER BY body DESC",
    },
    Statement {
        name: "group",
        text: b"SELECT pid, SUM(fee) FROM fees WHERE fee >= 3900 GROUP BY pid",
    },
    Statement {
        name: "update",
        text: b"UPDATE note SET body = 'z' WHERE body = 's'",
    },
    Statement {
        name: "delete",
        text: b"DELETE FROM note WHERE id = 1",
    },
];

/// Adds a part so many times.
fn repeat(line: &mut Vec<u8>, part: &[u8], times: usize) -> Result<(), AllocError> {
    for _ in 0..times {
        line.extend_from_slice(part)?;
    }
    Ok(())
}

/// An expression with 64 operators.
fn longest_expression(alloc: Global) -> Result<Vec<u8>, AllocError> {
    let mut line = Vec::new(alloc);
    line.extend_from_slice(b"SELECT a")?;
    repeat(&mut line, b" + a", 64)?;
    line.extend_from_slice(b" FROM t")?;
    Ok(line)
}

/// A condition with 32 parentheses and 64 words NOT.
fn deepest_condition(alloc: Global) -> Result<Vec<u8>, AllocError> {
    let mut line = Vec::new(alloc);
    line.extend_from_slice(b"DELETE FROM t WHERE ")?;
    repeat(&mut line, b"NOT NOT (", 32)?;
    line.extend_from_slice(b"a = 1")?;
    repeat(&mut line, b")", 32)?;
    Ok(line)
}

/// An INSERT of 256 rows with 64 literals each.
fn most_rows(alloc: Global) -> Result<Vec<u8>, AllocError> {
    let mut line = Vec::new(alloc);
    line.extend_from_slice(b"INSERT INTO t VALUES ")?;
    for row in 0..256 {
        line.extend_from_slice(if row == 0 { b"(1" } else { b",(1" })?;
        repeat(&mut line, b",1", 63)?;
        line.extend_from_slice(b")")?;
    }
    Ok(line)
}

/// Lines that are exactly at a limit, each with its name.
pub fn limit_lines(alloc: Global) -> Result<[(&'static str, Vec<u8>); 3], AllocError> {
    Ok([
        ("64 operators", longest_expression(alloc)?),
        ("32 parentheses, 64 NOT", deepest_condition(alloc)?),
        ("256 rows of 64 literals", most_rows(alloc)?),
    ])
}
