// Lines at a limit and one past it.

/// A line as its front, a part, how often it stands, and the line's end; and whether it is a request, or its fault.
pub type Built = (
    &'static [u8],
    &'static [u8],
    usize,
    &'static [u8],
    &'static str,
);

/// Lists.
pub static LISTS: [Built; 28] = [
    (b"SET LABEL (a", b",a", 63, b")", "request"),
    (b"SET LABEL (a", b",a", 64, b")", "Limit"),
    (b"SET LABEL (a", b",a", 64, b" b)", "Syntax(141)"),
    (
        b"CREATE TABLE t (",
        b"a INT,",
        64,
        b"PRIMARY KEY (a))",
        "request",
    ),
    (
        b"CREATE TABLE t (",
        b"a INT,",
        65,
        b"PRIMARY KEY (a))",
        "Limit",
    ),
    (
        b"CREATE TABLE t (a INT, PRIMARY KEY (a",
        b",a",
        63,
        b"))",
        "request",
    ),
    (
        b"CREATE TABLE t (a INT, PRIMARY KEY (a",
        b",a",
        64,
        b"))",
        "Limit",
    ),
    (
        b"CREATE TABLE t (a INT, PRIMARY KEY (a)",
        b", FOREIGN KEY (a) REFERENCES p",
        64,
        b")",
        "request",
    ),
    (
        b"CREATE TABLE t (a INT, PRIMARY KEY (a)",
        b", FOREIGN KEY (a) REFERENCES p",
        65,
        b")",
        "Limit",
    ),
    (b"CREATE TAG t IN (a", b",a", 64, b")", "Limit"),
    (
        b"CREATE PRINCIPAL p KEY '' CLEARANCE (a",
        b",a",
        63,
        b")",
        "request",
    ),
    (
        b"CREATE PRINCIPAL p KEY '' CLEARANCE (a",
        b",a",
        64,
        b")",
        "Limit",
    ),
    (b"SELECT a", b",a", 63, b" FROM t", "request"),
    (b"SELECT a", b",a", 64, b" FROM t", "Limit"),
    (b"SELECT a FROM t", b",t", 3, b"", "request"),
    (b"SELECT a FROM t", b",t", 4, b"", "Limit"),
    (b"SELECT a FROM t GROUP BY a", b",a", 63, b"", "request"),
    (b"SELECT a FROM t GROUP BY a", b",a", 64, b"", "Limit"),
    (b"SELECT a FROM t ORDER BY a", b",a", 63, b"", "request"),
    (b"SELECT a FROM t ORDER BY a", b",a", 64, b"", "Limit"),
    (b"UPDATE t SET a = 1", b",a = 1", 63, b"", "request"),
    (b"UPDATE t SET a = 1", b",a = 1", 64, b"", "Limit"),
    (b"INSERT INTO t VALUES (1", b",1", 63, b")", "request"),
    (b"INSERT INTO t VALUES (1", b",1", 64, b")", "Limit"),
    (b"INSERT INTO t VALUES (1)", b",(1)", 255, b"", "request"),
    (b"INSERT INTO t VALUES (1)", b",(1)", 256, b"", "Limit"),
    (b"INSERT INTO t (a", b",a", 64, b") VALUES (1)", "Limit"),
    (
        b"INSERT INTO t VALUES (1) DECLASSIFYING (a",
        b",a",
        64,
        b")",
        "Limit",
    ),
];

/// Expressions and conditions.
pub static DEPTHS: [Built; 13] = [
    (b"SELECT a", b"+a", 64, b" FROM t", "request"),
    (b"SELECT a", b"+a", 65, b" FROM t", "Limit"),
    (b"SELECT a", b"*a", 65, b" FROM t", "Limit"),
    (b"SELECT a", b"-(a+b)", 32, b" FROM t", "request"),
    (b"SELECT a", b"-(a+b)", 33, b" FROM t", "Limit"),
    (b"DELETE FROM t WHERE ", b"NOT ", 64, b"a = 1", "request"),
    (b"DELETE FROM t WHERE ", b"NOT ", 65, b"a = 1", "Limit"),
    (
        b"DELETE FROM t WHERE ",
        b"NOT ",
        63,
        b"a IS NOT NULL",
        "request",
    ),
    (
        b"DELETE FROM t WHERE ",
        b"NOT ",
        64,
        b"a IS NOT NULL",
        "Limit",
    ),
    (
        b"DELETE FROM t WHERE a = 1",
        b" AND a = 1",
        65,
        b"",
        "request",
    ),
    (
        b"DELETE FROM t WHERE a = 1",
        b" OR a = 1",
        65,
        b"",
        "request",
    ),
    (b"SELECT ", b"(", 33, b"a FROM t", "Limit"),
    (b"SELECT ", b"(", 32, b"a FROM t", "Syntax(41)"),
];

/// The longest lines.
pub static LONGEST: [Built; 6] = [
    (b"", b"(", 32700, b"", "Limit"),
    (b"SELECT a", b"+a", 32700, b" FROM t", "Limit"),
    (b"DELETE FROM t WHERE ", b"NOT ", 16000, b"a = 1", "Limit"),
    (b"SHOW LABEL", b" ", 65525, b"", "request"),
    (b"", b"a ", 32767, b"", "Syntax(0)"),
    (b"SET LABEL (a", b",a", 32760, b")", "Limit"),
];
