// The catalog, and the statements that are bound in it.

/// A statement, and its name in the report.
pub struct Statement {
    pub name: &'static str,
    pub text: &'static [u8],
}

/// What the catalog is made of.
pub static MADE: [&[u8]; 5] = [
    b"CREATE COMPOUND TAG patients",
    b"CREATE TABLE patient (id INT, name TEXT, PRIMARY KEY (id))",
    b"CREATE TABLE note (id INT, body TEXT, PRIMARY KEY (id))",
    b"CREATE TABLE bill (id INT, pid INT, fee INT, PRIMARY KEY (id), FOREIGN KEY (pid) REFERENCES patient)",
    b"CREATE VIEW fees AS SELECT id, pid, fee FROM bill WITH DECLASSIFYING (patients)",
];

/// Statements as an application writes them, as `bench_parse` reads them.
pub static STATEMENTS: [Statement; 6] = [
    Statement {
        name: "create",
        text: b"CREATE TABLE visit (id INT, pid INT, fee INT, why TEXT, PRIMARY KEY (id), FOREIGN KEY (pid) REFERENCES patient)",
    },
    Statement {
        name: "insert",
        text: b"INSERT INTO note VALUES (1, 'x'), (2, 'y'), (3, 'x')",
    },
    Statement {
        name: "select",
        text: b"SELECT id, body FROM note WHERE id = 1 AND NOT (body = 'x' OR id < -5) ORDER BY body DESC",
    },
    Statement {
        name: "group",
        text: b"SELECT pid, SUM(fee) FROM fees WHERE fee >= 3900 GROUP BY pid",
    },
    Statement {
        name: "update",
        text: b"UPDATE note SET body = 'z' WHERE body = 's'",
    },
    Statement {
        name: "delete",
        text: b"DELETE FROM note WHERE id = 1",
    },
];
