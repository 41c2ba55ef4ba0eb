// Lines that are no requests, each with its fault, and numbers at the end of a range, where both are.

/// Faults of the tokens come first, then their limits.
pub static TOKEN_FAULTS: [(&[u8], &str); 10] = [
    (b"SELECT 'abc", "Syntax(7)"),
    (b"SELEC 'abc", "Syntax(6)"),
    (b"BYE #", "Syntax(4)"),
    (b"'", "Syntax(0)"),
    (b"SELECT ! FROM t", "Syntax(7)"),
    (b"SELECT 9223372036854775809 FROM", "Limit"),
    (b"SELECT 9223372036854775808 FROM", "Syntax(31)"),
    (b"SELECT 9223372036854775808 FROM x", "Limit"),
    (b"SELEC 9223372036854775809", "Limit"),
    (b"9223372036854775809 !", "Syntax(20)"),
];

/// A first token that begins no line.
pub static FIRST_PLACES: [(&[u8], &str); 13] = [
    (b"", "Syntax(0)"),
    (b" ", "Syntax(1)"),
    (b"  \r", "Syntax(2)"),
    (b"SELEC id", "Syntax(0)"),
    (b" SELEC id", "Syntax(1)"),
    (b"7", "Syntax(0)"),
    (b"'x'", "Syntax(0)"),
    (b";", "Syntax(0)"),
    (b"(", "Syntax(0)"),
    (b"KEY", "Syntax(0)"),
    (b"note", "Syntax(0)"),
    (b"TABLE t", "Syntax(0)"),
    (b"IN", "Syntax(0)"),
];

/// A token in the middle that goes on with no line: who asks, principals and tags.
pub static OPENING_PLACES: [(&[u8], &str); 14] = [
    (b"HELLO KEY 'x'", "Syntax(6)"),
    (b"HELLO a 'x'", "Syntax(8)"),
    (b"HELLO a KEY b", "Syntax(12)"),
    (b"HELLO 'a' KEY 'b'", "Syntax(6)"),
    (b"HELLO a KEY 1", "Syntax(12)"),
    (b"CREATE a", "Syntax(7)"),
    (b"CREATE COMPOUND a", "Syntax(16)"),
    (b"CREATE TAG 1", "Syntax(11)"),
    (b"CREATE TAG a (b)", "Syntax(13)"),
    (b"CREATE TAG a IN b", "Syntax(16)"),
    (b"CREATE TAG a IN ()", "Syntax(17)"),
    (b"CREATE TAG a IN (b,)", "Syntax(19)"),
    (b"CREATE TAG a IN (b c)", "Syntax(19)"),
    (b"CREATE PRINCIPAL p 'k'", "Syntax(19)"),
];

/// The same in tables and views.
pub static DEFINITION_PLACES: [(&[u8], &str); 17] = [
    (b"CREATE TABLE t id INT", "Syntax(15)"),
    (b"CREATE TABLE t ()", "Syntax(16)"),
    (b"CREATE TABLE t (PRIMARY KEY (a))", "Syntax(16)"),
    (b"CREATE TABLE t (a FLOAT)", "Syntax(18)"),
    (b"CREATE TABLE t (a INT)", "Syntax(21)"),
    (b"CREATE TABLE t (a INT PRIMARY KEY)", "Syntax(22)"),
    (b"CREATE TABLE t (a INT, PRIMARY (a))", "Syntax(31)"),
    (b"CREATE TABLE t (a INT, PRIMARY KEY ())", "Syntax(36)"),
    (b"CREATE TABLE t (a INT, PRIMARY KEY (a),)", "Syntax(39)"),
    (
        b"CREATE TABLE t (a INT, PRIMARY KEY (a), b INT)",
        "Syntax(40)",
    ),
    (
        b"CREATE TABLE t (a INT, PRIMARY KEY (a), FOREIGN KEY (a) p)",
        "Syntax(56)",
    ),
    (b"CREATE VIEW v SELECT * FROM t", "Syntax(14)"),
    (
        b"CREATE VIEW v AS SELECT COUNT(*) FROM t WITH DECLASSIFYING (a)",
        "Syntax(24)",
    ),
    (
        b"CREATE VIEW v AS SELECT LABEL OF t FROM t WITH DECLASSIFYING (a)",
        "Syntax(24)",
    ),
    (b"CREATE VIEW v AS SELECT * FROM t GROUP BY a", "Syntax(33)"),
    (b"CREATE VIEW v AS SELECT * FROM t WITH (a)", "Syntax(38)"),
    (
        b"CREATE VIEW v AS SELECT * FROM t WITH DECLASSIFYING ()",
        "Syntax(53)",
    ),
];

/// The same in grants, labels and requests of one word.
pub static WORD_PLACES: [(&[u8], &str); 11] = [
    (b"GRANT a FROM b", "Syntax(8)"),
    (b"REVOKE a TO b", "Syntax(9)"),
    (b"SET LABEL a", "Syntax(10)"),
    (b"SET a", "Syntax(4)"),
    (b"SET LABEL (a,)", "Syntax(13)"),
    (b"SHOW TAG", "Syntax(5)"),
    (b"SHOW LABEL a", "Syntax(11)"),
    (b"BEGIN WORK", "Syntax(6)"),
    (b"BYE BYE", "Syntax(4)"),
    (b"BYE ; ;", "Syntax(6)"),
    (b"COMMIT ; x", "Syntax(9)"),
];

/// The same in the items of a SELECT.
pub static ITEM_PLACES: [(&[u8], &str); 22] = [
    (b"SELECT FROM t", "Syntax(7)"),
    (b"SELECT *, a FROM t", "Syntax(8)"),
    (b"SELECT a, * FROM t", "Syntax(10)"),
    (b"SELECT a b FROM t", "Syntax(9)"),
    (b"SELECT a AS FROM t", "Syntax(12)"),
    (b"SELECT a, FROM t", "Syntax(10)"),
    (b"SELECT COUNT(a) FROM t", "Syntax(13)"),
    (b"SELECT COUNT * FROM t", "Syntax(13)"),
    (b"SELECT SUM(*) FROM t", "Syntax(11)"),
    (b"SELECT SUM(a + b) FROM t", "Syntax(13)"),
    (b"SELECT SUM(1) FROM t", "Syntax(11)"),
    (b"SELECT LABEL t FROM t", "Syntax(13)"),
    (b"SELECT a + FROM t", "Syntax(11)"),
    (b"SELECT a + + b FROM t", "Syntax(11)"),
    (b"SELECT -a FROM t", "Syntax(8)"),
    (b"SELECT - - 1 FROM t", "Syntax(9)"),
    (b"SELECT (a FROM t", "Syntax(10)"),
    (b"SELECT a) FROM t", "Syntax(8)"),
    (b"SELECT () FROM t", "Syntax(8)"),
    (b"SELECT a.b.c FROM t", "Syntax(10)"),
    (b"SELECT a.1 FROM t", "Syntax(9)"),
    (b"SELECT a - b -c 1 FROM t", "Syntax(16)"),
];

/// The same behind FROM.
pub static SOURCE_PLACES: [(&[u8], &str); 6] = [
    (b"SELECT a FROM 1", "Syntax(14)"),
    (b"SELECT a FROM t AS", "Syntax(18)"),
    (b"SELECT a FROM t AS 1", "Syntax(19)"),
    (b"SELECT a FROM t u v", "Syntax(18)"),
    (b"SELECT a FROM t,", "Syntax(16)"),
    (b"SELECT a FROM t, WHERE a = 1", "Syntax(17)"),
];

/// The same in conditions.
pub static CONDITION_PLACES: [(&[u8], &str); 20] = [
    (b"SELECT a FROM t WHERE a", "Syntax(23)"),
    (b"SELECT a FROM t WHERE a = ", "Syntax(26)"),
    (b"SELECT a FROM t WHERE a + 1 = 2", "Syntax(24)"),
    (b"SELECT a FROM t WHERE a = 1 + 2", "Syntax(28)"),
    (b"SELECT a FROM t WHERE a = b = c", "Syntax(28)"),
    (b"SELECT a FROM t WHERE (a) = 1", "Syntax(24)"),
    (b"SELECT a FROM t WHERE a = (b)", "Syntax(26)"),
    (b"SELECT a FROM t WHERE a = 1 AND", "Syntax(31)"),
    (b"SELECT a FROM t WHERE a = 1 OR OR b = 2", "Syntax(31)"),
    (b"SELECT a FROM t WHERE NOT", "Syntax(25)"),
    (b"SELECT a FROM t WHERE a NOT = 1", "Syntax(24)"),
    (b"SELECT a FROM t WHERE (a = 1", "Syntax(28)"),
    (b"SELECT a FROM t WHERE a = 1)", "Syntax(27)"),
    (b"SELECT a FROM t WHERE a IS", "Syntax(26)"),
    (b"SELECT a FROM t WHERE a IS 1", "Syntax(27)"),
    (b"SELECT a FROM t WHERE a IS NOT", "Syntax(30)"),
    (b"SELECT a FROM t WHERE a IS NOT 1", "Syntax(31)"),
    (b"SELECT a FROM t WHERE a IS NULL NULL", "Syntax(32)"),
    (b"SELECT a FROM t WHERE a NULL", "Syntax(24)"),
    (b"SELECT a FROM t WHERE a + 1 IS NULL", "Syntax(24)"),
];

/// The same in groups and orders.
pub static ORDER_PLACES: [(&[u8], &str); 7] = [
    (b"SELECT a FROM t GROUP a", "Syntax(22)"),
    (b"SELECT a FROM t GROUP BY 1", "Syntax(25)"),
    (b"SELECT a FROM t GROUP BY a WHERE a = 1", "Syntax(27)"),
    (b"SELECT a FROM t ORDER BY a.b", "Syntax(26)"),
    (b"SELECT a FROM t ORDER BY a DESC ASC", "Syntax(32)"),
    (b"SELECT a FROM t ORDER BY -1", "Syntax(25)"),
    (b"SELECT a FROM t ORDER BY a GROUP BY a", "Syntax(27)"),
];

/// The same in INSERT.
pub static INSERT_PLACES: [(&[u8], &str); 12] = [
    (b"INSERT t VALUES (1)", "Syntax(7)"),
    (b"INSERT INTO t () VALUES (1)", "Syntax(15)"),
    (b"INSERT INTO t (1)", "Syntax(15)"),
    (b"INSERT INTO t VALUES 1", "Syntax(21)"),
    (b"INSERT INTO t VALUES ()", "Syntax(22)"),
    (b"INSERT INTO t VALUES (a)", "Syntax(22)"),
    (b"INSERT INTO t VALUES (1 + 2)", "Syntax(24)"),
    (b"INSERT INTO t VALUES (1),", "Syntax(25)"),
    (b"INSERT INTO t VALUES (1) (2)", "Syntax(25)"),
    (b"INSERT INTO t VALUES (1,)", "Syntax(24)"),
    (b"INSERT INTO t VALUES (-NULL)", "Syntax(23)"),
    (b"INSERT INTO t VALUES (1) DECLASSIFYING a", "Syntax(39)"),
];

/// The same in UPDATE and DELETE, and requests that aren't any.
pub static CHANGE_PLACES: [(&[u8], &str); 13] = [
    (b"UPDATE t a = 1", "Syntax(9)"),
    (b"UPDATE t SET a", "Syntax(14)"),
    (b"UPDATE t SET t.a = 1", "Syntax(14)"),
    (b"UPDATE t SET a = 1,", "Syntax(19)"),
    (b"UPDATE t SET a = 1 b = 2", "Syntax(19)"),
    (b"UPDATE t SET a = b = c", "Syntax(19)"),
    (b"UPDATE t SET a < 1", "Syntax(15)"),
    (
        b"UPDATE t SET a = 1 DECLASSIFYING (p) WHERE a = 1",
        "Syntax(37)",
    ),
    (b"DELETE t", "Syntax(7)"),
    (b"DELETE FROM t a", "Syntax(14)"),
    (b"DELETE FROM t WHERE a = 1 DECLASSIFYING (p)", "Syntax(26)"),
    (b"DROP note", "Syntax(0)"),
    (b"CALL f", "Syntax(0)"),
];

/// All tokens begin a line and aren't one.
pub static LAST_PLACES: [(&[u8], &str); 16] = [
    (b"HELLO", "Syntax(5)"),
    (b"HELLO a KEY", "Syntax(11)"),
    (b"HELLO a KEY\r", "Syntax(11)"),
    (b"CREATE", "Syntax(6)"),
    (b"CREATE TAG a IN (b", "Syntax(18)"),
    (b"SET LABEL", "Syntax(9)"),
    (b"SET LABEL (", "Syntax(11)"),
    (b"SELECT id FROM", "Syntax(14)"),
    (b"SELECT id FROM ", "Syntax(15)"),
    (b"SELECT a FROM t WHERE a < ", "Syntax(26)"),
    (b"INSERT INTO t VALUES (1", "Syntax(23)"),
    (b"UPDATE t SET a =", "Syntax(16)"),
    (b"DELETE FROM", "Syntax(11)"),
    (b"GRANT a TO", "Syntax(10)"),
    (b"SELECT a FROM t ORDER BY", "Syntax(24)"),
    (b"SELECT -", "Syntax(8)"),
];

/// Numbers at the end of a value's range.
pub static LIMITS: [(&[u8], &str); 16] = [
    (
        b"SELECT -9223372036854775808 FROM t",
        "SELECT -9223372036854775808 FROM t",
    ),
    (b"SELECT 9223372036854775808 FROM t", "Limit"),
    (b"SELECT a - 9223372036854775808 FROM t", "Limit"),
    (
        b"SELECT a - -9223372036854775808 FROM t",
        "SELECT a - -9223372036854775808 FROM t",
    ),
    (b"SELECT (a) -9223372036854775808 FROM t", "Limit"),
    (b"SELECT 'x' -9223372036854775808 FROM t", "Limit"),
    (b"SELECT 1 -9223372036854775808 FROM t", "Limit"),
    (b"SELECT NULL -9223372036854775808 FROM t", "Limit"),
    (
        b"SELECT a + -9223372036854775808 FROM t",
        "SELECT a + -9223372036854775808 FROM t",
    ),
    (b"INSERT INTO t VALUES (9223372036854775808)", "Limit"),
    (
        b"INSERT INTO t VALUES (-9223372036854775808)",
        "INSERT INTO t VALUES (-9223372036854775808)",
    ),
    (b"SELECT a FROM t ORDER BY 9223372036854775808", "Limit"),
    (
        b"SELECT a FROM t ORDER BY 9223372036854775807",
        "SELECT a FROM t ORDER BY 9223372036854775807",
    ),
    (b"DELETE FROM t WHERE a = 9223372036854775808", "Limit"),
    (
        b"DELETE FROM t WHERE a = -9223372036854775808",
        "DELETE FROM t WHERE a = -9223372036854775808",
    ),
    (b"UPDATE t SET a = 9223372036854775808", "Limit"),
];
