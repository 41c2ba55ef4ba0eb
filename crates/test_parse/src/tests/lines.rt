// Lines that are requests, each with its canonical text.

/// Who asks, and the end of a session.
pub static SESSIONS: [(&[u8], &str); 15] = [
    (b"HELLO admin KEY 'admin'", "HELLO admin KEY 'admin'"),
    (b"hello ADMIN key 'Admin'", "HELLO admin KEY 'Admin'"),
    (b"HELLO a KEY ''", "HELLO a KEY ''"),
    (b"HELLO a KEY 'it''s'", "HELLO a KEY 'it''s'"),
    (b"HELLO a KEY'k'", "HELLO a KEY 'k'"),
    (b"BYE", "BYE"),
    (b"bYe ;", "BYE"),
    (b" BYE\t", "BYE"),
    (b"BYE\r", "BYE"),
    (b"BYE;\r", "BYE"),
    (b"SHOW LABEL", "SHOW LABEL"),
    (b"show\tlabel;", "SHOW LABEL"),
    (b"BEGIN", "BEGIN"),
    (b"COMMIT", "COMMIT"),
    (b"RollBack", "ROLLBACK"),
];

/// Principals, tags, grants and labels.
pub static AUTHORITY: [(&[u8], &str); 13] = [
    (
        b"CREATE PRINCIPAL guest KEY 'g'",
        "CREATE PRINCIPAL guest KEY 'g'",
    ),
    (
        b"create principal P_1 key '';",
        "CREATE PRINCIPAL p_1 KEY ''",
    ),
    (b"CREATE TAG a", "CREATE TAG a"),
    (b"CREATE TAG A IN (b)", "CREATE TAG a IN (b)"),
    (b"create tag a in(b,C)", "CREATE TAG a IN (b, c)"),
    (b"CREATE COMPOUND TAG every", "CREATE COMPOUND TAG every"),
    (
        b"CREATE COMPOUND TAG u IN (v , w)",
        "CREATE COMPOUND TAG u IN (v, w)",
    ),
    (b"GRANT a TO guest", "GRANT a TO guest"),
    (b"REVOKE a FROM guest", "REVOKE a FROM guest"),
    (b"SET LABEL ()", "SET LABEL ()"),
    (b"SET LABEL( )", "SET LABEL ()"),
    (b"SET LABEL (a)", "SET LABEL (a)"),
    (b"set label(B,a,b);", "SET LABEL (b, a, b)"),
];

/// Tables and views.
pub static TABLES: [(&[u8], &str); 6] = [
    (
        b"CREATE TABLE t (id INT, PRIMARY KEY (id))",
        "CREATE TABLE t (id INT, PRIMARY KEY (id))",
    ),
    (
        b"create table T(id integer,body text,primary key(id,body));",
        "CREATE TABLE t (id INT, body TEXT, PRIMARY KEY (id, body))",
    ),
    (
        b"CREATE TABLE v (v INT, n INT, PRIMARY KEY (v), FOREIGN KEY (n) REFERENCES note)",
        "CREATE TABLE v (v INT, n INT, PRIMARY KEY (v), FOREIGN KEY (n) REFERENCES note)",
    ),
    (
        b"CREATE TABLE v (v INT, PRIMARY KEY (v), FOREIGN KEY (a, b) REFERENCES p, FOREIGN KEY (v) REFERENCES q)",
        "CREATE TABLE v (v INT, PRIMARY KEY (v), FOREIGN KEY (a, b) REFERENCES p, FOREIGN KEY (v) REFERENCES q)",
    ),
    (
        b"CREATE VIEW w AS SELECT * FROM t WITH DECLASSIFYING (a)",
        "CREATE VIEW w AS SELECT * FROM t WITH DECLASSIFYING (a)",
    ),
    (
        b"CREATE VIEW w AS SELECT id, x.y as z FROM t x, u AS q WHERE x.id = q.id WITH DECLASSIFYING (a,b)",
        "CREATE VIEW w AS SELECT id, x.y AS z FROM t AS x, u AS q WHERE x.id = q.id WITH DECLASSIFYING (a, b)",
    ),
];

/// SELECT, with each part there and left out.
pub static SELECTS: [(&[u8], &str); 13] = [
    (b"SELECT * FROM t", "SELECT * FROM t"),
    (
        b"select  ID from Note where not (id!=1);",
        "SELECT id FROM note WHERE NOT id <> 1",
    ),
    (
        b"SELECT a, b AS c, t.d FROM t",
        "SELECT a, b AS c, t.d FROM t",
    ),
    (
        b"SELECT LABEL OF t, LABEL OF t AS l FROM t",
        "SELECT LABEL OF t, LABEL OF t AS l FROM t",
    ),
    (
        b"SELECT COUNT(*), COUNT ( * ) AS n FROM t",
        "SELECT COUNT(*), COUNT(*) AS n FROM t",
    ),
    (
        b"SELECT SUM(a), MIN (t . a), MAX(a) AS m FROM t",
        "SELECT SUM(a), MIN(t.a), MAX(a) AS m FROM t",
    ),
    (
        b"SELECT a FROM t, u v, w AS x, y AS y",
        "SELECT a FROM t, u AS v, w AS x, y",
    ),
    (
        b"SELECT a FROM t WHERE a = 1 GROUP BY a, t.b ORDER BY a, 2 DESC, b ASC",
        "SELECT a FROM t WHERE a = 1 GROUP BY a, t.b ORDER BY a, 2 DESC, b",
    ),
    (b"SELECT a FROM t GROUP BY a", "SELECT a FROM t GROUP BY a"),
    (
        b"SELECT a FROM t ORDER BY 1DESC",
        "SELECT a FROM t ORDER BY 1 DESC",
    ),
    (
        b"SELECT a FROM t ORDER BY 007",
        "SELECT a FROM t ORDER BY 7",
    ),
    (
        b"SELECT 1, -1, - 1, 'x', '' FROM t",
        "SELECT 1, -1, -1, 'x', '' FROM t",
    ),
    (
        b"SELECT 9223372036854775807, -9223372036854775808 FROM t",
        "SELECT 9223372036854775807, -9223372036854775808 FROM t",
    ),
];

/// Expressions, and the parentheses of their canonical text.
pub static EXPRESSIONS: [(&[u8], &str); 14] = [
    (b"SELECT a+b*c FROM t", "SELECT a + b * c FROM t"),
    (b"SELECT (a+b)*c FROM t", "SELECT (a + b) * c FROM t"),
    (b"SELECT a-b-c FROM t", "SELECT a - b - c FROM t"),
    (b"SELECT (a-b)-c FROM t", "SELECT a - b - c FROM t"),
    (b"SELECT a-(b-c) FROM t", "SELECT a - (b - c) FROM t"),
    (b"SELECT a-(b*c) FROM t", "SELECT a - b * c FROM t"),
    (b"SELECT a+(b+c) FROM t", "SELECT a + (b + c) FROM t"),
    (b"SELECT a*(b*c) FROM t", "SELECT a * (b * c) FROM t"),
    (b"SELECT (a*b)*c FROM t", "SELECT a * b * c FROM t"),
    (b"SELECT a*(b+c) FROM t", "SELECT a * (b + c) FROM t"),
    (b"SELECT ((a)) FROM t", "SELECT a FROM t"),
    (
        b"SELECT a - 1, a-1, a - -1, a - - 1 FROM t",
        "SELECT a - 1, a - 1, a - -1, a - -1 FROM t",
    ),
    (
        b"SELECT null+a, -1 - NULL, NULL-1, (NULL) FROM t",
        "SELECT NULL + a, -1 - NULL, NULL - 1, NULL FROM t",
    ),
    (
        b"SELECT -1 - a, -1*-2 FROM t",
        "SELECT -1 - a, -1 * -2 FROM t",
    ),
];

/// Conditions, and the parentheses of their canonical text.
pub static CONDITIONS: [(&[u8], &str); 17] = [
    (
        b"SELECT a FROM t WHERE a = 1 AND b <> 2 AND c < 3",
        "SELECT a FROM t WHERE a = 1 AND b <> 2 AND c < 3",
    ),
    (
        b"SELECT a FROM t WHERE a <= 1 OR b > 2 OR c >= 3",
        "SELECT a FROM t WHERE a <= 1 OR b > 2 OR c >= 3",
    ),
    (
        b"SELECT a FROM t WHERE a = 1 AND b = 2 OR c = 3 AND d = 4",
        "SELECT a FROM t WHERE a = 1 AND b = 2 OR c = 3 AND d = 4",
    ),
    (
        b"SELECT a FROM t WHERE a = 1 AND (b = 2 OR c = 3)",
        "SELECT a FROM t WHERE a = 1 AND (b = 2 OR c = 3)",
    ),
    (
        b"SELECT a FROM t WHERE a = 1 AND (b = 2 AND c = 3)",
        "SELECT a FROM t WHERE a = 1 AND (b = 2 AND c = 3)",
    ),
    (
        b"SELECT a FROM t WHERE (a = 1 OR b = 2) OR c = 3",
        "SELECT a FROM t WHERE (a = 1 OR b = 2) OR c = 3",
    ),
    (
        b"SELECT a FROM t WHERE (a = 1 AND b = 2) OR c = 3",
        "SELECT a FROM t WHERE a = 1 AND b = 2 OR c = 3",
    ),
    (
        b"SELECT a FROM t WHERE NOT NOT a = 1",
        "SELECT a FROM t WHERE NOT NOT a = 1",
    ),
    (
        b"SELECT a FROM t WHERE NOT (a = 1 AND b = 2)",
        "SELECT a FROM t WHERE NOT (a = 1 AND b = 2)",
    ),
    (
        b"SELECT a FROM t WHERE NOT a = 1 AND b = 2",
        "SELECT a FROM t WHERE NOT a = 1 AND b = 2",
    ),
    (
        b"SELECT a FROM t WHERE NOT (NOT (a = 1 OR b = 2))",
        "SELECT a FROM t WHERE NOT NOT (a = 1 OR b = 2)",
    ),
    (
        b"SELECT a FROM t WHERE a is null",
        "SELECT a FROM t WHERE a IS NULL",
    ),
    (
        b"SELECT a FROM t WHERE t.a IS NOT NULL AND NULL IS NULL",
        "SELECT a FROM t WHERE t.a IS NOT NULL AND NULL IS NULL",
    ),
    (
        b"SELECT a FROM t WHERE NOT (a IS NOT NULL) OR NOT ('x' IS NULL)",
        "SELECT a FROM t WHERE NOT a IS NOT NULL OR NOT 'x' IS NULL",
    ),
    (
        b"SELECT a FROM t WHERE a=null OR NULL != 'x'",
        "SELECT a FROM t WHERE a = NULL OR NULL <> 'x'",
    ),
    (
        b"SELECT a FROM t WHERE ((a = 1))",
        "SELECT a FROM t WHERE a = 1",
    ),
    (
        b"SELECT a FROM t WHERE 1 = t.a AND 'x' != b AND -1 < -2",
        "SELECT a FROM t WHERE 1 = t.a AND 'x' <> b AND -1 < -2",
    ),
];

/// INSERT, UPDATE and DELETE.
pub static WRITES: [(&[u8], &str); 13] = [
    (b"INSERT INTO t VALUES (1)", "INSERT INTO t VALUES (1)"),
    (
        b"insert into T(b,A) values(1,'x'),(-2,'y') declassifying(a,b);",
        "INSERT INTO t (b, a) VALUES (1, 'x'), (-2, 'y') DECLASSIFYING (a, b)",
    ),
    (
        b"INSERT INTO t VALUES (1, 'it''s a\\b')",
        "INSERT INTO t VALUES (1, 'it''s a\\b')",
    ),
    (
        b"INSERT INTO t VALUES (1) DECLASSIFYING (a)",
        "INSERT INTO t VALUES (1) DECLASSIFYING (a)",
    ),
    (
        b"INSERT INTO t (a) VALUES (1)",
        "INSERT INTO t (a) VALUES (1)",
    ),
    (
        b"INSERT INTO t VALUES (NULL, 'NULL')",
        "INSERT INTO t VALUES (NULL, 'NULL')",
    ),
    (
        b"UPDATE t SET a = null WHERE b IS NULL",
        "UPDATE t SET a = NULL WHERE b IS NULL",
    ),
    (b"UPDATE t SET a = 1", "UPDATE t SET a = 1"),
    (
        b"UPDATE t SET a=b+1,c='x' WHERE a=1 DECLASSIFYING (p)",
        "UPDATE t SET a = b + 1, c = 'x' WHERE a = 1 DECLASSIFYING (p)",
    ),
    (
        b"UPDATE t SET a = 1 DECLASSIFYING (p)",
        "UPDATE t SET a = 1 DECLASSIFYING (p)",
    ),
    (
        b"UPDATE t SET a = 1 WHERE b = 2",
        "UPDATE t SET a = 1 WHERE b = 2",
    ),
    (b"DELETE FROM t", "DELETE FROM t"),
    (
        b"delete from t where a=1 or b=2",
        "DELETE FROM t WHERE a = 1 OR b = 2",
    ),
];
