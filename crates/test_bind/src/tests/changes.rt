// Changes of the public state and of labels, each with its tree or its first refusal.
use ifdb_wire::Fault;

/// Principals, tags, grants, labels, and what names nothing.
pub(super) static NAMES: [(&[u8], &str); 49] = [
    (
        b"CREATE PRINCIPAL nurse KEY 'n'",
        "principal nurse key 'n' by 1",
    ),
    (
        b"CREATE PRINCIPAL alice KEY ''",
        "principal alice key '' by 1",
    ),
    (b"CREATE PRINCIPAL doctor KEY 'n'", "Taken"),
    (
        b"CREATE PRINCIPAL nurse KEY 'n' CLEARANCE ()",
        "principal nurse key 'n' clearance () by 1",
    ),
    (
        b"CREATE PRINCIPAL nurse KEY 'n' CLEARANCE (bob, alice, bob)",
        "principal nurse key 'n' clearance (1, 2) by 1",
    ),
    (
        b"CREATE PRINCIPAL nurse KEY 'n' CLEARANCE (alice, patients)",
        "principal nurse key 'n' clearance (0) by 1",
    ),
    (
        b"CREATE PRINCIPAL nurse KEY 'n' CLEARANCE (alice, nobody)",
        "UnknownName",
    ),
    (
        b"CREATE PRINCIPAL nurse KEY 'n' CLEARANCE (doctor)",
        "UnknownName",
    ),
    (
        b"CREATE PRINCIPAL doctor KEY 'n' CLEARANCE (nobody)",
        "Taken",
    ),
    (b"CREATE TAG carl", "plain tag carl in () by 1"),
    (
        b"CREATE TAG doctor IN (patients)",
        "plain tag doctor in (0) by 1",
    ),
    (
        b"CREATE COMPOUND TAG staff IN (patients, patients)",
        "compound tag staff in (0, 0) by 1",
    ),
    (b"CREATE TAG bob", "Taken"),
    (b"CREATE TAG carl IN (nobody)", "UnknownName"),
    (b"CREATE TAG carl IN (patients, doctor)", "UnknownName"),
    (b"CREATE TAG carl IN (alice)", "NotCompound"),
    (b"CREATE TAG carl IN (patients, bob)", "NotCompound"),
    (b"CREATE PRINCIPAL admin KEY 'admin'", "Taken"),
    (b"CREATE COMPOUND TAG staff IN (alice)", "NotCompound"),
    (b"CREATE COMPOUND TAG bob IN (alice)", "Taken"),
    // Two refusals in one request.
    (b"CREATE TAG bob IN (nobody)", "Taken"),
    (b"CREATE TAG bob IN (alice)", "Taken"),
    (b"CREATE TAG carl IN (bob, nobody)", "UnknownName"),
    (b"GRANT alice TO doctor", "grant 1 to 1 by 1"),
    (b"GRANT bob TO admin", "grant 2 to 0 by 1"),
    (b"GRANT nobody TO doctor", "UnknownName"),
    (b"GRANT alice TO nobody", "UnknownName"),
    (b"GRANT doctor TO alice", "UnknownName"),
    (b"REVOKE bob FROM doctor", "revoke 2 from 1 by 1"),
    (b"REVOKE nobody FROM doctor", "UnknownName"),
    (b"REVOKE bob FROM nobody", "UnknownName"),
    (b"SET LABEL ()", "label ()"),
    (b"SET LABEL (bob, alice, bob)", "label (1, 2)"),
    (b"SET LABEL (alice, patients)", "label (0)"),
    (b"SET LABEL (bob, patients)", "label (0, 2)"),
    (b"SET LABEL (nobody)", "UnknownName"),
    (b"SET LABEL (alice, doctor)", "UnknownName"),
    (b"HELLO nobody KEY ''", "other"),
    (b"SHOW LABEL", "other"),
    (b"BEGIN", "other"),
    (b"COMMIT", "other"),
    (b"ROLLBACK", "other"),
    (b"BYE", "other"),
    // Names of the three spaces don't meet.
    (
        b"CREATE PRINCIPAL note KEY 'n'",
        "principal note key 'n' by 1",
    ),
    (b"CREATE TAG note", "plain tag note in () by 1"),
    (b"CREATE TAG fees", "plain tag fees in () by 1"),
    (b"GRANT note TO doctor", "UnknownName"),
    (b"GRANT bob TO fees", "UnknownName"),
    (b"SET LABEL (fees)", "UnknownName"),
];

/// CREATE TABLE.
pub(super) static TABLES: [(&[u8], &str); 28] = [
    (
        b"CREATE TABLE t (id INT, PRIMARY KEY (id))",
        "table t (id INT) key (0) by 1",
    ),
    (
        b"CREATE TABLE bob (a INT, b TEXT, c INT, PRIMARY KEY (c, a))",
        "table bob (a INT, b TEXT, c INT) key (2, 0) by 1",
    ),
    (
        b"CREATE TABLE t (id INT, n INT, PRIMARY KEY (id), FOREIGN KEY (n) REFERENCES note)",
        "table t (id INT, n INT) key (0) foreign (1) to 0 by 1",
    ),
    (
        b"CREATE TABLE t (a INT, b INT, PRIMARY KEY (b), FOREIGN KEY (b, a) REFERENCES visit, FOREIGN KEY (a) REFERENCES note)",
        "table t (a INT, b INT) key (1) foreign (1, 0) to 1, (0) to 0 by 1",
    ),
    (
        b"CREATE TABLE t (id INT, PRIMARY KEY (id), FOREIGN KEY (id, id) REFERENCES visit)",
        "table t (id INT) key (0) foreign (0, 0) to 1 by 1",
    ),
    (b"CREATE TABLE note (id INT, PRIMARY KEY (id))", "Taken"),
    (b"CREATE TABLE fees (id INT, PRIMARY KEY (id))", "Taken"),
    (
        b"CREATE TABLE t (id INT, id TEXT, PRIMARY KEY (id))",
        "Taken",
    ),
    (
        b"CREATE TABLE t (id INT, a INT, PRIMARY KEY (id, a, id))",
        "Taken",
    ),
    (b"CREATE TABLE t (id INT, PRIMARY KEY (x))", "UnknownName"),
    (
        b"CREATE TABLE t (id INT, PRIMARY KEY (id, x))",
        "UnknownName",
    ),
    (
        b"CREATE TABLE t (id INT, PRIMARY KEY (id), FOREIGN KEY (x) REFERENCES note)",
        "UnknownName",
    ),
    (
        b"CREATE TABLE t (id INT, PRIMARY KEY (id), FOREIGN KEY (id) REFERENCES nothing)",
        "UnknownName",
    ),
    // To its own table, which isn't made yet.
    (
        b"CREATE TABLE t (id INT, PRIMARY KEY (id), FOREIGN KEY (id) REFERENCES t)",
        "UnknownName",
    ),
    (
        b"CREATE TABLE t (id INT, PRIMARY KEY (id), FOREIGN KEY (id) REFERENCES fees)",
        "NotATable",
    ),
    // Of the wrong kind, and of the wrong number.
    (
        b"CREATE TABLE t (id TEXT, PRIMARY KEY (id), FOREIGN KEY (id) REFERENCES note)",
        "TypeMismatch",
    ),
    (
        b"CREATE TABLE t (id INT, PRIMARY KEY (id), FOREIGN KEY (id) REFERENCES visit)",
        "TypeMismatch",
    ),
    (
        b"CREATE TABLE t (id INT, PRIMARY KEY (id), FOREIGN KEY (id, id) REFERENCES note)",
        "TypeMismatch",
    ),
    (
        b"CREATE TABLE t (id INT, PRIMARY KEY (id), FOREIGN KEY (id) REFERENCES note, FOREIGN KEY (id) REFERENCES visit)",
        "TypeMismatch",
    ),
    // To a key of two kinds: they are compared in the order of the key.
    (
        b"CREATE TABLE t (a INT, b TEXT, PRIMARY KEY (b, a), FOREIGN KEY (a, b) REFERENCES drug)",
        "table t (a INT, b TEXT) key (1, 0) foreign (0, 1) to 3 by 1",
    ),
    (
        b"CREATE TABLE t (a INT, b TEXT, PRIMARY KEY (b), FOREIGN KEY (b, a) REFERENCES drug)",
        "TypeMismatch",
    ),
    (
        b"CREATE TABLE t (a INT, b INT, PRIMARY KEY (b), FOREIGN KEY (a, b) REFERENCES drug)",
        "TypeMismatch",
    ),
    // Two refusals in one request.
    (b"CREATE TABLE note (id INT, PRIMARY KEY (x))", "Taken"),
    (
        b"CREATE TABLE t (id INT, id INT, PRIMARY KEY (id), FOREIGN KEY (id) REFERENCES nothing)",
        "Taken",
    ),
    (
        b"CREATE TABLE t (id INT, PRIMARY KEY (x), FOREIGN KEY (id) REFERENCES fees)",
        "UnknownName",
    ),
    (
        b"CREATE TABLE t (id INT, PRIMARY KEY (id), FOREIGN KEY (id) REFERENCES fees, FOREIGN KEY (id) REFERENCES nothing)",
        "UnknownName",
    ),
    (
        b"CREATE TABLE t (id TEXT, PRIMARY KEY (id), FOREIGN KEY (id) REFERENCES note, FOREIGN KEY (id) REFERENCES fees)",
        "NotATable",
    ),
    (
        b"CREATE TABLE note (id TEXT, PRIMARY KEY (id), FOREIGN KEY (id) REFERENCES note)",
        "Taken",
    ),
];

/// CREATE VIEW.
pub(super) static VIEWS: [(&[u8], &str); 32] = [
    (
        b"CREATE VIEW v AS SELECT id FROM note WITH DECLASSIFYING (bob)",
        "view v (id) by 1 for (2): 0.0 from table 0 (0)",
    ),
    (
        b"CREATE VIEW v AS SELECT * FROM note n WHERE n.body = 'x' WITH DECLASSIFYING (bob, alice)",
        "view v (id, body) by 1 for (1, 2): 0.0, 0.1 from table 0 (0) where 0.1 = 'x'",
    ),
    (
        b"CREATE VIEW v AS SELECT fee + 1 AS more, why, pid AS id FROM visit WITH DECLASSIFYING (alice, patients)",
        "view v (more, why, id) by 1 for (0): (0.3 + 1), 0.2, 0.1 from table 1 (1, 0)",
    ),
    (
        b"CREATE VIEW v AS SELECT id + NULL AS x FROM note WITH DECLASSIFYING (bob)",
        "view v (x) by 1 for (2): (0.0 + null) from table 0 (0)",
    ),
    (
        b"CREATE VIEW v AS SELECT id, NULL AS x FROM note WITH DECLASSIFYING (bob)",
        "TypeMismatch",
    ),
    (
        b"CREATE VIEW v AS SELECT (NULL) AS x FROM fees WITH DECLASSIFYING (bob)",
        "NotATable",
    ),
    (
        b"CREATE VIEW note AS SELECT id FROM note WITH DECLASSIFYING (bob)",
        "Taken",
    ),
    (
        b"CREATE VIEW fees AS SELECT id FROM note WITH DECLASSIFYING (bob)",
        "Taken",
    ),
    (
        b"CREATE VIEW v AS SELECT id FROM nothing WITH DECLASSIFYING (bob)",
        "UnknownName",
    ),
    (
        b"CREATE VIEW v AS SELECT x FROM note WITH DECLASSIFYING (bob)",
        "UnknownName",
    ),
    (
        b"CREATE VIEW v AS SELECT id FROM note WHERE x = 1 WITH DECLASSIFYING (bob)",
        "UnknownName",
    ),
    (
        b"CREATE VIEW v AS SELECT id FROM note WITH DECLASSIFYING (bob, nobody)",
        "UnknownName",
    ),
    (
        b"CREATE VIEW v AS SELECT id FROM fees WITH DECLASSIFYING (bob)",
        "NotATable",
    ),
    (
        b"CREATE VIEW v AS SELECT fees.id FROM note, fees WITH DECLASSIFYING (bob)",
        "NotATable",
    ),
    (
        b"CREATE VIEW v AS SELECT id + 1 FROM note WITH DECLASSIFYING (bob)",
        "TypeMismatch",
    ),
    (
        b"CREATE VIEW v AS SELECT id, body AS id FROM note WITH DECLASSIFYING (bob)",
        "TypeMismatch",
    ),
    (
        b"CREATE VIEW v AS SELECT * FROM note, answer WITH DECLASSIFYING (bob)",
        "TypeMismatch",
    ),
    (
        b"CREATE VIEW v AS SELECT body + 1 AS n FROM note WITH DECLASSIFYING (bob)",
        "TypeMismatch",
    ),
    (
        b"CREATE VIEW v AS SELECT a.why FROM note a, visit a WITH DECLASSIFYING (bob)",
        "TypeMismatch",
    ),
    (
        b"CREATE VIEW v AS SELECT n.id AS a, m.id AS b FROM note n, note m WHERE n.id = m.id WITH DECLASSIFYING (patients)",
        "view v (a, b) by 1 for (0): 0.0, 1.0 from table 0 (0), table 0 (0) where 0.0 = 1.0",
    ),
    (
        b"CREATE VIEW bob AS SELECT 7 AS seven, 'x' AS x FROM note WITH DECLASSIFYING (bob)",
        "view bob (seven, x) by 1 for (2): 7, 'x' from table 0 (0)",
    ),
    (
        b"CREATE VIEW v AS SELECT id FROM note WHERE id = body WITH DECLASSIFYING (bob)",
        "TypeMismatch",
    ),
    // Two refusals in one request.
    (
        b"CREATE VIEW note AS SELECT x FROM note WITH DECLASSIFYING (bob)",
        "Taken",
    ),
    (
        b"CREATE VIEW v AS SELECT x FROM fees WITH DECLASSIFYING (bob)",
        "UnknownName",
    ),
    (
        b"CREATE VIEW v AS SELECT id FROM fees WITH DECLASSIFYING (nobody)",
        "UnknownName",
    ),
    (
        b"CREATE VIEW v AS SELECT id + 1 FROM fees WITH DECLASSIFYING (bob)",
        "NotATable",
    ),
    (
        b"CREATE VIEW fees AS SELECT id FROM fees WITH DECLASSIFYING (bob)",
        "Taken",
    ),
    (
        b"CREATE VIEW note AS SELECT id + 1 FROM note WITH DECLASSIFYING (nobody)",
        "Taken",
    ),
    (
        b"CREATE VIEW v AS SELECT id + 1, x FROM note WITH DECLASSIFYING (bob)",
        "UnknownName",
    ),
    (
        b"CREATE VIEW v AS SELECT id + 1 FROM note WITH DECLASSIFYING (nobody)",
        "UnknownName",
    ),
    (
        b"CREATE VIEW v AS SELECT f.id FROM fees f, note f WITH DECLASSIFYING (bob)",
        "UnknownName",
    ),
    (
        b"CREATE VIEW v AS SELECT f.fee FROM fees f, note f WITH DECLASSIFYING (bob)",
        "NotATable",
    ),
];

/// Changes as they are asked for one after the other, each made or with the refusal of its binding or of its making.
pub(super) static MADE: [(&[u8], Result<(), Fault>); 16] = [
    (b"CREATE PRINCIPAL nurse KEY 'n'", Ok(())),
    (b"CREATE PRINCIPAL nurse KEY 'm'", Err(Fault::Taken)),
    (b"CREATE COMPOUND TAG carl IN (patients)", Ok(())),
    (b"CREATE TAG dora IN (carl)", Ok(())),
    (b"GRANT bob TO nurse", Err(Fault::NoAuthority)),
    (b"GRANT dora TO nurse", Ok(())),
    (b"REVOKE dora FROM admin", Err(Fault::NotGranted)),
    (b"REVOKE dora FROM nurse", Ok(())),
    (b"REVOKE dora FROM nurse", Err(Fault::NotGranted)),
    (
        b"CREATE TABLE child (id INT, note INT, pid INT, why TEXT, PRIMARY KEY (why, id), FOREIGN KEY (note) REFERENCES note, FOREIGN KEY (pid, id) REFERENCES visit)",
        Ok(()),
    ),
    (
        b"CREATE TABLE child (id INT, PRIMARY KEY (id))",
        Err(Fault::Taken),
    ),
    (
        b"CREATE VIEW kids AS SELECT why, id FROM child WITH DECLASSIFYING (bob)",
        Err(Fault::NoAuthority),
    ),
    (
        b"CREATE VIEW kids AS SELECT why, id FROM child WITH DECLASSIFYING (dora, alice)",
        Err(Fault::NoAuthority),
    ),
    (
        b"CREATE VIEW kids AS SELECT why, id FROM child WITH DECLASSIFYING (dora)",
        Ok(()),
    ),
    (
        b"CREATE VIEW kids AS SELECT id FROM note WITH DECLASSIFYING (dora)",
        Err(Fault::Taken),
    ),
    (
        b"CREATE VIEW more AS SELECT id FROM kids WITH DECLASSIFYING (dora)",
        Err(Fault::NotATable),
    ),
];

/// What names stand for once those are made.
pub(super) static LATER: [(&[u8], &str); 8] = [
    (b"SET LABEL (dora, bob)", "label (2, 4)"),
    (b"SET LABEL (dora, carl)", "label (3)"),
    (b"GRANT carl TO nurse", "grant 3 to 2 by 1"),
    (
        b"SELECT * FROM child",
        "0.0, 0.1, 0.2, 0.3 from table 4 (3, 0)",
    ),
    (
        b"SELECT why, id + 1 FROM kids",
        "0.0, (0.1 + 1) from view 3 ()",
    ),
    (b"SELECT why + 1 FROM kids", "TypeMismatch"),
    (
        b"CREATE TABLE t (a TEXT, b INT, PRIMARY KEY (b), FOREIGN KEY (a, b) REFERENCES child)",
        "table t (a TEXT, b INT) key (1) foreign (0, 1) to 4 by 1",
    ),
    (
        b"CREATE VIEW v AS SELECT id FROM kids WITH DECLASSIFYING (dora)",
        "NotATable",
    ),
];

/// What the same names stand for where they are not made.
pub(super) static EARLIER: [(&[u8], &str); 5] = [
    (b"SET LABEL (dora, bob)", "UnknownName"),
    (b"GRANT alice TO nurse", "UnknownName"),
    (b"SELECT * FROM child", "UnknownName"),
    (b"SELECT why FROM kids", "UnknownName"),
    (
        b"CREATE VIEW kids AS SELECT id FROM note WITH DECLASSIFYING (bob)",
        "view kids (id) by 1 for (2): 0.0 from table 0 (0)",
    ),
];
