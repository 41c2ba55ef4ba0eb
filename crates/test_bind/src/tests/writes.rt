// INSERT, UPDATE and DELETE, each with its tree or its first refusal.

/// INSERT.
pub(super) static INSERTS: [(&[u8], &str); 33] = [
    (
        b"INSERT INTO note VALUES (1, 'a')",
        "insert 0 (1, 'a') given ()",
    ),
    (
        b"INSERT INTO note (body, id) VALUES ('a', -1), ('b', 2) DECLASSIFYING (bob)",
        "insert 0 (-1, 'a'), (2, 'b') given (2)",
    ),
    (
        b"INSERT INTO visit (fee, why, id, pid) VALUES (9, 'flu', 1, 2) DECLASSIFYING (alice, bob, patients)",
        "insert 1 (1, 2, 'flu', 9) given (0, 2)",
    ),
    (
        b"INSERT INTO drug (name, code, dose) VALUES ('y', 'x', 2), ('', 'z', 0)",
        "insert 3 ('x', 2, 'y'), ('z', 0, '') given ()",
    ),
    (
        b"INSERT INTO note (id, body) VALUES (1, 'a') DECLASSIFYING (bob, alice)",
        "insert 0 (1, 'a') given (1, 2)",
    ),
    (
        b"INSERT INTO visit (fee, why, id, pid) VALUES (NULL, NULL, 1, 2)",
        "insert 1 (1, 2, null, null) given ()",
    ),
    (b"INSERT INTO note VALUES (NULL, 'a')", "TypeMismatch"),
    (
        b"INSERT INTO note (body, id) VALUES ('a', 1), ('b', NULL)",
        "TypeMismatch",
    ),
    (
        b"INSERT INTO visit VALUES (1, NULL, 'a', 2) DECLASSIFYING (bob)",
        "TypeMismatch",
    ),
    (b"INSERT INTO nothing VALUES (1)", "UnknownName"),
    (b"INSERT INTO note (id, x) VALUES (1, 'a')", "UnknownName"),
    (
        b"INSERT INTO note VALUES (1, 'a') DECLASSIFYING (bob, nobody)",
        "UnknownName",
    ),
    (b"INSERT INTO fees VALUES (1, 2)", "NotATable"),
    (b"INSERT INTO fees (fee, id) VALUES (1, 2)", "NotATable"),
    (b"INSERT INTO note VALUES (1)", "TypeMismatch"),
    (b"INSERT INTO note VALUES (1, 'a', 2)", "TypeMismatch"),
    (
        b"INSERT INTO note VALUES (1, 'a'), ('b', 'c')",
        "TypeMismatch",
    ),
    (b"INSERT INTO note VALUES (1, 2)", "TypeMismatch"),
    (
        b"INSERT INTO note (body, id) VALUES (1, 'a')",
        "TypeMismatch",
    ),
    (
        b"INSERT INTO note (body, id) VALUES ('a', 1), ('b')",
        "TypeMismatch",
    ),
    (
        b"INSERT INTO note (body, id) VALUES ('a', 1, 2)",
        "TypeMismatch",
    ),
    // A column that is listed twice, and one of the key that isn't.
    (
        b"INSERT INTO note (id, body, id) VALUES (1, 'a', 2)",
        "TypeMismatch",
    ),
    (b"INSERT INTO note (body) VALUES ('a')", "TypeMismatch"),
    (
        b"INSERT INTO visit (id, why, fee) VALUES (1, 'flu', 2)",
        "TypeMismatch",
    ),
    (b"INSERT INTO note (id) VALUES (1)", "TypeMismatch"),
    // Two refusals in one request.
    (b"INSERT INTO fees (x) VALUES (1)", "UnknownName"),
    (
        b"INSERT INTO fees VALUES (1, 2) DECLASSIFYING (nobody)",
        "UnknownName",
    ),
    (b"INSERT INTO fees VALUES ('a')", "NotATable"),
    (b"INSERT INTO note (id, x) VALUES (1)", "UnknownName"),
    (
        b"INSERT INTO note VALUES ('a') DECLASSIFYING (nobody)",
        "UnknownName",
    ),
    (b"INSERT INTO fees (id, id) VALUES (1, 2)", "NotATable"),
    (
        b"INSERT INTO nothing (id) VALUES (1, 2) DECLASSIFYING (nobody)",
        "UnknownName",
    ),
    (
        b"INSERT INTO note (id, x, id) VALUES (1, 2, 3)",
        "UnknownName",
    ),
];

/// UPDATE.
pub(super) static UPDATES: [(&[u8], &str); 35] = [
    (
        b"UPDATE note SET body = 'x'",
        "update 0 set 1 = 'x' given ()",
    ),
    (
        b"UPDATE visit SET fee = fee * 2 + visit.pid, why = 'x' WHERE visit.id > 3 DECLASSIFYING (bob, bob)",
        "update 1 set 3 = ((0.3 * 2) + 0.1), 2 = 'x' where 0.0 > 3 given (2)",
    ),
    (
        b"UPDATE answer SET note = id DECLASSIFYING (alice, patients)",
        "update 2 set 1 = 0.0 given (0)",
    ),
    (
        b"UPDATE drug SET name = code WHERE dose > 1",
        "update 3 set 2 = 0.0 where 0.1 > 1 given ()",
    ),
    (
        b"UPDATE visit SET fee = NULL, why = NULL WHERE fee IS NOT NULL",
        "update 1 set 3 = null, 2 = null where 0.3 is not null given ()",
    ),
    (b"UPDATE note SET id = NULL", "KeyColumn"),
    (b"UPDATE nothing SET x = 1", "UnknownName"),
    (b"UPDATE note SET x = 1", "UnknownName"),
    (b"UPDATE note SET body = x", "UnknownName"),
    (b"UPDATE note SET body = 'a', x = 1", "UnknownName"),
    (b"UPDATE note SET body = visit.why", "UnknownName"),
    (b"UPDATE note SET body = 'a' WHERE x = 1", "UnknownName"),
    (
        b"UPDATE note SET body = 'a' DECLASSIFYING (nobody)",
        "UnknownName",
    ),
    (b"UPDATE visit SET fee = 1 WHERE v.id = 1", "UnknownName"),
    (b"UPDATE fees SET fee = 1", "NotATable"),
    // A view has no key.
    (b"UPDATE fees SET id = 1", "NotATable"),
    (b"UPDATE note SET id = 1", "KeyColumn"),
    (b"UPDATE visit SET fee = 1, id = 2", "KeyColumn"),
    (b"UPDATE visit SET pid = 1", "KeyColumn"),
    (b"UPDATE drug SET name = 'x', code = 'y'", "KeyColumn"),
    (b"UPDATE note SET body = 1", "TypeMismatch"),
    (b"UPDATE visit SET fee = why + 1", "TypeMismatch"),
    (
        b"UPDATE visit SET fee = 1, why = 'x', fee = 1",
        "TypeMismatch",
    ),
    (
        b"UPDATE note SET body = 'a' WHERE id = body",
        "TypeMismatch",
    ),
    // Two refusals in one request.
    (b"UPDATE fees SET x = 1", "UnknownName"),
    (
        b"UPDATE fees SET fee = 1 DECLASSIFYING (nobody)",
        "UnknownName",
    ),
    (b"UPDATE fees SET fee = 'x'", "NotATable"),
    (b"UPDATE note SET id = 1 WHERE x = 1", "UnknownName"),
    (b"UPDATE note SET id = 'x'", "KeyColumn"),
    (
        b"UPDATE visit SET fee = 'x', id = 1 WHERE why = 1",
        "KeyColumn",
    ),
    (b"UPDATE fees SET fee = 1 WHERE x = 1", "UnknownName"),
    (b"UPDATE fees SET id = 'x'", "NotATable"),
    (b"UPDATE note SET id = 1, x = 2", "UnknownName"),
    (
        b"UPDATE note SET body = 1 DECLASSIFYING (nobody)",
        "UnknownName",
    ),
    (b"UPDATE note SET id = 1, id = 2", "KeyColumn"),
];

/// DELETE.
pub(super) static DELETES: [(&[u8], &str); 13] = [
    (b"DELETE FROM note", "delete 0"),
    (
        b"DELETE FROM visit WHERE fee = 0 OR visit.why <= 'b'",
        "delete 1 where or(0.3 = 0, 0.2 <= 'b')",
    ),
    (
        b"DELETE FROM drug WHERE NOT name = code AND 1 < dose",
        "delete 3 where and(not(0.2 = 0.0), 1 < 0.1)",
    ),
    (b"DELETE FROM nothing", "UnknownName"),
    (b"DELETE FROM note WHERE x = 1", "UnknownName"),
    (b"DELETE FROM note WHERE visit.id = 1", "UnknownName"),
    (b"DELETE FROM fees", "NotATable"),
    (b"DELETE FROM note WHERE id = body", "TypeMismatch"),
    (b"DELETE FROM note WHERE body = 1", "TypeMismatch"),
    (
        b"DELETE FROM note WHERE NOT (id = 1 OR 2 = body)",
        "TypeMismatch",
    ),
    // Two refusals in one request.
    (b"DELETE FROM fees WHERE x = 1", "UnknownName"),
    (b"DELETE FROM fees WHERE id = 'x'", "NotATable"),
    (b"DELETE FROM note WHERE x = 1 OR id = 'x'", "UnknownName"),
];
