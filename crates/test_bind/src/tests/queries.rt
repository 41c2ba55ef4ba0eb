// SELECTs, each with its tree or its first refusal.

/// Each part of a SELECT, there and left out.
pub(super) static TREES: [(&[u8], &str); 31] = [
    (b"SELECT * FROM note", "0.0, 0.1 from table 0 (0)"),
    (
        b"SELECT SUM(fee), MIN(why) FROM note, visit",
        "sum 1.3, min 1.2 from table 0 (0), table 1 (1, 0)",
    ),
    (
        b"SELECT COUNT(*), MAX(id) FROM note",
        "count, max 0.0 from table 0 (0)",
    ),
    (
        b"SELECT NULL, fee * (NULL + 1) FROM visit ORDER BY 1",
        "null, (0.3 * (null + 1)) from table 1 (1, 0) order 0",
    ),
    (
        b"SELECT id FROM note WHERE body IS NULL OR NULL = id AND 'x' IS NOT NULL",
        "0.0 from table 0 (0) where or(0.1 is null, and(null = 0.0, 'x' is not null))",
    ),
    (
        b"SELECT * FROM note, fees",
        "0.0, 0.1, 1.0, 1.1 from table 0 (0), view 0 ()",
    ),
    (
        b"SELECT body, note.id, 7, 'x' FROM note",
        "0.1, 0.0, 7, 'x' from table 0 (0)",
    ),
    (
        b"SELECT fee * 2 - (pid + 1) FROM visit WHERE id <= 3 AND why <> 'flu'",
        "((0.3 * 2) - (0.1 + 1)) from table 1 (1, 0) where and(0.0 <= 3, 0.2 <> 'flu')",
    ),
    (
        b"SELECT n.body FROM note n, visit AS v WHERE v.pid = n.id AND NOT (fee < 10 OR why > 'x')",
        "0.1 from table 0 (0), table 1 (1, 0) where and(1.1 = 0.0, not(or(1.3 < 10, 1.2 > 'x')))",
    ),
    (
        b"SELECT id FROM note WHERE 1 >= id",
        "0.0 from table 0 (0) where 1 >= 0.0",
    ),
    (
        b"SELECT LABEL OF v, why FROM note n, visit v",
        "label 1, 1.2 from table 0 (0), table 1 (1, 0)",
    ),
    (
        b"SELECT COUNT(*), COUNT(*) AS n FROM fees",
        "count, count from view 0 ()",
    ),
    (
        b"SELECT pid, SUM(fee), MIN(why), MAX(id), COUNT(*) FROM visit GROUP BY pid",
        "0.1, sum 0.3, min 0.2, max 0.0, count from table 1 (1, 0) group 0.1",
    ),
    (
        b"SELECT pid, why AS w FROM visit GROUP BY why, visit.pid ORDER BY w",
        "0.1, 0.2 from table 1 (1, 0) group 0.2, 0.1 order 1",
    ),
    (
        b"SELECT SUM(id) FROM note GROUP BY body",
        "sum 0.0 from table 0 (0) group 0.1",
    ),
    (
        b"SELECT a, SUM(b) FROM pairs GROUP BY a",
        "0.0, sum 0.1 from view 1 () group 0.0",
    ),
    (
        b"SELECT note.id, note.id FROM note ORDER BY 2 DESC, 1",
        "0.0, 0.0 from table 0 (0) order 1 desc, 0",
    ),
    (
        b"SELECT note.id AS x, visit.id FROM note, visit ORDER BY id, x DESC",
        "0.0, 1.0 from table 0 (0), table 1 (1, 0) order 1, 0 desc",
    ),
    (
        b"SELECT * FROM note ORDER BY body, 1",
        "0.0, 0.1 from table 0 (0) order 1, 0",
    ),
    (
        b"SELECT COUNT(*) AS n FROM note ORDER BY n",
        "count from table 0 (0) order 0",
    ),
    (
        b"SELECT d.name FROM note a, note b, visit c, drug d WHERE a.id = b.id AND c.pid = a.id",
        "3.2 from table 0 (0), table 0 (0), table 1 (1, 0), table 3 (1, 0) where and(0.0 = 1.0, 2.1 = 0.0)",
    ),
    // A view's columns bear its own names, and the kinds of its items.
    (
        b"SELECT w, n + 1 FROM whys WHERE w <> 'x' AND n > 0",
        "0.0, (0.1 + 1) from view 2 () where and(0.0 <> 'x', 0.1 > 0)",
    ),
    (
        b"SELECT MAX(w), SUM(n), COUNT(*) FROM whys GROUP BY n",
        "max 0.0, sum 0.1, count from view 2 () group 0.1",
    ),
    // Columns of GROUP BY in another form, and twice.
    (
        b"SELECT visit.pid, pid FROM visit GROUP BY pid, visit.pid",
        "0.1, 0.1 from table 1 (1, 0) group 0.1, 0.1",
    ),
    // ORDER BY counts what `*` gives, and finds the names of items that are no columns.
    (
        b"SELECT * FROM note, visit ORDER BY 4 DESC, why",
        "0.0, 0.1, 1.0, 1.1, 1.2, 1.3 from table 0 (0), table 1 (1, 0) order 3 desc, 4",
    ),
    (
        b"SELECT LABEL OF note AS l, id * 2 AS d FROM note ORDER BY d ASC, l DESC",
        "label 0, (0.0 * 2) from table 0 (0) order 1, 0 desc",
    ),
    (
        b"SELECT 1 FROM note WHERE 1 = 1 OR 'x' < 'y'",
        "1 from table 0 (0) where or(1 = 1, 'x' < 'y')",
    ),
    // An alias hides a table of its name.
    (b"SELECT visit.body FROM note visit", "0.1 from table 0 (0)"),
    (
        b"SELECT note.id, visit.id FROM visit note, note visit",
        "0.0, 1.0 from table 1 (1, 0), table 0 (0)",
    ),
    // A table twice, and a column that only one source has.
    (
        b"SELECT a.id, b.id FROM note a, note b",
        "0.0, 1.0 from table 0 (0), table 0 (0)",
    ),
    (
        b"SELECT why, body FROM visit, note",
        "0.2, 1.1 from table 1 (1, 0), table 0 (0)",
    ),
];

/// Names that stand for nothing, or for more than one thing.
pub(super) static NAMES: [(&[u8], &str); 31] = [
    (b"SELECT id FROM nothing", "UnknownName"),
    (b"SELECT id FROM note, nothing", "UnknownName"),
    (b"SELECT x FROM note", "UnknownName"),
    (b"SELECT id, x FROM note", "UnknownName"),
    (b"SELECT 1 + x FROM note", "UnknownName"),
    (b"SELECT id FROM note WHERE id = 1 OR x = 2", "UnknownName"),
    (b"SELECT LABEL OF visit FROM note", "UnknownName"),
    (b"SELECT LABEL OF note FROM note n", "UnknownName"),
    (b"SELECT SUM(x) FROM note GROUP BY id", "UnknownName"),
    (b"SELECT COUNT(*) FROM note GROUP BY x", "UnknownName"),
    (b"SELECT why FROM whys", "UnknownName"),
    (b"SELECT v.w FROM whys", "UnknownName"),
    // Ambiguous between sources.
    (b"SELECT id FROM note, visit", "UnknownName"),
    (b"SELECT id FROM note a, note b", "UnknownName"),
    (b"SELECT a.id FROM note a, visit a", "UnknownName"),
    (b"SELECT body FROM note, visit WHERE id = 1", "UnknownName"),
    (
        b"SELECT COUNT(*) FROM note, visit GROUP BY id",
        "UnknownName",
    ),
    (
        b"SELECT MIN(id) FROM note, visit GROUP BY body",
        "UnknownName",
    ),
    // A table's own name is hidden by its alias.
    (b"SELECT note.id FROM note n", "UnknownName"),
    (b"SELECT visit.fee FROM note visit, visit v", "UnknownName"),
    // ORDER BY.
    (b"SELECT id, id FROM note ORDER BY id", "UnknownName"),
    (
        b"SELECT id, body AS id FROM note ORDER BY id",
        "UnknownName",
    ),
    (b"SELECT id AS x FROM note ORDER BY id", "UnknownName"),
    (b"SELECT id FROM note ORDER BY 0", "UnknownName"),
    (b"SELECT id FROM note ORDER BY 2", "UnknownName"),
    (b"SELECT id FROM note ORDER BY 1, x", "UnknownName"),
    (b"SELECT body FROM note ORDER BY id", "UnknownName"),
    (b"SELECT * FROM note ORDER BY 3", "UnknownName"),
    (b"SELECT * FROM note, visit ORDER BY id", "UnknownName"),
    (b"SELECT * FROM note n, note m ORDER BY body", "UnknownName"),
    (
        b"SELECT SUM(fee) FROM visit GROUP BY pid ORDER BY fee",
        "UnknownName",
    ),
];

/// Kinds and forms that don't fit, and two refusals in one request.
pub(super) static FORMS: [(&[u8], &str); 40] = [
    (b"SELECT body + 1 FROM note", "TypeMismatch"),
    (b"SELECT id FROM note WHERE id = 'x'", "TypeMismatch"),
    (
        b"SELECT id FROM note WHERE NOT (id = 1 AND body < id)",
        "TypeMismatch",
    ),
    (b"SELECT a.why FROM note a, visit a", "TypeMismatch"),
    (b"SELECT 'a' + 1 FROM note", "TypeMismatch"),
    (b"SELECT 2 * body FROM note", "TypeMismatch"),
    (b"SELECT w + 1 FROM whys", "TypeMismatch"),
    (b"SELECT n FROM whys WHERE n = 'x'", "TypeMismatch"),
    (b"SELECT id FROM note WHERE 'x' = 1", "TypeMismatch"),
    // Two sources of one alias, though no column is named.
    (b"SELECT * FROM note a, visit a", "TypeMismatch"),
    (b"SELECT LABEL OF a FROM note a, visit a", "TypeMismatch"),
    (b"SELECT 1 FROM note, note", "TypeMismatch"),
    (b"SELECT 1 FROM note, visit note", "TypeMismatch"),
    // Aggregates.
    (b"SELECT id, COUNT(*) FROM note", "TypeMismatch"),
    (b"SELECT SUM(fee), fee FROM visit", "TypeMismatch"),
    (b"SELECT NULL, MAX(id) FROM note", "TypeMismatch"),
    (b"SELECT NULL + 'x' FROM note", "TypeMismatch"),
    (b"SELECT COUNT(*), LABEL OF note FROM note", "TypeMismatch"),
    (b"SELECT SUM(why) FROM visit GROUP BY pid", "TypeMismatch"),
    (b"SELECT why FROM visit GROUP BY pid", "TypeMismatch"),
    (b"SELECT pid + 1 FROM visit GROUP BY pid", "TypeMismatch"),
    (b"SELECT 1 FROM visit GROUP BY pid", "TypeMismatch"),
    (b"SELECT * FROM fees GROUP BY id, fee", "TypeMismatch"),
    (
        b"SELECT LABEL OF visit FROM visit GROUP BY pid",
        "TypeMismatch",
    ),
    (b"SELECT SUM(w) FROM whys GROUP BY n", "TypeMismatch"),
    // COUNT(*) over two sources, and over a view of two.
    (b"SELECT COUNT(*) FROM note, visit", "TypeMismatch"),
    (
        b"SELECT COUNT(*) FROM note a, note b GROUP BY a.id",
        "TypeMismatch",
    ),
    (b"SELECT COUNT(*) FROM pairs", "TypeMismatch"),
    (b"SELECT a, COUNT(*) FROM pairs GROUP BY a", "TypeMismatch"),
    // Two refusals in one request.
    (b"SELECT body + 1, x FROM note", "UnknownName"),
    (b"SELECT body + 1 FROM note WHERE x = 1", "UnknownName"),
    (b"SELECT body + 1 FROM note ORDER BY x", "UnknownName"),
    (b"SELECT COUNT(*), id FROM note GROUP BY x", "UnknownName"),
    (b"SELECT COUNT(*) FROM note, nothing", "UnknownName"),
    (b"SELECT LABEL OF x FROM note GROUP BY id", "UnknownName"),
    (b"SELECT a.id FROM note a, note a", "UnknownName"),
    (b"SELECT body + 1 FROM note, nothing", "UnknownName"),
    (
        b"SELECT COUNT(*), body + 1 FROM note ORDER BY 3",
        "UnknownName",
    ),
    (b"SELECT SUM(why) FROM visit GROUP BY x", "UnknownName"),
    (b"SELECT COUNT(*) FROM pairs WHERE x = 1", "UnknownName"),
];
