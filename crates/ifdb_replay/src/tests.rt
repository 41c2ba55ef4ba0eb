// Which lines have no record, by their first words.
use super::only_looks;
use std::test::Fail;

static LINES: [(&str, bool); 18] = [
    ("SELECT id FROM note", true),
    ("select", true),
    ("SeLeCt*", true),
    (" \t select id FROM note", true),
    ("SHOW LABEL", true),
    ("\tshow\r", true),
    ("SELECT\r", true),
    ("show,", true),
    ("", false),
    (" \t", false),
    ("\r", false),
    ("SELECTS", false),
    ("SELECT_1", false),
    ("_SELECT", false),
    ("SHOW2", false),
    ("(SELECT id FROM note)", false),
    ("\u{b}SELECT id FROM note", false),
    ("INSERT INTO note VALUES (1)", false),
];

#[test]
fn lines_without_a_record(rt: HostRuntime) -> Result<(), Fail> {
    for (line, want) in &LINES {
        let looks = only_looks(line.as_bytes());
        assert_eq!(rt; looks, *want, "{line}");
    }
    Ok(())
}
