// Records as texts.
use ifdb_label::Tag;
use ifdb_redo::{OutOfMemory, RedoRecord, change_text, commit_text};
use ifdb_row::{Row, Slot, Write};
use ifdb_value::Value;
use std::alloc::Global;
use std::fmt;

/// A record as a text.
pub fn text_of(alloc: Global, record: &RedoRecord) -> Result<String, OutOfMemory> {
    format!(in alloc; "{}", Shown(record))
}

/// The bytes of a record.
pub fn spelled(alloc: Global, record: &RedoRecord) -> Result<Vec<u8>, OutOfMemory> {
    match record {
        RedoRecord::Change { asker, line } => change_text(alloc, *asker, line.items()),
        RedoRecord::Commit(writes) => commit_text(alloc, writes),
    }
}

#[derive(Drop)]
struct Shown<'a>(&'a RedoRecord);

impl fmt::Display for Shown<'_> {
    fn fmt<W: fmt::Write>(&self, f: &mut fmt::Formatter<W>) -> fmt::Result {
        match self.0 {
            RedoRecord::Change { asker, line } => {
                write!(f, "{}: ", asker.0)?;
                for byte in line.items() {
                    f.write_char(char::from(*byte))?;
                }
                Ok(())
            }
            RedoRecord::Commit(writes) => {
                for write in writes.items() {
                    write_write(f, write)?;
                }
                Ok(())
            }
        }
    }
}

fn write_write<W: fmt::Write>(f: &mut fmt::Formatter<W>, write: &Write) -> fmt::Result {
    write_slot(f, &write.slot)?;
    match &write.row {
        None => f.write_str(" gone;"),
        Some(row) => write_row(f, row.get()),
    }
}

fn write_row<W: fmt::Write>(f: &mut fmt::Formatter<W>, row: &Row) -> fmt::Result {
    f.write_str(" = ")?;
    write_values(f, row.values.items())?;
    for slot in row.refs.items() {
        f.write_str(" of ")?;
        write_slot(f, slot)?;
    }
    f.write_str(";")
}

fn write_slot<W: fmt::Write>(f: &mut fmt::Formatter<W>, slot: &Slot) -> fmt::Result {
    write!(f, "{} ", slot.table.0)?;
    write_values(f, slot.key.items())?;
    f.write_str(" ")?;
    write_tags(f, slot.label.tags())
}

fn write_tags<W: fmt::Write>(f: &mut fmt::Formatter<W>, tags: &[Tag]) -> fmt::Result {
    f.write_str("{")?;
    for (place, tag) in tags.iter().enumerate() {
        let before = if place == 0 { "" } else { ", " };
        write!(f, "{before}{}", tag.0)?;
    }
    f.write_str("}")
}

fn write_values<W: fmt::Write>(f: &mut fmt::Formatter<W>, values: &[Value]) -> fmt::Result {
    f.write_str("(")?;
    for (place, value) in values.iter().enumerate() {
        f.write_str(if place == 0 { "" } else { ", " })?;
        write_value(f, value)?;
    }
    f.write_str(")")
}

fn write_value<W: fmt::Write>(f: &mut fmt::Formatter<W>, value: &Value) -> fmt::Result {
    match value {
        Value::Null => f.write_str("NULL"),
        Value::Int(number) => write!(f, "{number}"),
        Value::Text(text) => write!(f, "'{}'", text.as_str()),
    }
}
