// Records as bytes.
ghost use Rattle.std.specs.Prelude.{◌≡◌, ◌∷◌, ◌++◌, All, IfOk, OnOk, Some, length};
ghost use Rattle.ifdb_redo.specs.declared.record.RedoRecord.TheVariants as redo;
ghost use Rattle.ifdb_redo.specs.Spelling as spell;
ghost use Rattle.ifdb_redo.specs.Spelled.{AreListed, AreWrites, IsFilling, IsNumber, IsRow, IsSlot, IsValue, IsWord, IsWrite};
ghost use Rattle.ifdb_redo.specs.Reading.{record_of};

use crate::OutOfMemory;
use crate::crc::checksum;
use ifdb_label::{Label, Tag};
use ifdb_row::{Row, Slot, Write, Writes};
use ifdb_value::{Principal, Shared, Value};
use std::alloc::Global;

/// The record of a public change, which is read again as it: who asked for it, and the line. Takes the line's length and 16 bytes at most.
#[tactic(auto, using(crate::proofs::Again::change_again))]
pub fn change_text(alloc: Global, asker: Principal, line: &[u8]) -> Result<Vec<u8>, OutOfMemory>
    ensures text { IfOk result (λ text. text.items ≡ spell.text (redo.Change asker line.now)) }
    ensures again { IfOk result (λ text. record_of text.items ≡ Some (redo.Change asker line.now)) }
{
    let mut body = Vec::new(alloc);
    put_change(&mut body, asker, line)?;
    sealed(body)
}

/// The record of a commit, which is read again as its writes. Takes memory and time for its bytes alone.
#[tactic(auto, using(crate::proofs::Again::commit_again))]
pub fn commit_text(alloc: Global, writes: &Writes) -> Result<Vec<u8>, OutOfMemory>
    ensures text { IfOk result (λ text. text.items ≡ spell.text (redo.Commit writes.now)) }
    ensures again { IfOk result (λ text. record_of text.items ≡ Some (redo.Commit writes.now)) }
{
    let mut body = Vec::new(alloc);
    put_commit(&mut body, writes.items())?;
    sealed(body)
}

/// Bytes, and their checksum behind them.
fn sealed(mut bytes: Vec<u8>) -> Result<Vec<u8>, OutOfMemory>
    ensures { IfOk result (λ text. text.items ≡ spell.sealed bytes.items) }
{
    let sum = checksum(&bytes);
    bytes.extend_from_slice(&sum.to_be_bytes())?;
    Ok(bytes)
}

fn put_change(out: &mut Vec<u8>, asker: Principal, line: &[u8]) -> Result<(), OutOfMemory>
    ensures text { OnOk result
        (out.new.items ≡ out.old.items ++ spell.body (redo.Change asker line.now)) }
    ensures spelled { OnOk result (IsNumber asker) }
{
    out.push(1)?;
    put_number(out, asker.0)?;
    out.extend_from_slice(line)?;
    Ok(())
}

fn put_commit(out: &mut Vec<u8>, writes: &[Write]) -> Result<(), OutOfMemory>
    ensures text { OnOk result
        (out.new.items ≡ out.old.items ++ spell.body (redo.Commit writes.now)) }
    ensures spelled { OnOk result (AreWrites writes.now) }
{
    out.push(2)?;
    put_writes(out, writes)?;
    Ok(())
}

fn put_number(out: &mut Vec<u8>, number: u64) -> Result<(), OutOfMemory>
    ensures { OnOk result (out.new.items ≡ out.old.items ++ spell.number number) }
{
    if number < 254 {
        out.push(number as u8)?;
    } else if number < 4_294_967_296 {
        out.push(254)?;
        out.extend_from_slice(&(number as u32).to_be_bytes())?;
    } else {
        out.push(255)?;
        out.extend_from_slice(&number.to_be_bytes())?;
    }
    Ok(())
}

fn put_word(out: &mut Vec<u8>, text: &str) -> Result<(), OutOfMemory>
    ensures text { OnOk result (out.new.items ≡ out.old.items ++ spell.word text.now) }
    ensures spelled { OnOk result (IsWord text.now) }
{
    let bytes = text.as_bytes();
    put_number(out, bytes.len() as u64)?;
    out.extend_from_slice(bytes)?;
    Ok(())
}

fn put_value(out: &mut Vec<u8>, value: &Value) -> Result<(), OutOfMemory>
    ensures text { OnOk result (out.new.items ≡ out.old.items ++ spell.value value.now) }
    ensures spelled { OnOk result (IsValue value.now) }
{
    match value {
        Value::Null => out.push(0)?,
        Value::Int(number) => {
            out.push(1)?;
            put_number(out, number.cast_unsigned())?;
        }
        Value::Text(text) => {
            out.push(2)?;
            put_word(out, text.as_str())?;
        }
    }
    Ok(())
}

fn put_values(out: &mut Vec<u8>, values: &[Value]) -> Result<(), OutOfMemory>
    ensures text { OnOk result (out.new.items ≡ out.old.items ++ spell.list spell.value values.now) }
    ensures spelled { OnOk result (AreListed IsValue values.now) }
{
    put_number(out, values.len() as u64)?;
    for value in values {
        put_value(out, value)?;
    }
    Ok(())
}

fn put_tags(out: &mut Vec<u8>, tags: &[Tag]) -> Result<(), OutOfMemory>
    ensures text { OnOk result (out.new.items ≡ out.old.items ++ spell.list spell.number tags.now) }
    ensures spelled { OnOk result (AreListed IsNumber tags.now) }
{
    put_number(out, tags.len() as u64)?;
    for tag in tags {
        put_tag(out, *tag)?;
    }
    Ok(())
}

fn put_tag(out: &mut Vec<u8>, tag: Tag) -> Result<(), OutOfMemory>
    ensures text { OnOk result (out.new.items ≡ out.old.items ++ spell.number tag) }
    ensures spelled { OnOk result (IsNumber tag) }
{
    put_number(out, tag.0)
}

fn put_slot(out: &mut Vec<u8>, slot: &Slot) -> Result<(), OutOfMemory>
    ensures text { OnOk result (out.new.items ≡ out.old.items ++ spell.slot slot.now) }
    ensures spelled { OnOk result (IsSlot slot.now) }
{
    put_number(out, slot.table.0)?;
    put_values(out, slot.key.items())?;
    put_tags(out, slot.label.tags())?;
    Ok(())
}

fn put_slots(out: &mut Vec<u8>, slots: &[Slot]) -> Result<(), OutOfMemory>
    ensures text { OnOk result (out.new.items ≡ out.old.items ++ spell.list spell.slot slots.now) }
    ensures spelled { OnOk result (AreListed IsSlot slots.now) }
{
    put_number(out, slots.len() as u64)?;
    for slot in slots {
        put_slot(out, slot)?;
    }
    Ok(())
}

fn put_filling(out: &mut Vec<u8>, row: &Option<Shared<Row>>) -> Result<(), OutOfMemory>
    ensures text { OnOk result (out.new.items ≡ out.old.items ++ spell.filling row.now) }
    ensures spelled { OnOk result (IsFilling row.now) }
{
    match row {
        None => out.push(0)?,
        Some(row) => {
            let row = row.get();
            out.push(1)?;
            put_values(out, row.values.items())?;
            put_slots(out, row.refs.items())?;
        }
    }
    Ok(())
}

fn put_write(out: &mut Vec<u8>, write: &Write) -> Result<(), OutOfMemory>
    ensures text { OnOk result (out.new.items ≡ out.old.items ++ spell.write write.now) }
    ensures spelled { OnOk result (IsWrite write.now) }
{
    put_slot(out, &write.slot)?;
    put_filling(out, &write.row)?;
    Ok(())
}

fn put_writes(out: &mut Vec<u8>, writes: &[Write]) -> Result<(), OutOfMemory>
    ensures text { OnOk result (out.new.items ≡ out.old.items ++ spell.writes writes.now) }
    ensures spelled { OnOk result (AreWrites writes.now) }
{
    put_number(out, writes.len() as u64)?;
    for write in writes {
        put_write(out, write)?;
    }
    Ok(())
}
