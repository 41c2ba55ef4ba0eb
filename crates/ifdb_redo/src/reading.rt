// Any bytes, read as a record.
ghost use Rattle.std.specs.Prelude.{◌≡◌, ◌&&◌, nat_lt, true, IfOk, IsTrue, Some, None};
ghost use Rattle.std.specs.Int.{w32, w64};
ghost use Rattle.ifdb_label.specs.Label.{is_rising};
ghost use Rattle.ifdb_row.specs.Writes.{are_fitting, are_rising, is_fitting};
ghost use Rattle.ifdb_redo.specs.Reading.{Gives, record_of, said, writes_of, wide_at, number_at, word_at, value_at, items_at, list_at, label_at, slot_at, row_at, filling_at, write_at};

use crate::crc::checksum;
use crate::fault::ReadFault;
use crate::record::RedoRecord;
use ifdb_label::{Label, Tag};
use ifdb_row::{Refs, Row, Slot, Values, Write, Writes};
use ifdb_value::{Principal, Sequence, Shared, TableId, Value, Word};
use std::alloc::Global;

/// Reads a record: exactly what `change_text` and `commit_text` make of records, and other forms of the same that have their checksum.
/// Takes memory for the record, whatever counts the bytes claim, and time for the bytes.
///
/// # Errors
/// `Broken` exactly where the bytes are no record.
#[tactic(auto, unfolding(crate::specs::Reading::record_of))]
pub fn read_record(alloc: Global, bytes: &[u8]) -> Result<RedoRecord, ReadFault>
    ensures { Gives (λ r. r) result (record_of bytes.now) }
{
    let (body, sum) = bytes.split_at(bytes.len().saturating_sub(4));
    if sum != checksum(body).to_be_bytes().as_slice() {
        return Err(ReadFault::Broken);
    }
    read_body(alloc, body)
}

/// What a record says.
#[tactic(auto, unfolding(crate::specs::Reading::said))]
fn read_body(alloc: Global, bytes: &[u8]) -> Result<RedoRecord, ReadFault>
    ensures { Gives (λ r. r) result (said bytes.now) }
{
    match bytes {
        [1, rest @ ..] => {
            let (asker, line) = number_at(rest)?;
            let line = Sequence::from_vec(line.to_vec(alloc)?);
            Ok(RedoRecord::Change {
                asker: Principal(asker),
                line,
            })
        }
        [2, rest @ ..] => Ok(RedoRecord::Commit(read_writes(alloc, rest)?)),
        _ => Err(ReadFault::Broken),
    }
}

/// All of the bytes, as the writes of a commit.
#[tactic(auto, unfolding(crate::specs::Reading::writes_of, crate::specs::Reading::list_at))]
fn read_writes(alloc: Global, bytes: &[u8]) -> Result<Writes, ReadFault>
    ensures { Gives (λ writes. writes) result (writes_of bytes.now) }
{
    let (count, rest) = number_at(bytes)?;
    let (writes, rest) = write_items(alloc, count, rest)?;
    if !rest.is_empty() || !slots_rise(&writes) {
        return Err(ReadFault::Broken);
    }
    Ok(Writes::from_vec(writes))
}

/// Whether each write's slot stands before that of the next.
fn slots_rise(writes: &[Write]) -> bool
    ensures { result ≡ are_rising writes.now }
{
    for i in 1..writes.len() {
        let before = &writes[i - 1];
        let write = &writes[i];
        if !before.slot.is_before(&write.slot) {
            return false;
        }
    }
    true
}

/// Four bytes as a number.
fn middle_at(bytes: &[u8]) -> Result<(u64, &[u8]), ReadFault>
    ensures { Gives (λ x. (x.0, x.1.now)) result (wide_at w32 bytes.now) }
{
    if bytes.len() < 4 {
        return Err(ReadFault::Broken);
    }
    let (front, rest) = bytes.split_at(4);
    let number = u32::from_be_bytes([front[0], front[1], front[2], front[3]]);
    Ok((u64::from(number), rest))
}

/// Eight bytes as a number.
fn wide_at(bytes: &[u8]) -> Result<(u64, &[u8]), ReadFault>
    ensures { Gives (λ x. (x.0, x.1.now)) result (wide_at w64 bytes.now) }
{
    if bytes.len() < 8 {
        return Err(ReadFault::Broken);
    }
    let (front, rest) = bytes.split_at(8);
    let number = u64::from_be_bytes([
        front[0], front[1], front[2], front[3], front[4], front[5], front[6], front[7],
    ]);
    Ok((number, rest))
}

/// A number.
#[tactic(auto, unfolding(crate::specs::Reading::number_at))]
fn number_at(bytes: &[u8]) -> Result<(u64, &[u8]), ReadFault>
    ensures { Gives (λ x. (x.0, x.1.now)) result (number_at bytes.now) }
{
    match bytes {
        [] => Err(ReadFault::Broken),
        [255, rest @ ..] => wide_at(rest),
        [254, rest @ ..] => middle_at(rest),
        [byte, rest @ ..] => Ok((u64::from(*byte), rest)),
    }
}

/// A text.
#[tactic(auto, using(crate::proofs::Texts::is_text, crate::proofs::Texts::no_text), unfolding(crate::specs::Reading::word_at))]
fn word_at(alloc: Global, bytes: &[u8]) -> Result<(Word, &[u8]), ReadFault>
    ensures { Gives (λ x. (x.0, x.1.now)) result (word_at bytes.now) }
{
    let (size, rest) = number_at(bytes)?;
    if (rest.len() as u64) < size {
        return Err(ReadFault::Broken);
    }
    let (text, rest) = rest.split_at(size as usize);
    let Ok(text) = str::from_utf8(text) else {
        return Err(ReadFault::Broken);
    };
    let word = Word::of(alloc, text)?;
    Ok((word, rest))
}

/// A value.
#[tactic(auto, unfolding(crate::specs::Reading::value_at))]
fn value_at(alloc: Global, bytes: &[u8]) -> Result<(Value, &[u8]), ReadFault>
    ensures { Gives (λ x. (x.0, x.1.now)) result (value_at bytes.now) }
{
    match bytes {
        [] => Err(ReadFault::Broken),
        [0, rest @ ..] => Ok((Value::Null, rest)),
        [1, rest @ ..] => {
            let (number, rest) = number_at(rest)?;
            Ok((Value::Int(number.cast_signed()), rest))
        }
        [2, rest @ ..] => {
            let (text, rest) = word_at(alloc, rest)?;
            Ok((Value::Text(text), rest))
        }
        [_, ..] => Err(ReadFault::Broken),
    }
}

/// So many values.
#[tactic(auto, unfolding(crate::specs::Reading::list_at))]
fn values_at(alloc: Global, bytes: &[u8]) -> Result<(Values, &[u8]), ReadFault>
    ensures { Gives (λ x. (x.0, x.1.now)) result (list_at value_at bytes.now) }
{
    let (count, rest) = number_at(bytes)?;
    let (values, rest) = value_items(alloc, count, rest)?;
    Ok((Values::from_vec(values), rest))
}

fn value_items(alloc: Global, count: u64, bytes: &[u8]) -> Result<(Vec<Value>, &[u8]), ReadFault>
    ensures { Gives (λ x. (x.0.items, x.1.now)) result (items_at value_at count bytes.now) }
{
    let mut values = Vec::new(alloc);
    let mut rest = bytes;
    for _ in 0..count {
        let (value, after) = value_at(alloc, rest)?;
        values.push(value)?;
        rest = after;
    }
    Ok((values, rest))
}

/// So many tags, which rise.
#[tactic(auto, unfolding(crate::specs::Reading::label_at, crate::specs::Reading::list_at))]
fn label_at(alloc: Global, bytes: &[u8]) -> Result<(Label, &[u8]), ReadFault>
    ensures { Gives (λ x. (x.0, x.1.now)) result (label_at bytes.now) }
{
    let (count, rest) = number_at(bytes)?;
    let (tags, rest) = tag_items(alloc, count, rest)?;
    if !tags_rise(&tags) {
        return Err(ReadFault::Broken);
    }
    Ok((Label::of(alloc, tags)?, rest))
}

fn tag_items(alloc: Global, count: u64, bytes: &[u8]) -> Result<(Vec<Tag>, &[u8]), ReadFault>
    ensures { Gives (λ x. (x.0.items, x.1.now)) result (items_at number_at count bytes.now) }
{
    let mut tags = Vec::new(alloc);
    let mut rest = bytes;
    for _ in 0..count {
        let (tag, after) = number_at(rest)?;
        tags.push(Tag(tag))?;
        rest = after;
    }
    Ok((tags, rest))
}

/// Whether each tag is greater than the one before it.
fn tags_rise(tags: &[Tag]) -> bool
    ensures { result ≡ is_rising tags.now }
{
    for i in 1..tags.len() {
        let before = tags[i - 1];
        let tag = tags[i];
        if !is_above(before, tag) {
            return false;
        }
    }
    true
}

/// Whether a tag is greater than another.
fn is_above(before: Tag, tag: Tag) -> bool
    ensures { result ≡ nat_lt before tag }
{
    before.0 < tag.0
}

/// A slot.
#[tactic(auto, unfolding(crate::specs::Reading::slot_at))]
fn slot_at(alloc: Global, bytes: &[u8]) -> Result<(Slot, &[u8]), ReadFault>
    ensures { Gives (λ x. (x.0, x.1.now)) result (slot_at bytes.now) }
{
    let (table, rest) = number_at(bytes)?;
    let (key, rest) = values_at(alloc, rest)?;
    let (label, rest) = label_at(alloc, rest)?;
    let slot = Slot {
        table: TableId(table),
        key,
        label,
    };
    Ok((slot, rest))
}

/// So many slots.
#[tactic(auto, unfolding(crate::specs::Reading::list_at))]
fn refs_at(alloc: Global, bytes: &[u8]) -> Result<(Refs, &[u8]), ReadFault>
    ensures { Gives (λ x. (x.0, x.1.now)) result (list_at slot_at bytes.now) }
{
    let (count, rest) = number_at(bytes)?;
    let (slots, rest) = slot_items(alloc, count, rest)?;
    Ok((Refs::from_vec(alloc, slots)?, rest))
}

fn slot_items(alloc: Global, count: u64, bytes: &[u8]) -> Result<(Vec<Slot>, &[u8]), ReadFault>
    ensures { Gives (λ x. (x.0.items, x.1.now)) result (items_at slot_at count bytes.now) }
{
    let mut slots = Vec::new(alloc);
    let mut rest = bytes;
    for _ in 0..count {
        let (slot, after) = slot_at(alloc, rest)?;
        slots.push(slot)?;
        rest = after;
    }
    Ok((slots, rest))
}

/// What is to stand in a slot, if anything is.
#[tactic(auto, using(ifdb_row::proofs::SlotOrder::slot_itself), unfolding(crate::specs::Reading::filling_at))]
fn filling_at<'a>(
    alloc: Global,
    slot: &Slot,
    bytes: &'a [u8],
) -> Result<(Option<Shared<Row>>, &'a [u8]), ReadFault>
    ensures read { Gives (λ x. (x.0, x.1.now)) result (filling_at slot.now bytes.entry.now) }
    ensures fitting { IfOk result (λ x. IsTrue (is_fitting slot.now x.0)) }
{
    match bytes {
        [] => Err(ReadFault::Broken),
        [0, rest @ ..] => Ok((None, rest)),
        [1, rest @ ..] => {
            let (row, rest) = row_at(alloc, slot, rest)?;
            Ok((Some(row), rest))
        }
        [_, ..] => Err(ReadFault::Broken),
    }
}

/// A row of a slot.
#[tactic(auto, unfolding(crate::specs::Reading::row_at))]
fn row_at<'a>(
    alloc: Global,
    slot: &Slot,
    bytes: &'a [u8],
) -> Result<(Shared<Row>, &'a [u8]), ReadFault>
    ensures read { Gives (λ x. (x.0, x.1.now)) result (row_at slot.now bytes.entry.now) }
    ensures slot { IfOk result (λ x. x.0.slot ≡ slot.now) }
{
    let (values, rest) = values_at(alloc, bytes)?;
    let (refs, rest) = refs_at(alloc, rest)?;
    let slot = slot.copy(alloc)?;
    let row = Shared::new(alloc, Row { slot, values, refs })?;
    Ok((row, rest))
}

/// A write.
#[tactic(auto, unfolding(crate::specs::Reading::write_at))]
fn write_at(alloc: Global, bytes: &[u8]) -> Result<(Write, &[u8]), ReadFault>
    ensures read { Gives (λ x. (x.0, x.1.now)) result (write_at bytes.now) }
    ensures fitting { IfOk result (λ x. IsTrue (is_fitting x.0.slot x.0.row)) }
{
    let (slot, rest) = slot_at(alloc, bytes)?;
    let (row, rest) = filling_at(alloc, &slot, rest)?;
    Ok((Write { slot, row }, rest))
}

fn write_items(alloc: Global, count: u64, bytes: &[u8]) -> Result<(Vec<Write>, &[u8]), ReadFault>
    ensures read { Gives (λ x. (x.0.items, x.1.now)) result (items_at write_at count bytes.now) }
    ensures fitting { IfOk result (λ x. IsTrue (are_fitting x.0.items)) }
{
    let mut writes = Vec::new(alloc);
    let mut rest = bytes;
    for _ in 0..count {
        let (write, after) = write_at(alloc, rest)?;
        writes.push(write)?;
        rest = after;
    }
    Ok((writes, rest))
}
