// A record as bytes.
ghost use Rattle.std.specs.Prelude.{◌≡◌, ◌≤◌, ◌+◌, ◌++◌, ◌∷◌, [], length, vec_len, vec_capacity};
ghost use Rattle.ifdb_journal.specs.Records.{body};
ghost use Rattle.ifdb_journal.specs.Kinds.{is_fine, kind_byte, kind_of};

use crate::RecordKind;

// Adds what stands behind the gate of a record, and a closed gate.
pub(crate) fn spell(text: &mut Vec<u8>, kind: RecordKind, session: u64, line: &[u8])
    requires room { vec_len text.old + (14 + length line.now) ≤ vec_capacity text.old }
    requires short { length line.now ≤ 65535 }
    ensures items { text.new.items ≡ text.old.items
        ++ (body (record { kind = kind; session = session; line = line.now }) ++ 0 ∷ []) }
    ensures len { vec_len text.new ≡ vec_len text.old + (14 + length line.now) }
    ensures room { vec_capacity text.old ≤ vec_capacity text.new }
{
    add(text, &[byte_of(kind)]);
    add(text, &session.to_be_bytes());
    add(text, &(line.len() as u32).to_be_bytes());
    add(text, line);
    add(text, &[0]);
}

fn byte_of(kind: RecordKind) -> u8
    ensures { result ≡ kind_byte kind }
{
    match kind {
        RecordKind::Open => 1,
        RecordKind::Ask => 2,
        RecordKind::Restart => 3,
    }
}

// Adds bytes for which there is room.
pub(crate) fn add(all: &mut Vec<u8>, bytes: &[u8])
    requires { vec_len all.old + length bytes.now ≤ vec_capacity all.old }
    ensures items { all.new.items ≡ all.old.items ++ bytes.now }
    ensures len { vec_len all.new ≡ vec_len all.old + length bytes.now }
    ensures room { vec_capacity all.old ≤ vec_capacity all.new }
{
    let _ = all.extend_from_slice(bytes);
}

// Whether a kind may stand with a session and a line of so many bytes.
pub(crate) fn may_stand(kind: u8, session: u64, size: usize) -> bool
    ensures { result ≡ is_fine kind session size }
{
    if kind == 2 {
        return size <= 65535;
    }
    (kind == 1 || kind == 3) && session == 0 && size == 0
}

pub(crate) fn kind_from(byte: u8) -> RecordKind
    ensures { result ≡ kind_of byte }
{
    match byte {
        1 => RecordKind::Open,
        2 => RecordKind::Ask,
        _ => RecordKind::Restart,
    }
}
