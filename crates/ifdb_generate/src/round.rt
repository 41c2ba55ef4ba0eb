// A round of the script: a label, an INSERT, and in each fourth one a SELECT.
ghost use Rattle.std.specs.Prelude.{◌≡◌, ◌+◌, ◌≤◌, ◌++◌, decimal, length};
ghost use Rattle.ifdb_generate.specs.Script.{counts, inserts, relabels, round_of};

use crate::size::Size;
use arrayvec::ArrayString;
use itoa::Buffer;

/// More bytes than a round has.
const ROOM: usize = 256;

/// The lines of a round, by what was drawn for it. They lie in the value itself.
pub(crate) fn round(size: Size, turn: u64, draw: u64) -> ArrayString<ROOM>
    ensures { result.bytes ≡ round_of size turn draw }
{
    let session = 1 + turn % 4;
    let mut lines = ArrayString::new();
    put_label(&mut lines, session, draw / 8 % 4);
    put_insert(
        &mut lines,
        session,
        draw % (2 * size.inserts()),
        draw % 1000,
    );
    put_count(&mut lines, session, turn);
    lines
}

/// SET LABEL to one tag.
fn put_label(lines: &mut ArrayString<ROOM>, session: u64, tag: u64)
    requires room { length lines.old.bytes + 56 ≤ 256 }
    ensures bytes { lines.new.bytes ≡ lines.old.bytes ++ relabels session tag }
    ensures grew { length lines.new.bytes ≤ length lines.old.bytes + 56 }
{
    put_number(lines, session);
    lines.push_str(" SET LABEL (t");
    put_number(lines, tag);
    lines.push_str(")\n");
}

/// INSERT of one row.
fn put_insert(lines: &mut ArrayString<ROOM>, session: u64, id: u64, quantity: u64)
    requires room { length lines.old.bytes + 90 ≤ 256 }
    ensures bytes { lines.new.bytes ≡ lines.old.bytes ++ inserts session id quantity }
    ensures grew { length lines.new.bytes ≤ length lines.old.bytes + 90 }
{
    put_number(lines, session);
    lines.push_str(" INSERT INTO item VALUES (");
    put_number(lines, id);
    lines.push_str(", ");
    put_number(lines, quantity);
    lines.push_str(")\n");
}

/// SELECT, in each fourth round.
fn put_count(lines: &mut ArrayString<ROOM>, session: u64, turn: u64)
    requires room { length lines.old.bytes + 64 ≤ 256 }
    ensures bytes { lines.new.bytes ≡ lines.old.bytes ++ counts session turn }
{
    if turn % 4 == 0 {
        put_number(lines, session);
        lines.push_str(" SELECT COUNT(*) FROM item WHERE qty < 500\n");
    }
}

/// A number, which has at most 20 digits.
fn put_number(lines: &mut ArrayString<ROOM>, number: u64)
    requires room { length lines.old.bytes + 20 ≤ 256 }
    ensures bytes { lines.new.bytes ≡ lines.old.bytes ++ decimal number }
    ensures grew { length lines.new.bytes ≤ length lines.old.bytes + 20 }
{
    let mut buffer = Buffer::new();
    lines.push_str(buffer.format(number));
}
