// Room for more rows in the lists of a page.
ghost use Rattle.std.specs.Prelude.{◌≡◌, ◌≤◌, ◌∷◌, ◌++◌, drop, length, take, OnErr, OnOk};

use ifdb_row::OutOfMemory;
use ifdb_value::Sequence;
use std::alloc::Global;
use std::mem;

/// For how many rows more the lists of a page take room where they grow: a page that takes rows one by one grows twice until it
/// is full, and has room for 8 rows to spare on average.
pub(crate) const SPARE_ROWS: usize = 16;

/// Puts an item before the one at a place of a list with one item a row, or at the end. Where memory is refused, the list is as
/// before.
pub(crate) fn insert<T: Drop>(
    alloc: Global,
    list: &mut Sequence<T>,
    place: usize,
    item: T,
) -> Result<(), OutOfMemory>
    requires { place ≤ length list.old }
    ensures ok { OnOk result (list.new ≡ take place list.old ++ (item ∷ drop place list.old)) }
    ensures err { OnErr result (list.new ≡ list.old) }
{
    make_room(alloc, list, 1)?;
    list.insert(place, item)?;
    Ok(())
}

/// Puts the items of a row before the one at a place, or at the end. Where memory is refused, the list is as before.
pub(crate) fn insert_all<T: Drop>(
    alloc: Global,
    list: &mut Sequence<T>,
    place: usize,
    items: Vec<T>,
) -> Result<(), OutOfMemory>
    requires { place ≤ length list.old }
    ensures ok { OnOk result (list.new ≡ take place list.old ++ (items.items ++ drop place list.old)) }
    ensures err { OnErr result (list.new ≡ list.old) }
{
    make_room(alloc, list, items.len())?;
    list.insert_all(place, items)?;
    Ok(())
}

/// Takes room for spare rows of so many items each, where there is none for another row. Where memory is refused, the list is as
/// before.
fn make_room<T: Drop>(
    alloc: Global,
    list: &mut Sequence<T>,
    width: usize,
) -> Result<(), OutOfMemory>
    ensures { list.new ≡ list.old }
{
    let mut items = mem::replace(list, Sequence::new(alloc)).into_vec();
    let room = if items.capacity().saturating_sub(items.len()) < width {
        items.reserve_exact(width.saturating_mul(SPARE_ROWS))
    } else {
        Ok(())
    };
    *list = Sequence::from_vec(items);
    room?;
    Ok(())
}
