// Rows in the order of ORDER BY.
ghost use Rattle.std.specs.Prelude.{◌≡◌, IfOk};
ghost use Rattle.ifdb_bound.specs.Query.{key_cmp, order_cmp, sorted_by};

use ifdb_bound::OrderKey;
use ifdb_expr::compare_at;
use ifdb_value::{Sequence, Value, ValueRow};
use std::alloc::AllocError;
use std::cmp::Ordering;

/// The rows by the keys; rows that these leave equal keep their order. Takes n log n comparisons of rows.
pub fn sorted(keys: &[OrderKey], rows: Sequence<ValueRow>) -> Result<Sequence<ValueRow>, AllocError>
    ensures { IfOk result (λ out. out ≡ sorted_by keys.now rows) }
{
    Ok(Sequence::from_vec(sorted_rows(keys, rows.into_vec())?))
}

/// The rows by the keys, as `sorted` has them.
fn sorted_rows(keys: &[OrderKey], rows: Vec<ValueRow>) -> Result<Vec<ValueRow>, AllocError>
    ensures { IfOk result (λ out. out.items ≡ sorted_by keys.now rows.items) }
{
    let mut rows = rows;
    rows.sort_by(|a, b| compare(keys, a.items(), b.items()))?;
    Ok(rows)
}

/// The order of two rows by the first key, then by the next ones.
fn compare(keys: &[OrderKey], a: &[Value], b: &[Value]) -> Ordering
    ensures { result ≡ order_cmp keys.now a.now b.now }
{
    let [key, others @ ..] = keys else {
        return Ordering::Equal;
    };
    match compare_by(*key, a, b) {
        Ordering::Equal => compare(others, a, b),
        order => order,
    }
}

/// The order of two rows by one key.
fn compare_by(key: OrderKey, a: &[Value], b: &[Value]) -> Ordering
    ensures { result ≡ key_cmp key a.now b.now }
{
    if key.descending {
        compare_at(key.place, b, a)
    } else {
        compare_at(key.place, a, b)
    }
}
