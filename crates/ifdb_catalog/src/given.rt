// Whether values are given, which NULL isn't.
ghost use Rattle.std.specs.Prelude.{◌≡◌};
ghost use Rattle.ifdb_value.specs.Value.{is_null};
ghost use Rattle.ifdb_bound.specs.Expressions.{value_at};
ghost use Rattle.ifdb_catalog.specs.Statements.{are_given, values_at};

use ifdb_value::Value;

/// Whether none of the values at some places is NULL. Takes no memory.
pub fn are_given(values: &[Value], places: &[usize]) -> bool
    ensures { result ≡ are_given (values_at values.now places.now) }
{
    for place in places {
        if is_null_at(values, *place) {
            return false;
        }
    }
    true
}

/// Whether the value at a place is NULL; where there is none it isn't.
fn is_null_at(values: &[Value], place: usize) -> bool
    ensures { result ≡ is_null (value_at values.now place) }
{
    match values.get(place) {
        Some(value) => value.is_null(),
        None => false,
    }
}
