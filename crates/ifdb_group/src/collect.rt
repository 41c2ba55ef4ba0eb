// Lists of values of which one may be out of range.
ghost use Rattle.std.specs.Prelude.{map, Option};
ghost use Rattle.std.specs.Fn.{FnReturnsAt};
ghost use Rattle.ifdb_bound.specs.Query.{all_some};
ghost use Rattle.ifdb_expr.specs.Tells.{Tells};

use ifdb_expr::ExprFault;
use ifdb_value::Sequence;
use std::alloc::Global;

/// What each item gives, in order; out of range where one of them is.
pub(crate) fn collected<X, T: Drop, F: Fn(&X) -> Result<T, ExprFault>>(
    alloc: Global,
    items: &[X],
    give: F,
) -> Result<Sequence<T>, ExprFault>
    requires { F.IsAlwaysCallable give }
    ensures { (gives : X → Option T) → ((x : X) (r : _) → FnReturnsAt F.Fn give x r
        → Tells (gives x) r) → Tells (all_some (map gives items.now)) result }
{
    let mut all = Sequence::with_capacity(alloc, items.len())?;
    for item in items {
        match give(item) {
            Ok(value) => all.push(value)?,
            Err(fault) => return Err(fault),
        }
    }
    Ok(all)
}
