// What a column's name may mean.
ghost use Rattle.std.specs.Prelude.{◌≡◌, ◌+◌, ◌^◌, ◌<◌, [], length, map};
ghost use Rattle.ifdb_select.specs.Meaning.{columns_called, meaning, only, with_more};

use crate::named::Named;
use ifdb_bound::BoundColumn;
use ifdb_value::Name;

/// How many columns a name may mean: it stands for a column only where that is the one.
#[derive(Clone, Copy)]
pub(crate) enum Meaning {
    /// None.
    Nothing,
    /// This one.
    One(BoundColumn),
    /// Two or more.
    Several,
}

impl Meaning {
    /// What it may mean where there are more columns that it may mean.
    pub(crate) fn with(self, more: Meaning) -> Meaning
        ensures { result ≡ with_more self more }
    {
        match (self, more) {
            (Meaning::Nothing, _) => more,
            (_, Meaning::Nothing) => self,
            _ => Meaning::Several,
        }
    }

    /// The column that it stands for.
    pub(crate) fn only(self) -> Option<BoundColumn>
        ensures { result ≡ only self }
    {
        match self {
            Meaning::One(column) => Some(column),
            Meaning::Nothing | Meaning::Several => None,
        }
    }
}

/// What a name may mean among columns, the first of which is this one.
#[tactic(auto, using(crate::proofs::Meanings::meaning_behind))]
pub(crate) fn meaning_from<T: Named>(columns: &[T], name: &Name, first: BoundColumn) -> Meaning
    requires { first.column + length columns.now < 2 ^ 64 }
    ensures { result
        ≡ meaning (columns_called name.now first.source first.column (map T.called columns.now)) }
{
    match columns {
        [] => Meaning::Nothing,
        [column, rest @ ..] => {
            let next = BoundColumn {
                source: first.source,
                column: first.column + 1,
            };
            let behind = meaning_from(rest, name, next);
            if *column.name() == *name {
                Meaning::One(first).with(behind)
            } else {
                behind
            }
        }
    }
}
