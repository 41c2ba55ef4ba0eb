//! What DELETEs write, also of rows that nothing matches.
use super::comparisons::Comes::{Refused, Writes};
use super::comparisons::Wrote::Gone;
use super::comparisons::{Case, all_come};
use super::rows::At::{High, Low};
use super::rows::Which::{Note, Visit};
use super::statements::Does::Delete;
use super::statements::Where::{All, Id, NumberAbove};
use ifdb_wire::Fault;
use std::test::Fail;

static CASES: [Case; 4] = [
    Case(Note, Low, Low, Delete(Id(4)), Writes(1, &[Gone(4)])),
    Case(Note, Low, Low, Delete(Id(9)), Writes(0, &[])),
    Case(
        Note,
        High,
        Low,
        Delete(NumberAbove(8)),
        Refused(Fault::WriteLabel),
    ),
    Case(
        Visit,
        Low,
        Low,
        Delete(All),
        Writes(3, &[Gone(10), Gone(12), Gone(13)]),
    ),
];

#[test]
fn rows_are_deleted_or_refused(rt: HostRuntime) -> Result<(), Fail> {
    all_come(&rt, rt.alloc(), &CASES)
}
