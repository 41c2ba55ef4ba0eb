//! What a clinic asks of its visits, some of which are a patient's secret.
use self::Asks::{ByDoctor, Count, Dear, Falling};
use super::requests::{column, compared, equal, item, select, two_items};
use super::tables::At::{Every, High, Low};
use super::tables::{Answered, At, One, Question, asked, gives};
use ifdb_bound::{BoundCond, BoundItem, BoundItems, BoundSelect, OrderKey, OrderKeys};
use ifdb_exec::Given;
use ifdb_row::OutOfMemory;
use ifdb_value::{Compare, Sequence, TableId};
use std::alloc::Global;
use std::process::Abort;
use std::test::Fail;

/// `visit (id, doctor, pence)` is table 0, and `doctor (id, room)` table 1.
static ROWS: [One; 6] = [
    One(0, [10, 2, 3000], Low),
    One(0, [11, 1, 2500], High),
    One(0, [12, 2, 2400], High),
    One(0, [13, 1, 9000], Low),
    One(1, [1, 7, 0], Low),
    One(1, [2, 8, 0], Low),
];

/// A request.
#[derive(Clone, Copy)]
enum Asks {
    /// `SELECT COUNT(*) FROM visit`.
    Count,
    /// `SELECT visit.id, LABEL OF visit, room FROM visit, doctor WHERE doctor = doctor.id AND pence >= 2500`.
    Dear,
    /// `SELECT doctor, COUNT(*), SUM(pence) FROM visit GROUP BY doctor ORDER BY 3 DESC`.
    ByDoctor,
    /// `SELECT doctor, visit.id FROM visit ORDER BY 1 DESC`.
    Falling,
}

/// A request, the label that it is asked at, and the numbers that it answers.
struct Case(Asks, At, &'static [i64]);

static CASES: [Case; 8] = [
    Case(Count, Low, &[2]),
    Case(Count, Every, &[4]),
    Case(Dear, Low, &[10, 2, 8, 13, 2, 7]),
    Case(Dear, High, &[10, 2, 8, 11, 3, 7, 13, 2, 7]),
    // Groups are ordered by their sums.
    Case(ByDoctor, Low, &[1, 1, 9000, 2, 1, 3000]),
    Case(ByDoctor, Every, &[1, 2, 11500, 2, 2, 5400]),
    // Ties stay in the order of their rows.
    Case(Falling, Low, &[2, 10, 1, 13]),
    Case(Falling, High, &[2, 10, 2, 12, 1, 11, 1, 13]),
];

#[test]
fn the_clinic_is_answered(rt: HostRuntime) -> Result<(), Fail> {
    for (place, case) in CASES.iter().enumerate() {
        comes(&rt, rt.alloc(), place, case)?;
    }
    Ok(())
}

/// Tests what a case answers.
fn comes(rt: &impl Abort, alloc: Global, place: usize, case: &Case) -> Result<(), Fail> {
    let Case(asks, at, want) = case;
    let request = request_of(alloc, *asks)?;
    let answered = answered_to(rt, alloc, &request, sources_of(*asks), *at)?;
    gives(rt, alloc, place, answered, want)
}

/// How many of the tables a request is over.
fn sources_of(asks: Asks) -> usize {
    match asks {
        Asks::Dear => 2,
        Asks::Count | Asks::ByDoctor | Asks::Falling => 1,
    }
}

/// What a request answers over so many of the tables.
fn answered_to(
    rt: &impl Abort,
    alloc: Global,
    request: &BoundSelect,
    count: usize,
    at: At,
) -> Result<Answered, Fail> {
    let tables = [Given::Table(TableId(0)), Given::Table(TableId(1))];
    let question = Question {
        rows: &ROWS,
        given: &tables[..count.min(2)],
        at,
        request,
    };
    asked(rt, alloc, question)
}

/// A request.
fn request_of(alloc: Global, asks: Asks) -> Result<BoundSelect, OutOfMemory> {
    match asks {
        Asks::Count => count(alloc),
        Asks::Dear => dear(alloc),
        Asks::ByDoctor => by_doctor(alloc),
        Asks::Falling => falling(alloc),
    }
}

/// How many visits there are.
fn count(alloc: Global) -> Result<BoundSelect, OutOfMemory> {
    let items = BoundItems::single(alloc, BoundItem::CountAll)?;
    Ok(select(alloc, items, None))
}

/// The visits of 2,500 pence at least, with their labels and their doctors' rooms.
fn dear(alloc: Global) -> Result<BoundSelect, OutOfMemory> {
    let mut items = two_items(alloc, item(0, 0), BoundItem::LabelOf(0))?;
    items.push(item(1, 1))?;
    let mut parts = Sequence::single(alloc, equal(column(0, 1), column(1, 0)))?;
    parts.push(compared(column(0, 2), Compare::AtLeast, 2500))?;
    Ok(select(alloc, items, Some(BoundCond::And(parts))))
}

/// How many visits each doctor has, and what they cost, the dearest first.
fn by_doctor(alloc: Global) -> Result<BoundSelect, OutOfMemory> {
    let mut items = two_items(alloc, item(0, 1), BoundItem::CountAll)?;
    items.push(BoundItem::Sum(column(0, 2)))?;
    Ok(BoundSelect {
        items,
        sources: Sequence::new(alloc),
        cond: None,
        group: Sequence::single(alloc, column(0, 1))?,
        order: falling_by(alloc, 2)?,
    })
}

/// The visits, those of the last doctor first.
fn falling(alloc: Global) -> Result<BoundSelect, OutOfMemory> {
    Ok(BoundSelect {
        items: two_items(alloc, item(0, 1), item(0, 0))?,
        sources: Sequence::new(alloc),
        cond: None,
        group: Sequence::new(alloc),
        order: falling_by(alloc, 0)?,
    })
}

/// The order by the item at a place, the greatest first.
fn falling_by(alloc: Global, place: usize) -> Result<OrderKeys, OutOfMemory> {
    let key = OrderKey {
        place,
        descending: true,
    };
    OrderKeys::single(alloc, key)
}
