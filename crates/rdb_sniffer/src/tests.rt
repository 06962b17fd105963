//! The next step of a repair, for a table of records.

use crate::{Thing, next_thing};
use rdb_base::identity::{ConnId, Kind, Phase};
use rdb_base::list::{List, NoMemory};
use rdb_base::operation::Op;
use rdb_base::ready::Ready;
use rdb_cells::{Pair, Plan, Undo};
use rdb_pages::{Cell, CellRef};
use rdb_registry::{Hand, OwnWrites, Seat, Transaction, Work};
use std::alloc::Global;
use std::test::Fail;

// What is open in a record.
#[derive(Clone, Copy)]
struct Row {
    mark: Option<u64>,
    left: bool,
    plan: bool,
    work: bool,
    undo: bool,
    latches: u64,
    thing: Thing,
}

const PAIR: Pair = Pair {
    at: CellRef { number: 1 },
    cell: Cell::ZERO,
};

// A record in which this is open.
fn seat_of(alloc: Global, row: &Row) -> Result<Seat, NoMemory> {
    let mut plan = Plan::reserve(alloc, 1)?;
    if row.plan {
        plan.put(PAIR);
    }
    let mut undo = Undo::reserve(alloc, 1)?;
    if row.undo {
        undo.push(PAIR);
    }
    let work = if row.work {
        Some(Work {
            op: Op::Del { class: 0, id: 1 },
            bytes: List::new(alloc),
            puts: None,
        })
    } else {
        None
    };
    Ok(Seat {
        conn: ConnId { slot: 0, serial: 1 },
        begun: 1,
        transaction: Some(Transaction {
            number: 1,
            kind: Kind::ReadWrite,
            begun: 0,
            snapshot: 0,
            mark: row.mark,
        }),
        latches: row.latches,
        condemned: None,
        hand: Hand {
            phase: Phase::Writing,
            cause: None,
            undo,
            work,
            plan,
            done: Ready::new(alloc),
            own: OwnWrites::new(alloc),
            subscriptions: List::new(alloc),
        },
    })
}

// A row of the table.
fn record_with(
    mark: Option<u64>,
    left: bool,
    plan: bool,
    work: bool,
    undo: bool,
    latches: u64,
    thing: Thing,
) -> Row {
    Row {
        mark,
        left,
        plan,
        work,
        undo,
        latches,
        thing,
    }
}

#[test]
fn each_record_has_its_next_step(rt: HostRuntime) -> Result<(), Fail> {
    let rows = [
        record_with(Some(5), true, false, false, false, 0, Thing::Stamp),
        record_with(Some(5), true, true, false, true, 1, Thing::Stamp),
        record_with(Some(5), false, false, false, false, 0, Thing::Close),
        record_with(None, true, true, false, true, 2, Thing::GoOn),
        record_with(None, true, true, true, true, 2, Thing::TakeBack),
        record_with(None, false, false, false, true, 2, Thing::TakeBack),
        record_with(None, true, true, true, false, 2, Thing::Release),
        record_with(None, true, false, false, false, 2, Thing::Release),
        record_with(None, true, false, false, false, 0, Thing::PlanDrop),
        record_with(None, false, false, false, false, 0, Thing::Close),
    ];
    for row in &rows {
        let seat = seat_of(rt.alloc(), row)?;
        assert_eq!(rt; next_thing(&seat, row.left), row.thing);
    }
    Ok(())
}
