//! Connections of a region without a cell: what their moves leave in the records and in the journal.

ghost use Rattle.std.specs.Prelude.{◌≡◌};
ghost use Rattle.std.specs.Bool.{OnTrue};
ghost use Rattle.rdb_transactions.specs.Sound.{Has};

use crate::Transactions;
use rdb_base::identity::{ConnId, EventPlace, Kind, Manager, Phase};
use rdb_base::journal::Entry;
use rdb_base::operation::{Op, Reply};
use rdb_cells::Undo;
use rdb_registry::Subscription;
use std::test::Fail;

// Whether a connection is in a phase.
fn is_in(t: &Transactions, c: ConnId, phase: Phase) -> bool
    ensures { OnTrue result (Has t.now c (λ seat. seat.hand.phase ≡ phase)) }
{
    match t.registry.seat(c) {
        Some(seat) => seat.hand.phase == phase,
        None => false,
    }
}

#[test]
fn a_reader_ends_with_what_it_was_told(rt: HostRuntime) -> Result<(), Fail> {
    let alloc = rt.alloc();
    let mut t = Transactions::new(alloc, Manager::Mvcc, 1, Undo::empty(alloc))?;
    let c = t.connect()?;
    assert!(rt; is_in(&t, c, Phase::Idle));
    let place = EventPlace { commit: 0, id: 0 };
    t.add_watch(
        c,
        Subscription {
            class: 0,
            event: 1,
            place,
        },
    )?;
    assert!(rt; is_in(&t, c, Phase::Idle));
    t.open_transaction(c, Kind::ReadOnly)?;
    assert!(rt; is_in(&t, c, Phase::Running(Kind::ReadOnly)));
    t.note(c, Op::Get { class: 0, id: 7 }, Reply::NotFound)?;
    assert!(rt; is_in(&t, c, Phase::Running(Kind::ReadOnly)));
    assert_eq!(rt; t.end_read(c), 0);
    assert!(rt; is_in(&t, c, Phase::Idle));
    t.close(c);
    assert!(rt; !t.registry.is_held(c));
    match t.journal.as_slice() {
        [Entry::Read { story }, Entry::Closed { client }] => {
            assert_eq!(rt; story.number, 1);
            assert_eq!(rt; story.done.len(), 1);
            assert_eq!(rt; *client, c.slot);
        }
        _ => assert!(rt; false),
    }
    Ok(())
}
