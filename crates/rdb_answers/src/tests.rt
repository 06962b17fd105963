//! Clients of a region without a cell: what their calls answer.

ghost use Rattle.std.specs.Bool.{OnTrue};
ghost use Rattle.rdb_transactions.specs.Sound.{Has};
ghost use Rattle.rdb_answers.specs.Callers.{IsIdle};

use crate::{Answer, Outcome, begin, condemn, disconnect};
use rdb_base::identity::{ConnId, Kind, Manager, Phase};
use rdb_cells::Undo;
use rdb_transactions::Transactions;
use std::test::Fail;

// Whether a connection is idle.
fn is_idle(t: &Transactions, c: ConnId) -> bool
    ensures { OnTrue result (Has t.now c IsIdle) }
{
    match t.registry.seat(c) {
        Some(seat) => seat.hand.phase == Phase::Idle,
        None => false,
    }
}

#[test]
fn a_writer_keeps_others_out(rt: HostRuntime) -> Result<(), Fail> {
    let alloc = rt.alloc();
    let spare = Undo::reserve(alloc, 64)?;
    let mut t = Transactions::new(alloc, Manager::Mursiw, 1, spare)?;
    let writer = t.connect()?;
    let reader = t.connect()?;
    assert!(rt; is_idle(&t, writer));
    match begin(&mut t, writer, Kind::ReadWrite) {
        Answer::Ready(Outcome::Begun { snapshot, begun }) => assert!(rt;
            snapshot == 0 && begun == 0
        ),
        _ => assert!(rt; false),
    }
    assert!(rt; is_idle(&t, reader));
    match begin(&mut t, reader, Kind::ReadOnly) {
        Answer::Busy { holder } => assert!(rt; holder == writer),
        _ => assert!(rt; false),
    }
    assert!(rt;
        matches!(
            condemn(&mut t, writer, reader),
            Answer::Ready(Outcome::RolledBack)
        )
    );
    assert!(rt; is_idle(&t, reader));
    match disconnect(&mut t, reader) {
        Answer::Gone { by, at } => assert!(rt; by == writer && at == 0),
        _ => assert!(rt; false),
    }
    Ok(())
}
