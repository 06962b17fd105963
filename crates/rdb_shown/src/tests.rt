//! The laws on the versions of one object in small stories: what a plain walk over them shows, before and after each step.

use rdb_base::identity::{ConnId, Stamp, TxId};
use rdb_sight::{Sighted, counted, garbage, is_better};
use std::test::*;

// A version whose row is one number, or a tombstone.
#[derive(Clone, Copy)]
struct Version {
    stamp: Stamp,
    row: Option<u32>,
}

fn tx(slot: u32, number: u64) -> TxId {
    TxId {
        conn: ConnId { slot, serial: 1 },
        number,
    }
}

fn done(commit: u64, row: u32) -> Version {
    Version {
        stamp: Stamp::Done(commit),
        row: Some(row),
    }
}

fn open(by: TxId, row: u32) -> Version {
    Version {
        stamp: Stamp::By(by),
        row: Some(row),
    }
}

// A stamp as readers count it, where the commit of one transaction may be marked.
fn counts(stamp: Stamp, mark: Option<(TxId, u64)>) -> Stamp {
    match (stamp, mark) {
        (Stamp::By(by), Some((tx, commit))) if by == tx => counted(stamp, Some(commit)),
        _ => stamp,
    }
}

// The number that the object shows to a reader.
fn shown(chain: &[Version], mark: Option<(TxId, u64)>, snapshot: u64, reader: TxId) -> Option<u32> {
    let mut best = None;
    let mut row = None;
    for version in chain {
        let stamp = counts(version.stamp, mark);
        if is_better(best, stamp, snapshot, reader) {
            best = Some(stamp);
            row = version.row;
        }
    }
    row
}

#[test]
fn puts_marks_stamps_and_drops_of_two_writers_show_what_the_laws_say(rt: HostRuntime) {
    let (first, second, other) = (tx(1, 2), tx(2, 1), tx(3, 1));
    let made = [done(1, 5)];
    let put = [open(first, 6), done(1, 5)];
    let again = [open(first, 8), done(1, 5)];
    let stamped = [done(2, 6), done(1, 5)];
    let both = [open(second, 7), done(2, 6), done(1, 5)];
    let mark = Some((first, 2));
    for (chain, mark, snapshot, reader, row) in [
        (made.as_slice(), None, 0, other, None),
        (made.as_slice(), None, 1, other, Some(5)),
        (put.as_slice(), None, 1, first, Some(6)),
        (put.as_slice(), None, 1, second, Some(5)),
        (put.as_slice(), None, 2, other, Some(5)),
        (again.as_slice(), None, 1, first, Some(8)),
        (again.as_slice(), None, 1, second, Some(5)),
        (put.as_slice(), mark, 1, second, Some(5)),
        (put.as_slice(), mark, 2, other, Some(6)),
        (stamped.as_slice(), mark, 1, second, Some(5)),
        (stamped.as_slice(), None, 2, other, Some(6)),
        (both.as_slice(), None, 1, second, Some(7)),
        (both.as_slice(), None, 1, other, Some(5)),
        (both.as_slice(), None, 2, other, Some(6)),
        (stamped.as_slice(), None, 1, second, Some(5)),
    ] {
        assert_eq!(rt; shown(chain, mark, snapshot, reader), row, "at {snapshot}");
    }
}

#[test]
fn old_snapshot_keeps_every_version_and_its_end_leaves_one(rt: HostRuntime) {
    let chain = [done(4, 4), done(3, 3), done(2, 2), done(1, 1)];
    let (reader, writer) = (tx(2, 1), tx(1, 6));
    assert_eq!(rt; shown(&chain, None, 1, reader), Some(1));
    assert_eq!(rt; shown(&chain, None, 4, writer), Some(4));
    for (floor, hidden) in [
        (1, [false, false, false, false]),
        (4, [false, true, true, true]),
    ] {
        let mut newer = None;
        for (version, is) in chain.iter().zip(hidden.iter()) {
            let sight = Sighted {
                stamp: version.stamp,
                tombstone: version.row.is_none(),
            };
            assert_eq!(rt;
                garbage(&sight, newer, true, Some(floor)),
                *is,
                "at {floor}"
            );
            if let Stamp::Done(commit) = version.stamp {
                newer = Some(commit);
            }
        }
    }
    let left = [done(4, 4)];
    assert_eq!(rt; shown(&left, None, 4, writer), Some(4));
}

#[test]
fn made_object_that_is_rolled_back_was_its_own_transactions_alone(rt: HostRuntime) {
    let (writer, reader) = (tx(1, 1), tx(1, 2));
    let made = [open(writer, 5)];
    assert_eq!(rt; shown(&made, None, 0, writer), Some(5));
    assert_eq!(rt; shown(&made, None, 0, reader), None);
    assert_eq!(rt; shown(&[], None, 0, writer), None);
    assert_eq!(rt; shown(&[], None, 0, reader), None);
}
