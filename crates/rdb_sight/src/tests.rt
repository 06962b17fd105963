//! The rules on the versions of single objects.

use crate::{Sighted, counted, garbage, is_better, seen};
use rdb_base::identity::{ConnId, Stamp, TxId};
use std::test::*;

fn tx(slot: u32, number: u64) -> TxId {
    TxId {
        conn: ConnId { slot, serial: 1 },
        number,
    }
}

fn row(stamp: Stamp) -> Sighted {
    Sighted {
        stamp,
        tombstone: false,
    }
}

fn gone(commit: u64) -> Sighted {
    Sighted {
        stamp: Stamp::Done(commit),
        tombstone: true,
    }
}

#[test]
fn own_version_is_seen_before_commits_and_a_tombstone_is_no_object(rt: HostRuntime) {
    let chain = [
        row(Stamp::By(tx(2, 1))),
        row(Stamp::Done(5)),
        gone(3),
        row(Stamp::Done(2)),
    ];
    for (snapshot, reader, place) in [
        (1, tx(2, 1), Some(0)),
        (9, tx(2, 1), Some(0)),
        (9, tx(2, 2), Some(1)),
        (5, tx(3, 1), Some(1)),
        (4, tx(3, 1), None),
        (3, tx(3, 1), None),
        (2, tx(3, 1), Some(3)),
        (1, tx(3, 1), None),
    ] {
        assert_eq!(rt; seen(&chain, snapshot, reader), place, "at {snapshot}");
    }
    assert_eq!(rt; seen(&[], 9, tx(2, 1)), None);
}

#[test]
fn own_version_behind_later_commits_is_still_seen(rt: HostRuntime) {
    let chain = [
        row(Stamp::Done(5)),
        row(Stamp::By(tx(2, 1))),
        row(Stamp::Done(2)),
    ];
    assert_eq!(rt; seen(&chain, 2, tx(2, 1)), Some(1));
    assert_eq!(rt; seen(&chain, 2, tx(3, 1)), Some(2));
}

#[test]
fn later_commit_within_the_snapshot_is_better(rt: HostRuntime) {
    let reader = tx(2, 1);
    for (best, stamp, better) in [
        (None, Stamp::Done(4), true),
        (None, Stamp::Done(5), false),
        (None, Stamp::By(tx(3, 1)), false),
        (Some(Stamp::Done(3)), Stamp::Done(4), true),
        (Some(Stamp::Done(4)), Stamp::Done(3), false),
        (Some(Stamp::Done(4)), Stamp::By(reader), true),
        (Some(Stamp::By(reader)), Stamp::Done(4), false),
    ] {
        assert_eq!(rt; is_better(best, stamp, 4, reader), better);
    }
}

#[test]
fn marked_version_counts_as_its_commit(rt: HostRuntime) {
    assert!(rt; counted(Stamp::By(tx(2, 1)), Some(7)) == Stamp::Done(7));
    assert!(rt; counted(Stamp::By(tx(2, 1)), None) == Stamp::By(tx(2, 1)));
    assert!(rt; counted(Stamp::Done(3), None) == Stamp::Done(3));
}

#[test]
fn garbage_is_what_a_newer_commit_hides_from_every_snapshot_or_the_last_tombstone(rt: HostRuntime) {
    for (version, newer, older, floor, is) in [
        (row(Stamp::Done(1)), Some(2), false, Some(2), true),
        (row(Stamp::Done(1)), Some(2), false, Some(1), false),
        (row(Stamp::Done(1)), Some(2), false, None, true),
        (row(Stamp::Done(2)), None, true, Some(2), false),
        (row(Stamp::By(tx(2, 1))), Some(2), false, Some(2), false),
        (gone(2), None, true, Some(2), false),
        (gone(2), None, false, Some(2), true),
        (gone(2), None, false, Some(1), false),
        (gone(2), None, false, None, true),
    ] {
        assert_eq!(rt; garbage(&version, newer, older, floor), is);
    }
}
