//! Which version of an object a reader sees, and which versions are garbage: the rules alone, over stamps and places. It touches no cell
//! and takes no memory.
#![tactic(auto)]

ghost use Rattle.std.specs.Prelude.{◌≡◌, ◌⊎◌, true, ℕ, ◌<◌, List, [], ◌∷◌, ◌++◌, length, slice_get, Option, Some, None, IfSome, IfNone, if◌then◌else◌};
ghost use Rattle.std.specs.List.{Contains};
ghost use Rattle.std.specs.Option.{option_map};
ghost use Rattle.rdb_base.specs.declared.identity.TxId.{TxId};
ghost use Rattle.rdb_base.specs.declared.identity.Stamp.{Stamp};
ghost use Rattle.rdb_sight.specs.Sight.{is_own, commit_within, exceeds, is_better, seen, seen_row};
ghost use Rattle.rdb_sight.specs.Garbage.{all_have, is_garbage};
ghost use Rattle.rdb_sight.specs.Versions.{Marks, Version, counted, version_seen, IsLatest, SeesNone};

use rdb_base::identity::{Stamp, TxId};

#[cfg(test)]
mod tests;

/// What is looked at of a version: whose it is, and whether it is a tombstone, which says that the object is gone.
#[derive(Clone, Copy, Debug, PartialEq, Eq)]
pub struct Sighted {
    pub stamp: Stamp,
    pub tombstone: bool,
}

/// A version's stamp as readers count it: that of a transaction whose commit is marked, as that commit's.
pub fn counted(stamp: Stamp, mark: Option<u64>) -> Stamp
    ensures { result ≡ counted (λ tx. mark) stamp }
{
    match (stamp, mark) {
        (Stamp::By(_), Some(commit)) => Stamp::Done(commit),
        _ => stamp,
    }
}

/// Whether a version is seen in place of `best`, the one that is seen among those before it: it is the reader's own, or it is of a later
/// commit that the snapshot has, and `best` isn't the reader's own.
pub fn is_better(best: Option<Stamp>, stamp: Stamp, snapshot: u64, tx: TxId) -> bool
    ensures { result ≡ is_better snapshot (Some tx) best stamp }
{
    match best {
        Some(before) => {
            !is_own(before, tx)
                && (is_own(stamp, tx)
                    || exceeds(
                        commit_within(stamp, snapshot),
                        commit_within(before, snapshot),
                    ))
        }
        None => is_own(stamp, tx) || commit_within(stamp, snapshot).is_some(),
    }
}

// Whether a version is one of a transaction.
fn is_own(stamp: Stamp, tx: TxId) -> bool
    ensures { result ≡ is_own (Some tx) stamp }
{
    match stamp {
        Stamp::By(by) => by == tx,
        Stamp::Done(_) => false,
    }
}

// The number of the commit that a version is of, if a snapshot has that commit.
fn commit_within(stamp: Stamp, snapshot: u64) -> Option<u64>
    ensures { result ≡ commit_within snapshot stamp }
{
    match stamp {
        Stamp::Done(commit) if commit <= snapshot => Some(commit),
        _ => None,
    }
}

// Whether there is the first number, and no second one that isn't below it.
fn exceeds(commit: Option<u64>, other: Option<u64>) -> bool
    ensures { result ≡ exceeds commit other }
{
    match (commit, other) {
        (Some(commit), Some(other)) => other < commit,
        (commit, None) => commit.is_some(),
        (None, _) => false,
    }
}

/// The place of the version that a reader sees of an object: the one of its own transaction, or else the one of the latest commit that its
/// snapshot has; the first such one, where versions shared a stamp. None exactly where there is no such version or it is a tombstone. The
/// cost grows with the number of versions.
pub fn seen(versions: &[Sighted], snapshot: u64, tx: TxId) -> Option<usize>
    ensures none { IfNone result (seen_row snapshot (Some tx) versions.now ≡ None) }
    ensures there { IfSome result (λ place. place < length versions.now) }
    ensures place { IfSome result (λ place. slice_get versions.now place ≡ seen_row snapshot (Some tx) versions.now) }
{
    let mut best = None;
    for place in 0..versions.len() {
        best = better_of(best, (place, versions[place].stamp), snapshot, tx);
    }
    let (place, _) = best?;
    if versions[place].tombstone {
        return None;
    }
    Some(place)
}

// The better of two versions, each its place and its stamp, where the first stands before the second, if there is a first.
fn better_of(
    best: Option<(usize, Stamp)>,
    other: (usize, Stamp),
    snapshot: u64,
    tx: TxId,
) -> Option<(usize, Stamp)>
    ensures { result ≡ (if is_better snapshot (Some tx) (option_map (λ b. b.1) best) other.1 then Some other else best) }
{
    let before = match best {
        Some((_, stamp)) => Some(stamp),
        None => None,
    };
    if is_better(before, other.1, snapshot, tx) {
        Some(other)
    } else {
        best
    }
}

/// Whether a version is garbage, so that no reader can see it any more. `newer` is the least number of a commit of the object's newer
/// versions, `older` says whether the object has an older version, and `floor` is the least open snapshot, each none where there is none.
pub fn garbage(version: &Sighted, newer: Option<u64>, older: bool, floor: Option<u64>) -> bool
    ensures { result ≡ is_garbage version.now.stamp version.now.tombstone newer older floor }
{
    let Stamp::Done(commit) = version.stamp else {
        return false;
    };
    match newer {
        Some(least) if all_have(floor, least) => true,
        _ => version.tombstone && !older && all_have(floor, commit),
    }
}

// Whether every open snapshot has a commit.
fn all_have(floor: Option<u64>, commit: u64) -> bool
    ensures { result ≡ all_have floor commit }
{
    match floor {
        Some(least) => commit <= least,
        None => true,
    }
}

/// Does nothing: where versions are read one by one, newest first or in any other order, the one that is seen of all so far is the better
/// of the last one and the one that is seen of those before it.
pub fn seen_goes_on()
    ensures { (marks : Marks) (snapshot : ℕ) (own : Option TxId) (chain : List Version) (v : Version) →
        version_seen marks snapshot own (chain ++ v ∷ [])
        ≡ (if is_better snapshot own
        (option_map (λ w. counted marks w.stamp) (version_seen marks snapshot own chain)) (counted marks v.stamp)
        then Some v else version_seen marks snapshot own chain) }
{}

/// Does nothing: the version that a reader sees is one of the chain. It is the reader's own, or it is of the latest commit that the snapshot
/// has, of a chain without the reader's own. Where none is seen, none is the reader's own and none is of a commit that the snapshot has.
pub fn seen_is_own_or_latest()
    ensures there { (marks : Marks) (snapshot : ℕ) (own : Option TxId) (chain : List Version) (v : Version) →
        version_seen marks snapshot own chain ≡ Some v → Contains chain v }
    ensures found { (marks : Marks) (snapshot : ℕ) (own : Option TxId) (chain : List Version) (v : Version) →
        version_seen marks snapshot own chain ≡ Some v →
        (is_own own (counted marks v.stamp) ≡ true) ⊎ IsLatest marks snapshot own chain v }
    ensures none { (marks : Marks) (snapshot : ℕ) (own : Option TxId) (chain : List Version) →
        version_seen marks snapshot own chain ≡ None → SeesNone marks snapshot own chain }
{}
