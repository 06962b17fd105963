//! The first version of a class that no reader can see any more. It goes over the class's objects and their chains once, reads headers
//! and slots alone, and takes no memory.
ghost use Rattle.std.specs.Prelude.{◌≡◌, ◌<◌, ◌==◌, List, ◌∷◌, map, not};
ghost use Rattle.std.specs.Option.{option_map};
ghost use Rattle.rdb_cells.specs.References.{max_classes};
ghost use Rattle.rdb_rows.specs.Versions.{HasVersion};
ghost use Rattle.rdb_sight.specs.Garbage.{least_commit};
ghost use Rattle.rdb_sight.specs.Versions.{Version, Object};
ghost use Rattle.rdb_store.specs.FirstGarbage.{Begins, HoldsChains, IsChain, IsFirstGarbage, IsFirstIn, IsSooner, TellsUnseen, commit_of, earlier, is_earlier, least_with};

use rdb_base::identity::Stamp;
use rdb_cells::{Cells, LAST_HEAD, NONE};
use rdb_objects::{Found, Objects};
use rdb_pages::CellRef;
use rdb_rows::{is_tombstone, older_in, stamp_in};
use rdb_sight::{Sighted, garbage};

/// A version that no reader can see any more, with the id of its object and the number of its commit.
#[derive(Clone, Copy, Debug, PartialEq, Eq)]
pub(crate) struct Unseen {
    pub id: u64,
    pub commit: u64,
    pub version: CellRef,
}

/// Returns the first garbage version of a class by its object's id and then by its commit, if there is one; `floor` is the least open
/// snapshot, if a transaction is open.
pub(crate) fn first_garbage<C: Cells>(
    cells: &C,
    objects: Objects,
    floor: Option<u64>,
) -> Option<CellRef>
    requires class { objects.class < max_classes }
    requires holds { (held : List Object) × HoldsChains (C.image cells.now) objects.class held }
    ensures { (held : List Object) → HoldsChains (C.image cells.now) objects.class held → IsFirstGarbage floor held result }
{
    cells.bounded();
    let mut first = None;
    let mut next = objects.first_object(cells);
    for _ in 0..LAST_HEAD {
        match next {
            Some(object) => {
                first = sooner(cells, object, floor, first);
                next = objects.next_object(cells, object.id);
            }
            None => return version_of(first),
        }
    }
    version_of(first)
}

/// Returns what was found, by its version.
fn version_of(found: Option<Unseen>) -> Option<CellRef>
    ensures { result ≡ option_map (λ unseen. unseen.version) found }
{
    match found {
        Some(unseen) => Some(unseen.version),
        None => None,
    }
}

/// Returns the first of an object's garbage versions, or what was found before, where that is of an object with a lesser id.
fn sooner<C: Cells>(
    cells: &C,
    object: Found,
    floor: Option<u64>,
    before: Option<Unseen>,
) -> Option<Unseen>
    requires { (chain : List Version) × Begins (C.image cells.now) object.newest chain }
    ensures { (chain : List Version) → Begins (C.image cells.now) object.newest chain →
        IsSooner floor chain object.id before result }
{
    if is_earlier(before, object.id) {
        return before;
    }
    first_in_chain(cells, object, floor).or(before)
}

/// Returns whether something was found before, in an object with a lesser id.
fn is_earlier(before: Option<Unseen>, id: u64) -> bool
    ensures { result ≡ is_earlier before id }
{
    match before {
        Some(best) => best.id < id,
        None => false,
    }
}

/// Returns the garbage version of the least commit among those of an object.
fn first_in_chain<C: Cells>(cells: &C, object: Found, floor: Option<u64>) -> Option<Unseen>
    requires { (chain : List Version) × Begins (C.image cells.now) object.newest chain }
    ensures { (chain : List Version) → Begins (C.image cells.now) object.newest chain →
        IsFirstIn floor chain object.id result }
{
    cells.bounded();
    let mut first = None;
    let mut newer = None;
    let mut at = object.newest;
    for _ in 0..LAST_HEAD {
        if at == NONE {
            return first;
        }
        let commit = unseen_commit(cells, at, newer, floor);
        first = earlier(first, object.id, at, commit);
        newer = least(newer, stamp_in(cells, at));
        at = older_in(cells, at);
    }
    first
}

/// Returns the number of a version's commit, if the version is garbage; `newer` is the least commit of the newer versions of its object.
fn unseen_commit<C: Cells>(
    cells: &C,
    version: CellRef,
    newer: Option<u64>,
    floor: Option<u64>,
) -> Option<u64>
    requires { HasVersion (C.image cells.now) version.number }
    ensures { (front : List Version) (v : Version) (back : List Version) → v.header ≡ version.number →
        IsChain (C.image cells.now) (v ∷ back) → newer ≡ least_commit (map (λ w. w.stamp) front) →
        TellsUnseen floor front v back result }
{
    let sighted = Sighted {
        stamp: stamp_in(cells, version),
        tombstone: is_tombstone(cells, version),
    };
    let older = is_some(older_in(cells, version));
    if !garbage(&sighted, newer, older, floor) {
        return None;
    }
    commit_of(sighted.stamp)
}

/// Returns the number of a stamp's commit, if it is one of a commit.
fn commit_of(stamp: Stamp) -> Option<u64>
    ensures { result ≡ commit_of stamp }
{
    match stamp {
        Stamp::Done(commit) => Some(commit),
        Stamp::By(_) => None,
    }
}

/// Returns whether a reference leads to a version.
fn is_some(older: CellRef) -> bool
    ensures { result ≡ not (older.number == 0) }
{
    older != NONE
}

/// Returns what was found before, or a version of the object where that has a lesser commit.
fn earlier(before: Option<Unseen>, id: u64, version: CellRef, commit: Option<u64>) -> Option<Unseen>
    ensures { result ≡ earlier before id version commit }
{
    let Some(commit) = commit else {
        return before;
    };
    match before {
        Some(best) if best.commit <= commit => before,
        _ => Some(Unseen {
            id,
            commit,
            version,
        }),
    }
}

/// Returns the least of a commit, if one is known, and that of a stamp, if it has one.
fn least(known: Option<u64>, stamp: Stamp) -> Option<u64>
    ensures { result ≡ least_with known stamp }
{
    match stamp {
        Stamp::Done(commit) => match known {
            Some(least) => Some(commit.min(least)),
            None => Some(commit),
        },
        Stamp::By(_) => known,
    }
}
