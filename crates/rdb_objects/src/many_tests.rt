//! A thousand objects put and taken out in three orders, ids that share their low bits, and versions taken out from within a
//! chain. Each change is planned and then written, and the list of all objects is compared after each.
ghost use Rattle.std.specs.Prelude.{◌≡◌, ◌≢◌, []};
ghost use Rattle.rdb_cells.specs.Images.{SameImage};
ghost use Rattle.rdb_cells.specs.Memory.{memory_image};
ghost use Rattle.rdb_cells.specs.Overlays.{AreCells};
ghost use Rattle.rdb_cells.specs.Records.{IsRecord, planned};
ghost use Rattle.rdb_cells.specs.Words.{no_ref};
ghost use Rattle.rdb_objects.specs.Changes.{HasVersion};
ghost use Rattle.rdb_objects.specs.Slots.{HoldsSome};

use crate::tests::{OBJECTS, add, empty_cells, empty_class, is_there, remove};
use rdb_base::list::NoMemory;
use rdb_cells::doubles::memory::MemoryCells;
use rdb_cells::{
    Cells, HasPairs, NONE, Overlay, Plan, Region, VersionHeader, written_plan_reads_the_same,
};
use rdb_pages::CellRef;
use std::alloc::Global;
use std::process::Abort;
use std::test::*;

/// How many cells a change of one object plans at most.
const PLACES: usize = 8;

/// Writes a plan's cells: what is read then is what was read through the plan, which is empty now.
fn write_out(cells: &mut MemoryCells, plan: &mut Plan)
    requires once { IsRecord plan.old }
    requires cells { AreCells (memory_image cells.old) plan.old.pairs }
    ensures reading { SameImage (memory_image cells.new) (planned plan.old.pairs (memory_image cells.old)) }
    ensures empty { plan.new.pairs ≡ [] }
{
    while plan.len() > 0 {
        plan.each_once();
        written_plan_reads_the_same();
        let pair = plan.pop();
        cells.write(pair.at, pair.cell);
    }
}

/// Lays an empty plan over cells of class 0.
fn lay_over(cells: &MemoryCells, plan: Plan) -> Overlay<&MemoryCells>
    requires holds { HoldsSome (memory_image cells.now) 0 }
    requires plan { plan.pairs ≡ [] }
    ensures under { result.cells ≡ cells.entry }
    ensures class { result.class ≡ 0 }
    ensures holds { HoldsSome (planned result.plan.pairs (memory_image result.cells.now)) 0 }
{
    Overlay::over(cells, plan, 0)
}

/// Adds an object of the id, with one version.
fn add_object(rt: &impl Abort, cells: &mut MemoryCells, plan: Plan, id: u64) -> Plan
    requires holds { HoldsSome (memory_image cells.old) 0 }
    requires plan { plan.pairs ≡ [] }
    ensures holds { HoldsSome (memory_image cells.new) 0 }
    ensures empty { result.pairs ≡ [] }
{
    let mut overlay = lay_over(cells, plan);
    add(rt, &mut overlay, id, id);
    let mut plan = overlay.plan();
    plan.each_once();
    write_out(cells, &mut plan);
    plan
}

/// Takes the newest version of an object out.
fn remove_object(rt: &impl Abort, cells: &mut MemoryCells, plan: Plan, id: u64) -> Plan
    requires holds { HoldsSome (memory_image cells.old) 0 }
    requires plan { plan.pairs ≡ [] }
    ensures holds { HoldsSome (memory_image cells.new) 0 }
    ensures empty { result.pairs ≡ [] }
{
    let mut overlay = lay_over(cells, plan);
    remove(rt, &mut overlay, id);
    let mut plan = overlay.plan();
    plan.each_once();
    write_out(cells, &mut plan);
    plan
}

/// Lists the ids of at most so many objects, in ascending order.
fn ids_in(
    rt: &impl Abort,
    alloc: Global,
    cells: &MemoryCells,
    most: usize,
) -> Result<Vec<u64>, NoMemory>
    requires { HoldsSome (memory_image cells.now) 0 }
{
    let mut ids = Vec::new(alloc);
    let mut next = OBJECTS.first_object(cells);
    for _ in 0..most {
        let Some(found) = next else { break };
        ids.push(found.id)?;
        let newest = OBJECTS.newest_version(cells, found.id);
        assert_eq!(rt; newest, Some(found.newest), "id {}", found.id);
        assert!(rt; is_there(cells, found.id), "id {}", found.id);
        next = OBJECTS.next_object(cells, found.id);
    }
    assert!(rt; next.is_none(), "more than {most} objects");
    ids.sort_unstable();
    Ok(ids)
}

/// Asserts that there is an object of each of these ids, and of no other, and of none of those.
fn assert_objects(
    rt: &impl Abort,
    alloc: Global,
    cells: &MemoryCells,
    these: &[u64],
    those: &[u64],
) -> Result<(), NoMemory>
    requires { HoldsSome (memory_image cells.now) 0 }
{
    let mut expected = Vec::from_slice(alloc, these)?;
    expected.sort_unstable();
    let ids = ids_in(rt, alloc, cells, these.len())?;
    assert!(rt;
        ids.as_slice() == expected.as_slice(),
        "{} objects",
        these.len()
    );
    for id in those {
        assert!(rt; !is_there(cells, *id), "id {id}");
    }
    Ok(())
}

/// Adds an object of each id, and takes all out in another order.
fn churn(rt: &impl Abort, alloc: Global, added: &[u64], removed: &[u64]) -> Result<(), NoMemory> {
    let mut cells = empty_cells(rt, alloc, &[0; 40])?;
    let mut plan = Plan::reserve(alloc, PLACES)?;
    'adding: for (at, id) in added.iter().enumerate() {
        plan = add_object(rt, &mut cells, plan, *id);
        assert_objects(rt, alloc, &cells, &added[..=at], &added[at + 1..])?;
    }
    'removing: for (at, id) in removed.iter().enumerate() {
        plan = remove_object(rt, &mut cells, plan, *id);
        assert_objects(rt, alloc, &cells, &removed[at + 1..], &removed[..=at])?;
    }
    Ok(())
}

/// The numbers from 1 to `many`, in steps of a number that has no divisor in common with it, each times the scale.
fn ids_by(alloc: Global, many: u64, step: u64, scale: u64) -> Result<Vec<u64>, NoMemory> {
    let mut ids = Vec::new(alloc);
    for at in 0..many {
        let place = at.saturating_mul(step) % many;
        ids.push(place.saturating_add(1).saturating_mul(scale))?;
    }
    Ok(ids)
}

#[test]
fn many_objects_come_and_go_in_three_orders(rt: HostRuntime) -> Result<(), Fail> {
    let low_bits: u64 = 1 << 48;
    for (many, scale, steps) in [(1000, 1, [1, 387, 999]), (200, low_bits, [1, 77, 199])] {
        for (at, step) in steps.iter().enumerate() {
            let added = ids_by(rt.alloc(), many, *step, scale)?;
            let removed = ids_by(rt.alloc(), many, steps[(at + 1) % 3], scale)?;
            churn(&rt, rt.alloc(), added.as_slice(), removed.as_slice())?;
        }
    }
    Ok(())
}

/// Returns the version behind the newest one of an object, if there is one.
fn second_version<C: Cells>(rt: &impl Abort, cells: &Overlay<C>, id: u64) -> CellRef
    requires { HoldsSome (planned cells.now.plan.pairs (C.image cells.now.cells)) 0 }
    ensures { result ≢ no_ref → HasVersion (planned cells.now.plan.pairs (C.image cells.now.cells)) 0 id result }
{
    match OBJECTS.newest_version(cells, id) {
        Some(newest) => VersionHeader::older_in(cells.planned(newest)),
        None => panic!(rt; "no object {id}"),
    }
}

/// Takes the version behind the newest one out, and asserts that the newest stays and that this one is then behind it.
fn remove_second<C: Cells>(rt: &impl Abort, cells: &mut Overlay<C>, id: u64, behind: CellRef)
    requires class { cells.old.class ≡ 0 }
    requires holds { HoldsSome (planned cells.old.plan.pairs (C.image cells.old.cells)) 0 }
    ensures class { cells.new.class ≡ 0 }
    ensures holds { HoldsSome (planned cells.new.plan.pairs (C.image cells.new.cells)) 0 }
{
    let newest = OBJECTS.newest_version(cells, id);
    let second = second_version(rt, cells, id);
    assert!(rt; second != NONE, "one version");
    assert!(rt; cells.places_left() >= 3, "the plan is full");
    OBJECTS.remove_version(cells, id, second);
    assert_eq!(rt; OBJECTS.newest_version(cells, id), newest, "the newest");
    assert_eq!(rt; second_version(rt, cells, id), behind, "the second");
}

/// Takes the middle one and then the oldest of three versions out.
fn shorten_chain(rt: &impl Abort, alloc: Global, id: u64) -> Result<(), NoMemory> {
    let mut cells = empty_class(rt, alloc)?;
    add(rt, &mut cells, id, 1);
    let oldest = OBJECTS.newest_version(&cells, id).unwrap_or(NONE);
    add(rt, &mut cells, id, 2);
    add(rt, &mut cells, id, 3);
    remove_second(rt, &mut cells, id, oldest);
    remove_second(rt, &mut cells, id, NONE);
    remove(rt, &mut cells, id);
    assert!(rt; OBJECTS.newest_version(&cells, id).is_none(), "a version");
    let _plan = cells.plan();
    Ok(())
}

#[test]
fn versions_go_from_within_a_chain(rt: HostRuntime) -> Result<(), Fail> {
    Ok(shorten_chain(&rt, rt.alloc(), 5)?)
}
