//! A plan on one class, over the cells as they stand, laid in a hand that has none. It reads cells, and changes nothing but the hand.

ghost use Rattle.std.specs.Prelude.{◌≡◌, ◌≢◌, ◌≤◌, ◌<◌, ℕ, List, [], length, Some, None, IsSomeAnd, is_some, true, false};
ghost use Rattle.rdb_base.specs.declared.limits.TheConstants.{MAX_ROW};
ghost use Rattle.rdb_base.specs.declared.value.Value.{Value};
ghost use Rattle.rdb_base.specs.Operations.{is_write};
ghost use Rattle.rdb_schema.specs.Encodes.{Encodes};
ghost use Rattle.rdb_cells.specs.Records.{Record, max_plan};
ghost use Rattle.rdb_cells.specs.Untaken.{HasUntaken};
ghost use Rattle.rdb_sight.specs.Versions.{chain_of};
ghost use Rattle.rdb_space.specs.Memory.{image_of, class_of};
ghost use Rattle.rdb_store.specs.Chains.{CanReplace, IsNewSerial};
ghost use Rattle.rdb_store.specs.Holds.{HoldsSome, Whatever};
ghost use Rattle.rdb_store.specs.Shapes.{class_in, claim_in, shape_in};
ghost use Rattle.rdb_store.specs.Stored.{HasHeader};
ghost use Rattle.rdb_steps.specs.Laid.{IsPlanOn, LeadsWithout, LeadsToPut, Spells, IsReadyToPut, taken_by};
ghost use Rattle.rdb_steps.specs.Making.{row_written};
ghost use Rattle.rdb_steps.specs.Planning.{planning, put_by, putting};

use rdb_base::operation::Op;
use rdb_cells::{Overlay, Plan};
use rdb_pages::{CellRef, Pages};
use rdb_registry::{Hand, Work};
use rdb_space::RegionMemory;
use rdb_store::{NewVersion, Store};
use std::alloc::Global;
use std::mem;

// The plan of a version's drop.
fn dropping<P: Pages>(
    store: &Store,
    memory: &RegionMemory<P>,
    plan: Plan,
    class: u32,
    version: CellRef,
) -> Plan
    requires empty { plan.pairs ≡ [] }
    requires room { plan.room ≡ max_plan }
    requires class { class < length store.now }
    requires holds { HoldsSome (class_in store.now class) (image_of memory.now) (class_of memory.now) }
    requires version { Whatever (class_in store.now class) (image_of memory.now) (class_of memory.now)
        (λ objects. HasHeader objects version.number) }
    ensures leads { LeadsWithout (class_in store.now class) (image_of memory.now) (class_of memory.now) result.pairs version.number }
    ensures plan { IsPlanOn class (image_of memory.now) (class_of memory.now) result }
{
    let mut overlay = Overlay::over(memory, plan, class);
    store.plan_drop(class, version, &mut overlay);
    overlay.plan()
}

// The plan of a version with the row that the bytes encode, and its header.
fn putting_row<P: Pages>(
    store: &Store,
    memory: &RegionMemory<P>,
    plan: Plan,
    new: &NewVersion,
    bytes: &[u8],
) -> (CellRef, Plan)
    requires empty { plan.pairs ≡ [] }
    requires room { plan.room ≡ max_plan }
    requires class { new.now.class < length store.now }
    requires holds { HoldsSome (class_in store.now new.now.class) (image_of memory.now) (class_of memory.now) }
    requires serial { Whatever (class_in store.now new.now.class) (image_of memory.now) (class_of memory.now)
        (IsNewSerial new.now.serial) }
    requires replaces { Whatever (class_in store.now new.now.class) (image_of memory.now) (class_of memory.now)
        (λ objects. CanReplace new.now.replaces (chain_of objects new.now.id)) }
    requires row { (row : List Value) × Encodes (class_in store.now new.now.class).types row bytes.now }
    requires short { length bytes.now ≤ MAX_ROW }
    requires free { HasUntaken [] (image_of memory.now) (class_of memory.now) new.now.class 0
        (claim_in (shape_in store.now new.now.class) (length bytes.now)) }
    ensures leads { (row : List Value) → Encodes (class_in store.now new.now.class).types row bytes.now
        → LeadsToPut (class_in store.now new.now.class) (image_of memory.now) (class_of memory.now) result.1.pairs new.now
        result.0.number (Some row) }
    ensures plan { IsPlanOn new.now.class (image_of memory.now) (class_of memory.now) result.1 }
{
    let mut overlay = Overlay::over(memory, plan, new.class);
    let version = store.plan_put(new, bytes, &mut overlay);
    (version, overlay.plan())
}

// The plan of a tombstone, and its header.
fn putting_tombstone<P: Pages>(
    store: &Store,
    memory: &RegionMemory<P>,
    plan: Plan,
    new: &NewVersion,
) -> (CellRef, Plan)
    requires empty { plan.pairs ≡ [] }
    requires room { plan.room ≡ max_plan }
    requires class { new.now.class < length store.now }
    requires holds { HoldsSome (class_in store.now new.now.class) (image_of memory.now) (class_of memory.now) }
    requires object { Whatever (class_in store.now new.now.class) (image_of memory.now) (class_of memory.now)
        (λ objects. chain_of objects new.now.id ≢ []) }
    requires serial { Whatever (class_in store.now new.now.class) (image_of memory.now) (class_of memory.now)
        (IsNewSerial new.now.serial) }
    requires replaces { Whatever (class_in store.now new.now.class) (image_of memory.now) (class_of memory.now)
        (λ objects. CanReplace new.now.replaces (chain_of objects new.now.id)) }
    requires free { HasUntaken [] (image_of memory.now) (class_of memory.now) new.now.class 0 1 }
    ensures leads { LeadsToPut (class_in store.now new.now.class) (image_of memory.now) (class_of memory.now) result.1.pairs new.now
        result.0.number None }
    ensures plan { IsPlanOn new.now.class (image_of memory.now) (class_of memory.now) result.1 }
{
    let mut overlay = Overlay::over(memory, plan, new.class);
    let version = store.plan_tombstone(new, &mut overlay);
    (version, overlay.plan())
}

// Moves the plan out of a hand. It takes no memory.
fn take_plan(hand: &mut Hand, alloc: Global) -> Plan
    ensures plan { result ≡ hand.old.plan }
    ensures hand { hand.new ≡ planning (record { pairs = []; room = 0 }) hand.old }
{
    mem::replace(&mut hand.plan, Plan::empty(alloc))
}

/// Lays the plan of a version's drop in a hand that has no plan. The cost is that of the store's plan; no memory is taken.
pub(crate) fn lay_drop<P: Pages>(
    hand: &mut Hand,
    store: &Store,
    memory: &RegionMemory<P>,
    class: u32,
    version: CellRef,
    alloc: Global,
)
    requires empty { hand.old.plan.pairs ≡ [] }
    requires room { hand.old.plan.room ≡ max_plan }
    requires class { class < length store.now }
    requires holds { HoldsSome (class_in store.now class) (image_of memory.now) (class_of memory.now) }
    requires version { Whatever (class_in store.now class) (image_of memory.now) (class_of memory.now)
        (λ objects. HasHeader objects version.number) }
    ensures hand { hand.new ≡ planning hand.new.plan hand.old }
    ensures leads { LeadsWithout (class_in store.now class) (image_of memory.now) (class_of memory.now) hand.new.plan.pairs version.number }
    ensures plan { IsPlanOn class (image_of memory.now) (class_of memory.now) hand.new.plan }
{
    let plan = take_plan(hand, alloc);
    hand.plan = dropping(store, memory, plan, class, version);
}

// The operation in work of a hand that has one.
fn work_in(hand: &Hand) -> &Work
    requires { is_some hand.now.work ≡ true }
    ensures { hand.now.work ≡ Some result.now }
{
    match &hand.work {
        Some(work) => work,
        None => unreachable!(),
    }
}

// The plan of the version that an operation puts, and its header.
fn putting_of<P: Pages>(
    store: &Store,
    memory: &RegionMemory<P>,
    plan: Plan,
    new: &NewVersion,
    work: &Work,
) -> (CellRef, Plan)
    requires empty { plan.pairs ≡ [] }
    requires room { plan.room ≡ max_plan }
    requires class { new.now.class < length store.now }
    requires holds { HoldsSome (class_in store.now new.now.class) (image_of memory.now) (class_of memory.now) }
    requires write { is_write work.now.op ≡ true }
    requires object { Whatever (class_in store.now new.now.class) (image_of memory.now) (class_of memory.now)
        (λ objects. row_written work.now.op ≡ None → chain_of objects new.now.id ≢ []) }
    requires serial { Whatever (class_in store.now new.now.class) (image_of memory.now) (class_of memory.now)
        (IsNewSerial new.now.serial) }
    requires replaces { Whatever (class_in store.now new.now.class) (image_of memory.now) (class_of memory.now)
        (λ objects. CanReplace new.now.replaces (chain_of objects new.now.id)) }
    requires row { Spells (class_in store.now new.now.class).types work.now.op work.now.bytes }
    requires short { length work.now.bytes ≤ MAX_ROW }
    requires free { HasUntaken [] (image_of memory.now) (class_of memory.now) new.now.class 0
        (taken_by work.now.op (claim_in (shape_in store.now new.now.class) (length work.now.bytes))) }
    ensures leads { LeadsToPut (class_in store.now new.now.class) (image_of memory.now) (class_of memory.now) result.1.pairs new.now
        result.0.number (row_written work.now.op) }
    ensures plan { IsPlanOn new.now.class (image_of memory.now) (class_of memory.now) result.1 }
{
    match &work.op {
        Op::Del { .. } => putting_tombstone(store, memory, plan, new),
        _ => putting_row(store, memory, plan, new, work.bytes.as_slice()),
    }
}

// Notes in an operation in work which version its plan puts, and, where it makes an object, which one that is.
fn note_put(work: &mut Work, id: u64, version: CellRef)
    ensures { work.new ≡ put_by id version work.old }
{
    work.puts = Some(version);
    if let Op::New { id: made, .. } = &mut work.op {
        *made = id;
    }
}

// Lays the own plan of an operation in work in its hand.
fn lay_own(hand: &mut Hand, plan: Plan, id: u64, version: CellRef)
    ensures { hand.new ≡ putting plan id version hand.old }
{
    hand.plan = plan;
    if let Some(work) = &mut hand.work {
        note_put(work, id, version);
    }
}

/// Lays the plan of the version that an operation in work puts in its hand, which has no plan, and returns the version. The cost is that of
/// the store's plan; no memory is taken.
pub(crate) fn lay_put<P: Pages>(
    hand: &mut Hand,
    store: &Store,
    memory: &RegionMemory<P>,
    new: &NewVersion,
    alloc: Global,
) -> CellRef
    requires empty { hand.old.plan.pairs ≡ [] }
    requires room { hand.old.plan.room ≡ max_plan }
    requires class { new.now.class < length store.now }
    requires holds { HoldsSome (class_in store.now new.now.class) (image_of memory.now) (class_of memory.now) }
    requires work { IsSomeAnd hand.old.work (IsReadyToPut store.now (image_of memory.now) (class_of memory.now) new.now) }
    ensures hand { hand.new ≡ putting hand.new.plan new.now.id result hand.old }
    ensures leads { IsSomeAnd hand.old.work (λ work. LeadsToPut (class_in store.now new.now.class) (image_of memory.now)
        (class_of memory.now) hand.new.plan.pairs new.now result.number (row_written work.op)) }
    ensures plan { IsPlanOn new.now.class (image_of memory.now) (class_of memory.now) hand.new.plan }
{
    let plan = take_plan(hand, alloc);
    let (version, plan) = putting_of(store, memory, plan, new, work_in(hand));
    lay_own(hand, plan, new.id, version);
    version
}
