//! A plan of two cells that is written, and one that is taken back.

ghost use Rattle.std.specs.Prelude.{◌≡◌, ◌<◌, ℕ, length, true, false, Some, IsSomeAnd};
ghost use Rattle.std.specs.Int.{bit_at};
ghost use Rattle.std.specs.Bool.{OnTrue};
ghost use Rattle.rdb_cells.specs.Memory.{memory_image, memory_class};
ghost use Rattle.rdb_cells.specs.Records.{names};
ghost use Rattle.rdb_registry.specs.declared.seat.Seat.{Seat as SeatValue};
ghost use Rattle.rdb_registry.specs.Seats.{seat_in, seat_of, IsHeld, NoOtherHolds};
ghost use Rattle.rdb_writes.specs.Grounds.{IsWork, AreWorks, WorksOn, NoneWorksOn};

use crate::{take_newest_back, write_next, write_unlogged};
use rdb_base::identity::{ConnId, Manager};
use rdb_cells::doubles::memory::MemoryCells;
use rdb_cells::{Cells, HasPairs, Pair};
use rdb_pages::{Cell, CellRef};
use rdb_registry::{Registry, Seat};
use std::process::Abort;
use std::test::Fail;

// The latch of the first class is one of these.
fn has_first(rt: &impl Abort, latches: u64)
    ensures { bit_at latches 0 ≡ 1 }
{
    assert!(rt; (latches >> 0u32) & 1 == 1);
}

// The cells of the pairs are of the first class, and its latch is one of these.
fn all_latched(rt: &impl Abort, cells: &MemoryCells, latches: u64, pairs: &[Pair])
    ensures { (n : ℕ) → names pairs.now n ≡ true
        → (class : ℕ) × (memory_class cells.now n ≡ Some class) × (bit_at latches class ≡ 1) }
{
    for pair in pairs {
        has_first(rt, latches);
        assert!(rt; cells.in_class(0, pair.at));
    }
}

// A record works on cells of the first class alone, whose latch it holds, and can log them.
fn is_work(rt: &impl Abort, cells: &MemoryCells, registry: &Registry, seat: &Seat)
    ensures { IsWork (record { image = memory_image cells.now; class_of = memory_class cells.now; seats = registry.now.seats }) seat.now }
{
    let _ = registry;
    let undo = &seat.hand.undo;
    let plan = &seat.hand.plan;
    assert!(rt; undo.len() <= undo.room() && plan.len() <= undo.room() - undo.len());
    all_latched(rt, cells, seat.latches, undo.as_slice());
    all_latched(rt, cells, seat.latches, plan.as_slice());
}

// So does the record in a slot, if it is held.
fn slot_works(rt: &impl Abort, cells: &MemoryCells, registry: &Registry, slot: u32)
    ensures { (seat : SeatValue) → seat_in registry.now.seats slot ≡ Some seat
        → IsWork (record { image = memory_image cells.now; class_of = memory_class cells.now; seats = registry.now.seats }) seat }
{
    if let Some(seat) = registry.at(slot) {
        is_work(rt, cells, registry, seat);
    }
}

// So does each record.
fn are_works(rt: &impl Abort, cells: &MemoryCells, registry: &Registry)
    ensures { AreWorks (record { image = memory_image cells.now; class_of = memory_class cells.now; seats = registry.now.seats }) }
{
    registry.sound();
    for slot in 0..32u32 {
        slot_works(rt, cells, registry, slot);
    }
}

// A record doesn't work on a cell.
fn is_idle(rt: &impl Abort, seat: &Seat, at: CellRef)
    ensures undo { names seat.now.hand.undo.pairs at.number ≡ false }
    ensures plan { names seat.now.hand.plan.pairs at.number ≡ false }
{
    assert!(rt; !seat.hand.undo.has(at));
    assert!(rt; !seat.hand.plan.has(at));
}

// Nor does the record in a slot, if it is held.
fn slot_idle(rt: &impl Abort, registry: &Registry, slot: u32, at: CellRef)
    ensures { (seat : SeatValue) → seat_in registry.now.seats slot ≡ Some seat → ¬ WorksOn seat.hand at.number }
{
    if let Some(seat) = registry.at(slot) {
        is_idle(rt, seat, at);
    }
}

// No record does.
fn are_idle(rt: &impl Abort, cells: &MemoryCells, registry: &Registry, at: CellRef)
    ensures { NoneWorksOn (record { image = memory_image cells.now; class_of = memory_class cells.now; seats = registry.now.seats })
        at.number }
{
    let _ = cells;
    registry.sound();
    for slot in 0..32u32 {
        slot_idle(rt, registry, slot, at);
    }
}

// Whether a connection is held and nobody holds the latch of the first class.
fn may_take(registry: &Registry, c: ConnId) -> bool
    ensures held { OnTrue result (IsHeld registry.now.seats c) }
    ensures class { OnTrue result (0 < registry.now.classes) }
    ensures free { OnTrue result (NoOtherHolds registry.now.seats c.slot 0) }
{
    registry.is_held(c) && registry.classes() > 0 && registry.holder(0).is_none()
}

// Adds a pair to a connection's plan, where it is held and there is room.
fn lay(registry: &mut Registry, c: ConnId, number: u32, word: u32) {
    if registry.is_held(c) {
        let plan = &mut registry.seat_mut(c).plan;
        if plan.len() < plan.room() {
            plan.put(Pair {
                at: CellRef { number },
                cell: filled(word),
            });
        }
    }
}

// A cell of the same words.
fn filled(word: u32) -> Cell {
    Cell { words: [word; 16] }
}

// Whether something is left of a connection's plan.
fn has_plan(registry: &Registry, c: ConnId) -> bool
    ensures { OnTrue result (IsSomeAnd (seat_of registry.now.seats c) (λ seat. 0 < length seat.hand.plan.pairs)) }
{
    match registry.seat(c) {
        Some(seat) => seat.hand.plan.len() > 0,
        None => false,
    }
}

// Whether a connection has a cell to take back.
fn has_undo(registry: &Registry, c: ConnId) -> bool
    ensures { OnTrue result (IsSomeAnd (seat_of registry.now.seats c) (λ seat. 0 < length seat.hand.undo.pairs)) }
{
    match registry.seat(c) {
        Some(seat) => seat.hand.undo.len() > 0,
        None => false,
    }
}

// The first word of a cell, if there is one.
fn word_of(cells: &MemoryCells, number: u32) -> Option<u32> {
    let at = CellRef { number };
    if cells.holds(at) {
        let [word, ..] = cells.read(at).words;
        Some(word)
    } else {
        None
    }
}

// One page of the first class, and a connection that holds its latch.
fn ready(cells: &MemoryCells, registry: &mut Registry) -> Option<ConnId> {
    let _ = cells;
    let c = registry.connect().ok()?;
    if may_take(registry, c) {
        registry.take_latch(c, 0);
    }
    Some(c)
}

#[test]
fn a_plan_is_written_a_cell_at_a_time(rt: HostRuntime) -> Result<(), Fail> {
    let mut cells = MemoryCells::new(rt.alloc(), &[0], 0)?;
    let mut registry = Registry::new(rt.alloc(), 1)?;
    let c = ready(&cells, &mut registry).expect(&rt, "a free slot");
    lay(&mut registry, c, 2, 7);
    lay(&mut registry, c, 1, 6);
    are_works(&rt, &cells, &registry);
    assert!(rt; has_plan(&registry, c));
    let is_last = write_next(&mut cells, &mut registry, Manager::Mvcc, c);
    assert!(rt; !is_last);
    assert!(rt; word_of(&cells, 1) == Some(6) && word_of(&cells, 2) == Some(0));
    assert!(rt; has_undo(&registry, c));
    assert!(rt; has_plan(&registry, c));
    let is_last = write_next(&mut cells, &mut registry, Manager::Mvcc, c);
    assert!(rt; is_last);
    assert!(rt; word_of(&cells, 2) == Some(7));
    assert!(rt; !has_undo(&registry, c) && !has_plan(&registry, c));
    Ok(())
}

#[test]
fn a_plan_is_taken_back_and_given_up(rt: HostRuntime) -> Result<(), Fail> {
    let mut cells = MemoryCells::new(rt.alloc(), &[0], 0)?;
    let mut registry = Registry::new(rt.alloc(), 1)?;
    let c = ready(&cells, &mut registry).expect(&rt, "a free slot");
    let at = CellRef { number: 1 };
    are_works(&rt, &cells, &registry);
    are_idle(&rt, &cells, &registry, at);
    assert!(rt; cells.holds(at));
    write_unlogged(&mut cells, &registry, at, filled(5));
    lay(&mut registry, c, 2, 7);
    lay(&mut registry, c, 1, 6);
    are_works(&rt, &cells, &registry);
    assert!(rt; has_plan(&registry, c));
    let _is_last = write_next(&mut cells, &mut registry, Manager::Mursiw, c);
    assert!(rt; word_of(&cells, 1) == Some(6));
    assert!(rt; has_undo(&registry, c));
    take_newest_back(&mut cells, &mut registry, c);
    assert!(rt; word_of(&cells, 1) == Some(5));
    assert!(rt; !has_undo(&registry, c) && !has_plan(&registry, c));
    Ok(())
}
