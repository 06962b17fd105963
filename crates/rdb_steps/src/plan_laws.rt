//! The laws of plans that are made: each keeps what every step keeps, whatever versions are settled and aimed at. Their functions do nothing.
ghost use Rattle.std.specs.Prelude.{◌≡◌, ◌<◌, ◌≤◌, ◌∷◌, ◌++◌, ℕ, List, length, slice_index, Some, None, IsSome, true};
ghost use Rattle.rdb_base.specs.declared.identity.ConnId.{ConnId};
ghost use Rattle.rdb_base.specs.declared.identity.Manager.{Manager};
ghost use Rattle.rdb_base.specs.declared.identity.Stamp.TheVariants as stamp;
ghost use Rattle.rdb_base.specs.declared.operation.Op.{Op};
ghost use Rattle.rdb_base.specs.Operations.{class_of as class_named};
ghost use Rattle.rdb_pages.specs.declared.cell.CellRef.{CellRef};
ghost use Rattle.rdb_schema.specs.declared.schema.Schema.{Schema};
ghost use Rattle.rdb_cells.specs.Places.{AreDifferent};
ghost use Rattle.rdb_cells.specs.Records.{Record, numbers_of};
ghost use Rattle.rdb_registry.specs.declared.hand.Hand.{Hand};
ghost use Rattle.rdb_registry.specs.declared.hand.Work.{Work};
ghost use Rattle.rdb_registry.specs.declared.own_writes.OwnWrite.{OwnWrite};
ghost use Rattle.rdb_registry.specs.declared.seat.Seat.{Seat};
ghost use Rattle.rdb_registry.specs.declared.seat.Transaction.{Transaction};
ghost use Rattle.rdb_registry.specs.Seats.{NoOtherHolds, seat_of, with_latch, add_latch};
ghost use Rattle.rdb_sight.specs.Versions.{Version, Versions, chain_in, with_chain_in};
ghost use Rattle.rdb_space.specs.Memory.{RegionCells, class_of};
ghost use Rattle.rdb_writes.specs.Changes.{ChangesLatches};
ghost use Rattle.rdb_writes.specs.Grounds.{Ground, HaveOneHolder, HasPlaces, WorksOn};
ghost use Rattle.rdb_writes.specs.Steps.{spans_one_plan};
ghost use Rattle.rdb_steps.specs.Invariant.{IsKept};
ghost use Rattle.rdb_steps.specs.Kept.{IsLawful, tx_of};
ghost use Rattle.rdb_steps.specs.LaidPlans.{MakesLaid, IsAtWork, IsAtDrop};
ghost use Rattle.rdb_steps.specs.Making.{with_plan, with_put, without_own};
ghost use Rattle.rdb_steps.specs.Planned.{all_but, object_named};
ghost use Rattle.rdb_steps.specs.States.{HasClasses, cell_count};

/// The own plan of an operation in work is made: a version with a serial that none had comes first in its object's chain, and the one that
/// the transaction had there goes. All is kept, and that version is aimed at.
pub fn an_own_plan_keeps_all()
    ensures { (schema : Schema) (manager : Manager) (serials serials_now : ℕ) (ids ids_now : List ℕ) (before after : Ground) (c : ConnId)
        (seat : Seat) (settled aimed : Versions) (t : Transaction) (was : Work) (plan : Record) (op : Op) (header : CellRef) (v : Version)
        (class id : ℕ) → IsLawful schema → IsKept schema manager serials ids before settled aimed → IsAtWork before.seats c seat t was
        → class < length schema.classes → class_named op ≡ class_named was.op → class_named was.op ≡ class → (object_named op).1 ≡ id
        → MakesLaid schema before after c seat (with_plan plan (Some (record { op = op; bytes = was.bytes; puts = Some header })) seat.hand)
        class id (chain_in aimed class id) (v ∷ all_but (tx_of seat t) (chain_in aimed class id))
        → v.header ≡ header.number → v.stamp ≡ stamp.By (tx_of seat t) → serials < v.serial → v.serial ≤ serials_now
        → ((k : ℕ) → slice_index ids k ≤ slice_index ids_now k) → id ≤ slice_index ids_now class
        → IsKept schema manager serials_now ids_now after settled (with_put aimed class id (tx_of seat t) v) }
{}

/// The drop of a version whose commit is done is planned before an operation's own plan. All is kept, and its object's chain without it is
/// aimed at.
pub fn a_garbage_drop_keeps_all()
    ensures { (schema : Schema) (manager : Manager) (serials : ℕ) (ids : List ℕ) (before after : Ground) (c : ConnId) (seat : Seat)
        (settled aimed : Versions) (t : Transaction) (was : Work) (plan : Record) (newer older : List Version) (v : Version) (commit : ℕ)
        (class id : ℕ) → IsLawful schema → IsKept schema manager serials ids before settled aimed → IsAtWork before.seats c seat t was
        → class < length schema.classes → class_named was.op ≡ class → was.puts ≡ None
        → chain_in aimed class id ≡ newer ++ v ∷ older → v.stamp ≡ stamp.Done commit
        → MakesLaid schema before after c seat (with_plan plan (Some was) seat.hand) class id (chain_in aimed class id) (newer ++ older)
        → IsKept schema manager serials ids after settled (with_chain_in aimed class id (newer ++ older)) }
{}

/// Where an undo record spans one plan, the latch of the first object that a transaction wrote is taken, and the drop of its version is
/// planned. All is kept, and the object's chain without it is aimed at.
pub fn an_own_drop_keeps_all()
    ensures { (schema : Schema) (manager : Manager) (serials : ℕ) (ids : List ℕ) (before middle after : Ground) (c : ConnId) (seat : Seat)
        (settled aimed : Versions) (t : Transaction) (first : OwnWrite) (rest : List OwnWrite) (plan : Record) → IsLawful schema
        → IsKept schema manager serials ids before settled aimed → spans_one_plan manager ≡ true
        → IsAtDrop before.seats c seat t first rest → first.class < length schema.classes → NoOtherHolds before.seats c.slot first.class
        → ChangesLatches before middle c.slot seat (with_latch seat.latches first.class) → HaveOneHolder middle.seats
        → seat_of middle.seats c ≡ Some (add_latch first.class seat)
        → MakesLaid schema middle after c (add_latch first.class seat) (with_plan plan None seat.hand) first.class first.id
        (chain_in aimed first.class first.id) (all_but (tx_of seat t) (chain_in aimed first.class first.id))
        → IsKept schema manager serials ids after settled (without_own aimed first.class first.id (tx_of seat t)) }
{}

/// An undo record with a place for each cell that a region can have has a place for each cell of a plan that it hasn't logged.
pub fn a_place_for_each_cell_is_enough()
    ensures { (schema : Schema) (memory : RegionCells) (hand : Hand) → HasClasses schema memory
        → AreDifferent (numbers_of hand.undo.pairs) → AreDifferent (numbers_of hand.plan.pairs)
        → ((n : ℕ) → WorksOn hand n → IsSome (class_of memory n)) → cell_count schema memory ≤ hand.undo.room → HasPlaces hand }
{}
