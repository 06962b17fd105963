//! The laws of the moves of one record that write no cell: a connection comes, goes or is condemned, and its transaction begins, is told
//! of, rolls back, is marked and ends. What is kept of a World is kept by each, and of which versions. Their functions do nothing.
ghost use Rattle.std.specs.Prelude.{◌≡◌, ◌⊎◌, ℕ, [], length, None};
ghost use Rattle.rdb_base.specs.declared.identity.ConnId.{ConnId};
ghost use Rattle.rdb_base.specs.declared.identity.Kind.{Kind};
ghost use Rattle.rdb_base.specs.declared.identity.Kind.TheVariants as kind;
ghost use Rattle.rdb_base.specs.declared.identity.Manager.{Manager};
ghost use Rattle.rdb_base.specs.declared.identity.Phase.TheVariants as phase;
ghost use Rattle.rdb_base.specs.declared.journal.Cause.{Cause};
ghost use Rattle.rdb_schema.specs.declared.schema.Schema.{Schema};
ghost use Rattle.rdb_cells.specs.Records.{Record};
ghost use Rattle.rdb_registry.specs.declared.seat.Condemned.{Condemned};
ghost use Rattle.rdb_registry.specs.declared.seat.Seat.{Seat};
ghost use Rattle.rdb_registry.specs.Seats.{IsNew, all_latches, with_condemned};
ghost use Rattle.rdb_sight.specs.Versions.{Versions};
ghost use Rattle.rdb_transactions.specs.Hands.{without_story};
ghost use Rattle.rdb_transactions.specs.Records.{on_hand, latched, exchanged, opened, closed, becomes_marked, rolls_back};
ghost use Rattle.rdb_writes.specs.Changes.{Comes, Goes};
ghost use Rattle.rdb_writes.specs.Grounds.{Ground};
ghost use Rattle.rdb_steps.specs.Kept.{IsLawful};
ghost use Rattle.rdb_steps.specs.Lists.{the_settled, taken_over};
ghost use Rattle.rdb_steps.specs.Moves.{KeptBy, KeptByBoth, KeptByGivingUp, KeptBySettling, ChangesSeat, ArePlaced, TellsAlone, HasNothingLeft, IsOver, MayBegin, aimed_without};

/// A connection comes: both lists of versions stay.
pub fn a_connection_that_comes_keeps_all()
    ensures { (schema : Schema) (manager : Manager) (before after : Ground) (c : ConnId) (seat : Seat) → IsLawful schema
        → Comes before after c.slot seat → IsNew c seat → KeptByBoth schema manager before after }
{}

/// A connection goes that left nothing open: both lists of versions stay. So goes an idle one, and a condemned one that was repaired.
pub fn a_connection_that_goes_keeps_all()
    ensures { (schema : Schema) (manager : Manager) (before after : Ground) (slot : ℕ) (seat : Seat) → IsLawful schema
        → ArePlaced before.seats → Goes before after slot seat → HasNothingLeft seat → KeptByBoth schema manager before after }
{}

/// A story grows, is moved out of its record, or back, or an event is watched, or told: both lists of versions stay.
pub fn what_is_told_keeps_all()
    ensures { (schema : Schema) (manager : Manager) (before after : Ground) (c : ConnId) (seat : Seat) (change : Seat → Seat)
        → IsLawful schema → ChangesSeat before after c seat change → TellsAlone seat (change seat)
        → KeptByBoth schema manager before after }
{}

/// A transaction of an idle connection begins: both lists of versions stay. Under the manager of a single writer, a writer has every latch
/// and another undo record, which is empty.
pub fn a_transaction_that_begins_keeps_all()
    ensures { (schema : Schema) (manager : Manager) (before after : Ground) (c : ConnId) (seat : Seat) (wanted : Kind) (begun snapshot : ℕ)
        (spare : Record) → IsLawful schema → ArePlaced before.seats
        → ChangesSeat before after c seat
        (λ s. exchanged manager spare (latched manager (length schema.classes) (opened wanted begun snapshot s)))
        → seat.hand.phase ≡ phase.Idle → spare.pairs ≡ [] → MayBegin manager before.seats c.slot wanted
        → KeptByBoth schema manager before after }
{}

/// A roll-back of a live writer begins, between two plans: the settled versions stay, and what it aimed at is no longer spoken of.
pub fn a_roll_back_that_begins_keeps_the_settled()
    ensures { (schema : Schema) (manager : Manager) (before after : Ground) (c : ConnId) (seat : Seat) (cause : Cause) → IsLawful schema
        → ChangesSeat before after c seat (rolls_back manager cause) → seat.condemned ≡ None → seat.hand.plan.pairs ≡ []
        → (seat.hand.phase ≡ phase.Running kind.ReadWrite) ⊎ (seat.hand.phase ≡ phase.Writing)
        → KeptByGivingUp schema manager before after seat }
{}

/// A live writer's transaction is marked: what it aimed at is settled. Where many may write it holds no latch, so this is nothing.
pub fn a_mark_keeps_what_it_settles()
    ensures { (schema : Schema) (manager : Manager) (before after : Ground) (c : ConnId) (seat : Seat) (commit : ℕ) → IsLawful schema
        → ChangesSeat before after c seat (becomes_marked commit) → seat.condemned ≡ None
        → seat.hand.phase ≡ phase.Running kind.ReadWrite → KeptBySettling schema manager before after seat }
{}

/// A transaction is over of which nothing is left open: both lists of versions stay.
pub fn a_transaction_that_ends_keeps_all()
    ensures { (schema : Schema) (manager : Manager) (before after : Ground) (c : ConnId) (seat : Seat) (change : Seat → Seat)
        → IsLawful schema → ArePlaced before.seats → ChangesSeat before after c seat change → HasNothingLeft seat
        → IsOver seat (change seat) → KeptByBoth schema manager before after }
{}

/// A record is over once its transaction is closed and its story is told: so after a read, after the last step of a roll-back, and after
/// the last stamp of a commit.
pub fn a_closed_record_is_over()
    ensures closed { (manager : Manager) (spare : Record) (seat : Seat) → HasNothingLeft seat → seat.hand.work ≡ None → spare.pairs ≡ []
        → seat.hand.done.items ≡ [] → IsOver seat (closed (exchanged manager spare seat)) }
    ensures told { (manager : Manager) (spare : Record) (seat : Seat) → HasNothingLeft seat → seat.hand.work ≡ None
        → spare.pairs ≡ [] → IsOver seat (closed (exchanged manager spare (on_hand without_story seat))) }
    ensures at_once { (manager : Manager) (spare : Record) (cause : Cause) (seat : Seat) → HasNothingLeft seat → spare.pairs ≡ []
        → IsOver seat (closed (exchanged manager spare (on_hand without_story (rolls_back manager cause seat)))) }
{}

/// A live connection is condemned: the settled versions stay, and what it aimed at is no longer spoken of, but where it drops a version.
pub fn a_condemnation_keeps_the_settled()
    ensures { (schema : Schema) (manager : Manager) (before after : Ground) (d : ConnId) (seat : Seat) (condemned : Condemned)
        → IsLawful schema → ChangesSeat before after d seat (with_condemned condemned) → seat.condemned ≡ None
        → KeptBy schema manager before after the_settled (aimed_without seat) }
{}

/// Without a latch nothing is taken over from another list; with all latches everything is.
pub fn what_is_taken_over()
    ensures nothing { (seat : Seat) (versions others : Versions) → seat.latches ≡ 0 → taken_over seat versions others ≡ versions }
    ensures everything { (seat : Seat) (versions others : Versions) → seat.latches ≡ all_latches (length versions)
        → length others ≡ length versions → taken_over seat versions others ≡ others }
{}
