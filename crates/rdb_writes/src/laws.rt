//! Laws of the work of connections, for whoever changes their records, or which cells there are. Their functions do nothing.

ghost use Rattle.std.specs.Prelude.{◌≡◌, [], ℕ, Some, None, IsSome, replicate};
ghost use Rattle.rdb_base.specs.declared.identity.ConnId.{ConnId};
ghost use Rattle.rdb_cells.specs.Images.{SameImage};
ghost use Rattle.rdb_cells.specs.Records.{taken_back};
ghost use Rattle.rdb_registry.specs.declared.hand.Hand.{Hand};
ghost use Rattle.rdb_registry.specs.declared.seat.Seat.{Seat};
ghost use Rattle.rdb_registry.specs.Seats.{seat_in, NoneHolds};
ghost use Rattle.rdb_writes.specs.Changes.{ChangesHand, ChangesLatches, Grows, Comes, Goes};
ghost use Rattle.rdb_writes.specs.Grounds.{Ground, AreWorks, HaveOneHolder, IsLatched, settled_image, aimed_image};

/// A cell of a class is settled by the undo record of whoever holds the class's latch, and stands as it is settled where nobody does. So a
/// reader of a class needs one record at most.
pub fn a_class_is_settled_by_its_holder()
    ensures holder { (g : Ground) (slot n : ℕ) (seat : Seat) → AreWorks g → HaveOneHolder g.seats → seat_in g.seats slot ≡ Some seat
        → IsLatched g seat n → settled_image g n ≡ taken_back seat.hand.undo.pairs g.image n }
    ensures nobody { (g : Ground) (class n : ℕ) → AreWorks g → g.class_of n ≡ Some class → NoneHolds g.seats class
        → settled_image g n ≡ g.image n }
{}

/// A hand that works on cells of its classes alone may change. Where its undo record stays, the settled image does; where the record is
/// emptied, the cells of its classes are settled as they stand; and those of other classes are settled as they were.
pub fn a_hand_may_change()
    ensures works { (before after : Ground) (c : ConnId) (seat : Seat) (hand : Hand) → AreWorks before → HaveOneHolder before.seats
        → ChangesHand before after c seat hand → AreWorks after }
    ensures same { (before after : Ground) (c : ConnId) (seat : Seat) (hand : Hand) → AreWorks before → HaveOneHolder before.seats
        → ChangesHand before after c seat hand → hand.undo.pairs ≡ seat.hand.undo.pairs
        → SameImage (settled_image after) (settled_image before) }
    ensures emptied { (before after : Ground) (c : ConnId) (seat : Seat) (hand : Hand) (n : ℕ) → AreWorks before
        → HaveOneHolder before.seats → ChangesHand before after c seat hand → hand.undo.pairs ≡ [] → IsLatched before seat n
        → settled_image after n ≡ after.image n }
    ensures others { (before after : Ground) (c : ConnId) (seat : Seat) (hand : Hand) (n : ℕ) → AreWorks before
        → HaveOneHolder before.seats → ChangesHand before after c seat hand → ¬ IsLatched before seat n
        → settled_image after n ≡ settled_image before n }
{}

/// Latches may be taken, and those given up of whose classes no cell is worked on. The settled image stays.
pub fn latches_may_change()
    ensures works { (before after : Ground) (slot : ℕ) (seat : Seat) (latches : ℕ) → AreWorks before
        → ChangesLatches before after slot seat latches → AreWorks after }
    ensures settled { (before after : Ground) (slot : ℕ) (seat : Seat) (latches : ℕ)
        → ChangesLatches before after slot seat latches → SameImage (settled_image after) (settled_image before) }
{}

/// Cells may come. Of those that there were, the settled image and each image aimed at stay; those that come stand in each as they are.
pub fn cells_may_come()
    ensures works { (before after : Ground) → AreWorks before → Grows before after → AreWorks after }
    ensures settled { (before after : Ground) (n : ℕ) → AreWorks before → Grows before after → IsSome (before.class_of n)
        → settled_image after n ≡ settled_image before n }
    ensures aimed { (before after : Ground) (hand : Hand) (n : ℕ) → Grows before after → IsSome (before.class_of n)
        → aimed_image after hand n ≡ aimed_image before hand n }
    ensures new { (before after : Ground) (n : ℕ) → AreWorks before → Grows before after → before.class_of n ≡ None
        → settled_image after n ≡ after.image n }
    ensures unplanned { (before after : Ground) (slot n : ℕ) (seat : Seat) → AreWorks before → Grows before after
        → seat_in before.seats slot ≡ Some seat → before.class_of n ≡ None → aimed_image after seat.hand n ≡ after.image n }
{}

/// Where there is no connection, nobody works anywhere, and the cells are settled as they stand. Connections come and go, with nothing to
/// take back: the settled image stays.
pub fn connections_come_and_go()
    ensures none { (g : Ground) (slots : ℕ) → g.seats ≡ replicate slots None → AreWorks g }
    ensures none_settled { (g : Ground) (slots : ℕ) → g.seats ≡ replicate slots None → SameImage (settled_image g) g.image }
    ensures come { (before after : Ground) (slot : ℕ) (seat : Seat) → Comes before after slot seat → AreWorks before → AreWorks after }
    ensures come_settled { (before after : Ground) (slot : ℕ) (seat : Seat) → Comes before after slot seat
        → SameImage (settled_image after) (settled_image before) }
    ensures go { (before after : Ground) (slot : ℕ) (seat : Seat) → Goes before after slot seat → AreWorks before → AreWorks after }
    ensures go_settled { (before after : Ground) (slot : ℕ) (seat : Seat) → Goes before after slot seat
        → SameImage (settled_image after) (settled_image before) }
{}
