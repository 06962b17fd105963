//! What follows from the progress of connections, for the steps of a world.

ghost use Rattle.std.specs.Prelude.{◌≡◌};
ghost use Rattle.rdb_registry.specs.Seats.{Seats, mark_of};
ghost use Rattle.rdb_serial.specs.Progress.{progress_in, marks_of};

/// The marks that the progress of connections says are those of their records.
pub fn marks_are_those_of_the_records()
    ensures { (seats : Seats) → marks_of (progress_in seats) ≡ mark_of seats }
{}
