//! The law of the next event, the contract of a function that does nothing.

ghost use Rattle.std.specs.Prelude.{◌≡◌, ℕ, List, Option};
ghost use Rattle.rdb_base.specs.declared.journal.Entry.{Entry};
ghost use Rattle.rdb_schema.specs.declared.schema.Schema.{Schema};
ghost use Rattle.rdb_events.specs.NextEvent.{IsNextOf};

/// Behind a place there is at most one next event, and it isn't so that none is behind it.
pub fn next_event_is_one()
    ensures { (schema : Schema) (class event : ℕ) (journal : List Entry) (place : ℕ × ℕ) (one other : Option (ℕ × ℕ)) →
        IsNextOf schema class event journal place one → IsNextOf schema class event journal place other → one ≡ other }
{}
