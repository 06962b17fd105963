//! The trait of the callback that says whether a connection's task is dead.

ghost use Rattle.std.specs.Prelude.{◌≡◌, ℕ, ◌≤◌, List, ◌↔◌, IsTrue, Contains, Option, IfSome};
ghost use Rattle.std.specs.Bool.{OnTrue, OnFalse};
ghost use Rattle.rdb_base.specs.Outside.{Rose};
ghost use Rattle.rdb_base.specs.declared.identity.ConnId.{ConnId};

use crate::identity::ConnId;
use crate::list::List;

pub type Conns = List<ConnId>;

/// Says whether the task of a connection is dead.
pub trait Liveness {
    /// How often it has said yes.
    ghost deaths: { Self → ℕ };

    /// How often it has said no.
    ghost lives: { Self → ℕ };

    /// The connections that it calls dead, where it tells them.
    ghost dead_ones: { Self → Option (List ConnId) };

    /// Whether the connection's task is dead.
    fn dead(&mut self, conn: ConnId) -> bool
        ensures yes { OnTrue result (Rose (deaths self.old) (deaths self.new) × (lives self.new ≡ lives self.old)) }
        ensures no { OnFalse result (Rose (lives self.old) (lives self.new) × (deaths self.new ≡ deaths self.old)) }
        ensures deaths_never_fall { deaths self.old ≤ deaths self.new }
        ensures lives_never_fall { lives self.old ≤ lives self.new }
        ensures told { IfSome (dead_ones self.old) (λ conns. IsTrue result ↔ Contains conns conn) }
        ensures stays { dead_ones self.new ≡ dead_ones self.old };
}
