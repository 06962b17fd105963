//! A callback that calls dead exactly the connections of a list.

ghost use Rattle.std.specs.Prelude.{◌≡◌, ℕ, ◌≤◌, List, ◌↔◌, IsTrue, Contains, Option, Some, IfSome};
ghost use Rattle.std.specs.Bool.{OnTrue, OnFalse};
ghost use Rattle.rdb_base.specs.Memory.{after_answer};
ghost use Rattle.rdb_base.specs.Outside.{Rose};
ghost use Rattle.rdb_base.specs.declared.identity.ConnId.{ConnId};

use crate::identity::ConnId;
use crate::liveness::{Conns, Liveness};
use std::marker::Model;

/// Calls dead exactly the connections of its list. Its counts stand still at 2^64 - 1.
#[derive(Debug, Drop)]
pub struct ListedDeaths {
    dead: Conns,
    deaths: u64,
    lives: u64,
}

impl Model for ListedDeaths {
    ghost use Rattle.rdb_base.specs.Memory.{Watch};

    ghost Value = { Watch };

    ghost view = { λ watch. record { dead = watch.dead; deaths = watch.deaths; lives = watch.lives } };
}

impl ListedDeaths {
    /// Calls dead the connections of the list, and has answered nothing yet. It takes no memory.
    pub fn new(dead: Conns) -> ListedDeaths
        ensures { result ≡ record { dead = dead; deaths = 0; lives = 0 } }
    {
        ListedDeaths {
            dead,
            deaths: 0,
            lives: 0,
        }
    }
}

impl Liveness for ListedDeaths {
    ghost deaths = { λ watch. watch.deaths };

    ghost lives = { λ watch. watch.lives };

    ghost dead_ones = { λ watch. Some watch.dead };

    fn dead(&mut self, conn: ConnId) -> bool
        ensures yes { OnTrue result (Rose self.old.deaths self.new.deaths × (self.new.lives ≡ self.old.lives)) }
        ensures no { OnFalse result (Rose self.old.lives self.new.lives × (self.new.deaths ≡ self.old.deaths)) }
        ensures deaths_never_fall { self.old.deaths ≤ self.new.deaths }
        ensures lives_never_fall { self.old.lives ≤ self.new.lives }
        ensures told { IsTrue result ↔ Contains self.old.dead conn }
        ensures stays { Some self.new.dead ≡ Some self.old.dead }
        ensures after { self.new ≡ after_answer self.old result }
    {
        let is_dead = self.dead.as_slice().contains(&conn);
        if is_dead {
            self.deaths = self.deaths.saturating_add(1);
        } else {
            self.lives = self.lives.saturating_add(1);
        }
        is_dead
    }
}
