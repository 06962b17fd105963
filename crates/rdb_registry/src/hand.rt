//! What a connection has in hand: the part of its record that its own steps, and those of who repairs it, change freely. It touches its
//! own lists alone.
//!
//! | Field         | What                                                                                          |
//! |---------------|-----------------------------------------------------------------------------------------------|
//! | phase, cause  | what it is doing, and why it rolls back                                                       |
//! | undo          | what the cells held that its unfinished work has written                                      |
//! | work, plan    | the operation in work with its row and the version that it puts, and what is left of the plan |
//! | done          | the operations of its open transaction with their answers                                     |
//! | own           | the objects that its open transaction wrote                                                   |
//! | subscriptions | the events that it watches, and how far it has been told of each                              |

ghost use Rattle.std.specs.Prelude.{◌≡◌, ◌≤◌, [], OnOk};
ghost use Rattle.rdb_registry.specs.Hands.{IsClear, IsReady, undo_places};

use crate::own_writes::OwnWrites;
use rdb_base::files::Bytes;
use rdb_base::identity::{EventPlace, Phase};
use rdb_base::journal::Cause;
use rdb_base::list::{List, NoMemory};
use rdb_base::operation::{Op, Reply};
use rdb_base::ready::Ready;
use rdb_cells::{HasPairs, MAX_PLAN, Plan, Undo};
use rdb_pages::CellRef;
use std::alloc::Global;

/// How many places a connection's undo record has: one for each cell of a plan.
pub const UNDO_PLACES: usize = MAX_PLAN;

/// An operation in work, and its row as bytes: none for a deletion. `puts` is the header of the version that the plan at hand puts: none
/// before its own plan is made, also while a plan at hand is that of another version's drop.
#[derive(Debug, Drop)]
pub struct Work {
    pub op: Op,
    pub bytes: Bytes,
    pub puts: Option<CellRef>,
}

/// An event that a connection watches, and the last one of its kind that it was told.
#[derive(Clone, Copy, Debug, PartialEq, Eq)]
pub struct Subscription {
    pub class: u32,
    pub event: u32,
    pub place: EventPlace,
}

pub type Subscriptions = List<Subscription>;

/// What a connection has in hand.
#[derive(Drop)]
pub struct Hand {
    pub phase: Phase,
    pub cause: Option<Cause>,
    pub undo: Undo,
    pub work: Option<Work>,
    pub plan: Plan,
    pub done: Ready<(Op, Reply)>,
    pub own: OwnWrites,
    pub subscriptions: Subscriptions,
}

impl Hand {
    /// Nothing in hand, and no room for anything. It takes no memory.
    pub(crate) fn empty(alloc: Global) -> Hand
        ensures { IsClear result }
    {
        Hand {
            phase: Phase::Idle,
            cause: None,
            undo: Undo::empty(alloc),
            work: None,
            plan: Plan::empty(alloc),
            done: Ready::new(alloc),
            own: OwnWrites::new(alloc),
            subscriptions: List::new(alloc),
        }
    }

    /// Lays everything down, and keeps the room. It takes no memory; the cost grows with what is in hand.
    pub(crate) fn clear(&mut self, alloc: Global)
        ensures { IsClear self.new }
    {
        self.phase = Phase::Idle;
        self.cause = None;
        self.undo.clear();
        self.work = None;
        self.plan.clear();
        self.done.clear();
        self.own.clear();
        self.subscriptions = List::new(alloc);
    }

    /// Lays everything down, and reserves an undo record and a plan where their room isn't there yet.
    pub(crate) fn make_ready(&mut self, alloc: Global) -> Result<(), NoMemory>
        ensures { OnOk result (IsReady self.new) }
    {
        self.clear(alloc);
        if self.undo.room() < UNDO_PLACES {
            self.undo = Undo::reserve(alloc, UNDO_PLACES)?;
        }
        self.plan.bounded();
        if self.plan.room() < MAX_PLAN {
            self.plan = Plan::reserve(alloc, MAX_PLAN)?;
        }
        Ok(())
    }
}
