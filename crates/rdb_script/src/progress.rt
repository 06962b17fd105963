//! How far a script has come: what its lines made, and what stands open.

ghost use Rattle.std.specs.Prelude.{◌≡◌, ◌<◌, ◌+◌, ◌∷◌, ◌++◌, [], OnOk, Some, None, true, false};
ghost use Rattle.std.specs.Option.{option_map, option_map_or};
ghost use Rattle.rdb_script.specs.Scripts.{start, writes, may_have, takes, is_watched, is_idle, is_bare, may_stand, assigned_by, assign, with_line, with_ended, after};

use crate::names::{Assigned, Names};
use crate::statement::{Member, Statement};
use crate::unit::{ScriptLine, ScriptLines, Unit, Units};
use rdb_base::identity::Kind;
use rdb_base::list::{List, NoMemory};
use rdb_base::operation::Op;
use std::alloc::Global;

/// The most operations of a transaction.
const MAX_OPERATIONS: usize = 1_000;

/// The most transactions of a script.
const MAX_TRANSACTIONS: u32 = 10_000;

/// A transaction that isn't ended.
#[derive(Debug, Drop, PartialEq, Eq)]
pub struct Running {
    pub kind: Kind,
    pub retries: u32,
    pub lines: ScriptLines,
}

/// The events that were watched. Each event of the schema stands here at most once.
pub type Watched = List<Member>;

/// How far a script has come.
#[derive(Drop)]
pub struct Progress {
    pub stop: Option<u64>,
    pub units: Units,
    pub running: Option<Running>,
    /// How many transactions have begun, at most 10,000.
    pub begun: u32,
    pub names: Names,
    pub watched: Watched,
}

fn writes(op: &Op) -> bool
    ensures { result ≡ writes op.now }
{
    match op {
        Op::New { .. } | Op::Put { .. } | Op::Del { .. } => true,
        Op::Get { .. }
        | Op::Find { .. }
        | Op::Seek { .. }
        | Op::Area { .. }
        | Op::Prefix { .. }
        | Op::Count { .. } => false,
    }
}

/// Whether a transaction may have an operation: one that only reads has no write.
fn may_have(kind: Kind, op: &Op) -> bool
    ensures { result ≡ may_have kind op.now }
{
    match kind {
        Kind::ReadWrite => true,
        Kind::ReadOnly => !writes(op),
    }
}

/// What the name of an operation's line stands for.
fn assigned_by(op: &Op) -> Option<Assigned>
    ensures { result ≡ assigned_by op.now }
{
    match op {
        Op::New { class, .. } | Op::Find { class, .. } => Some(Assigned {
            class: *class,
            index: None,
        }),
        Op::Seek { class, index, .. } => Some(Assigned {
            class: *class,
            index: Some(*index),
        }),
        _ => None,
    }
}

fn is_watched(watched: &[Member], event: Member) -> bool
    ensures { result ≡ is_watched watched.now event }
{
    watched.iter().any(|other| other.class == event.class && other.place == event.place)
}

/// Assigns what a line assigns.
fn assign(names: &mut Names, line: &ScriptLine) -> Result<(), NoMemory>
    ensures ok { OnOk result (names.new ≡ assign names.old line.now.name (assigned_by line.now.op)) }
{
    if let (Some(name), Some(assigned)) = (&line.name, assigned_by(&line.op)) {
        names.assign(name.as_str(), assigned)?;
    }
    Ok(())
}

impl Progress {
    /// Before the first line. It takes no memory.
    pub fn new(alloc: Global) -> Progress
        ensures { result ≡ start }
    {
        Progress {
            stop: None,
            units: List::new(alloc),
            running: None,
            begun: 0,
            names: Names::new(alloc),
            watched: List::new(alloc),
        }
    }

    /// Whether no transaction is open.
    pub fn is_idle(&self) -> bool
        ensures { result ≡ is_idle self.now }
    {
        self.running.is_none()
    }

    fn is_bare(&self) -> bool
        ensures { result ≡ is_bare self.now }
    {
        self.is_idle() && self.stop.is_none() && self.units.is_empty()
    }

    /// Whether the open transaction takes one more operation.
    fn takes(&self, op: &Op) -> bool
        ensures { result ≡ option_map_or (takes op.now) self.now.running false }
    {
        match &self.running {
            Some(running) => running.lines.len() < MAX_OPERATIONS && may_have(running.kind, op),
            None => false,
        }
    }

    /// Whether a statement may stand after those before it: `stop` before all else; `begin`, `watch` and `poll` outside a
    /// transaction, of which there are at most 10,000; at most 1,000 operations and an end inside; an event is watched
    /// once, and polled after that.
    pub fn may_stand(&self, statement: &Statement) -> bool
        ensures { result ≡ may_stand self.now statement.now }
    {
        match statement {
            Statement::Nothing => true,
            Statement::Stop(_) => self.is_bare(),
            Statement::Begin { .. } => self.is_idle() && self.begun < MAX_TRANSACTIONS,
            Statement::Operation(line) => self.takes(&line.op),
            Statement::Commit | Statement::Rollback => !self.is_idle(),
            Statement::Watch { class, event } => {
                self.is_idle() && !self.has_watched(*class, *event)
            }
            Statement::Poll { class, event } => self.is_idle() && self.has_watched(*class, *event),
        }
    }

    /// Whether an earlier line watches the event.
    fn has_watched(&self, class: u32, event: u32) -> bool
        ensures { result ≡ is_watched self.now.watched (record { class = class; place = event }) }
    {
        is_watched(
            self.watched.as_slice(),
            Member {
                class,
                place: event,
            },
        )
    }

    /// Ends the transaction that is open.
    fn end(&mut self, commits: bool) -> Result<(), NoMemory>
        ensures { OnOk result (self.new ≡ record self.old { units = with_ended self.old.units commits self.old.running; running = None }) }
    {
        match self.running.take() {
            Some(running) => self.units.push(Unit::Tx {
                kind: running.kind,
                retries: running.retries,
                lines: running.lines,
                commits,
            })?,
            None => {}
        }
        Ok(())
    }

    /// Adds an operation to the transaction that is open.
    fn operate(&mut self, line: ScriptLine) -> Result<(), NoMemory>
        ensures { OnOk result (self.new ≡ record self.old { running = option_map (with_line line) self.old.running; names = assign self.old.names line.name (assigned_by line.op) }) }
    {
        assign(&mut self.names, &line)?;
        match &mut self.running {
            Some(running) => running.lines.push(line)?,
            None => {}
        }
        Ok(())
    }

    /// Notes that an event is watched.
    fn watch(&mut self, class: u32, event: u32) -> Result<(), NoMemory>
        ensures { OnOk result (self.new ≡ record self.old { units = self.old.units ++ Unit.Watch class event ∷ []; watched = self.old.watched ++ (record { class = class; place = event }) ∷ [] }) }
    {
        self.watched.push(Member {
            class,
            place: event,
        })?;
        self.units.push(Unit::Watch { class, event })?;
        Ok(())
    }

    /// Begins a transaction.
    fn begin(&mut self, alloc: Global, kind: Kind, retries: u32)
        requires { self.old.begun < 10000 }
        ensures { self.new ≡ record self.old { running = Some (record { kind = kind; retries = retries; lines = [] }); begun = self.old.begun + 1 } }
    {
        self.running = Some(Running {
            kind,
            retries,
            lines: List::new(alloc),
        });
        self.begun += 1;
    }

    /// Goes on behind a statement that may stand. The cost is that of one look-up of its name.
    pub fn take(&mut self, alloc: Global, statement: Statement) -> Result<(), NoMemory>
        requires { may_stand self.old statement ≡ true }
        ensures { OnOk result (self.new ≡ after self.old statement) }
    {
        match statement {
            Statement::Nothing => Ok(()),
            Statement::Stop(step) => {
                self.stop = Some(step);
                Ok(())
            }
            Statement::Begin { kind, retries } => {
                self.begin(alloc, kind, retries);
                Ok(())
            }
            Statement::Operation(line) => self.operate(line),
            Statement::Commit => self.end(true),
            Statement::Rollback => self.end(false),
            Statement::Watch { class, event } => self.watch(class, event),
            Statement::Poll { class, event } => self.units.push(Unit::Poll { class, event }),
        }
    }
}
