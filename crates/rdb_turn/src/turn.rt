//! The turn lock itself.
ghost use Rattle.std.specs.Prelude.{◌≡◌, ℕ, ◌+◌, ◌-◌, ◌/◌, ◌≢◌, ◌^◌, ◌<◌, ◌≤◌, ◌⊎◌, ◌++◌, ◌∷◌, [], true, false, length, min, Contains};
ghost use Rattle.std.specs.Prelude.{IfOk, IfErr, OnOk, OnErr, IsOk, MatchBool};

use crate::pass::Pass;
use crate::rule::InTurn;
use crate::steps::{
    FRONT, SERVING, SLOT, TICKET, WORDS, cut_off, halve, look_front, mark, publish, put, release,
    see, settle, stop, take, unite,
};
use crate::view::{Founding, View};
use crate::waiting::{get_ticket, wait_for, wake};
use atomic_table::Table;
use rdb_base::chronicle::Chronicle;
use rdb_base::list::NoMemory;
use std::alloc::{AllocError, Global};
use std::snapshot::Snapshot;
use std::sync::Wait;
use thiserror::Error;

/// A ticket was still out as the turn was closed.
#[derive(Clone, Copy, Debug, PartialEq, Eq, Error)]
#[error("{ticket} tickets were drawn and {serving} served")]
pub struct TurnOut {
    /// How many tickets were drawn, modulo 2^64.
    pub ticket: u64,
    /// How many were served, modulo 2^64.
    pub serving: u64,
}

/// A pass that may become no further pass was to be split.
#[derive(Clone, Copy, Debug, PartialEq, Eq, Error)]
#[error("the pass may not be split further")]
pub struct Indivisible;

/// A ticket lock round one value, with a board on which stopped clients are written.
#[derive(Drop)]
pub struct Turn<T: Chronicle> {
    table: Table<Option<T>, View<T>, Founding<T>, InTurn, Global>,
    boarded: bool,
    ghost sized: { (table.shared.table_id.words ≡ 35) × (table.shared.table_id.slots ≡ 1) },
    ghost founded: { table.shared.key.boarded ≡ boarded },
}

impl<T: Chronicle> Turn<T> {
    ghost use mathlib.Core.List.{IsPrefix};
    ghost use Rattle.rdb_turn.specs.Rule.{IsClient, Owns, OwnsSlot, KeepsPart};
    ghost use Rattle.rdb_turn.specs.Steps.{left_in, without, only};
    ghost use Rattle.rdb_turn.specs.Passes.{known, seen, founder, HasMetAll, IsPassOf, base_of, is_boarded, SawStopped};
    ghost use Rattle.rdb_turn.specs.Passes.{IsStoppedInAll, SawRunning, EndsServed, EndsOut};

    /// Lays out a lock, with or without a board.
    fn lay(alloc: Global, value: T, boarded: bool) -> Result<(Turn<T>, Pass<T>), NoMemory>
        requires { boarded ≡ true → (client : ℕ) → IsClient client → ¬ Contains (T.gone value) client }
        ensures pass { IfOk result (λ r. IsPassOf T.Chronicle r.0 r.1) }
        ensures base { IfOk result (λ r. base_of T.Chronicle r.0 ≡ T.base value) }
        ensures board { IfOk result (λ r. is_boarded r.0 ≡ boarded) }
        ensures known { IfOk result (λ r. known r.1 ≡ founder T.Chronicle value) }
        ensures owns { IfOk result (λ r. (slot : ℕ) → slot < 32 → OwnsSlot (known r.1).owned slot) }
    {
        let made = Snapshot::of(&value);
        let founding = Founding { made, boarded };
        let length = value.length();
        let mut slots = Vec::with_capacity(alloc, 1)?;
        slots.push(Some(value))?;
        let mut words = [0; WORDS];
        words[FRONT] = length;
        let Ok((table, place)) = Table::new(alloc, &words, slots, &founding) else {
            return Err(AllocError);
        };
        let pass = Pass {
            place,
            length,
            turns: 0,
            shares: u64::MAX,
            client: 0,
            ticket: 0,
        };
        Ok((Turn { table, boarded }, pass))
    }

    /// Makes a lock round a value, and its first pass, which owns the part of every slot.
    pub fn make(alloc: Global, value: T) -> Result<(Turn<T>, Pass<T>), NoMemory>
        ensures pass { IfOk result (λ r. IsPassOf T.Chronicle r.0 r.1) }
        ensures base { IfOk result (λ r. base_of T.Chronicle r.0 ≡ T.base value) }
        ensures board { IfOk result (λ r. is_boarded r.0 ≡ false) }
        ensures known { IfOk result (λ r. known r.1 ≡ founder T.Chronicle value) }
        ensures owns { IfOk result (λ r. (slot : ℕ) → slot < 32 → OwnsSlot (known r.1).owned slot) }
    {
        Turn::lay(alloc, value, false)
    }

    /// The same, and the lock has a board: who is condemned under it is a client that has stopped.
    pub fn make_boarded(alloc: Global, value: T) -> Result<(Turn<T>, Pass<T>), NoMemory>
        requires { (client : ℕ) → IsClient client → ¬ Contains (T.gone value) client }
        ensures pass { IfOk result (λ r. IsPassOf T.Chronicle r.0 r.1) }
        ensures base { IfOk result (λ r. base_of T.Chronicle r.0 ≡ T.base value) }
        ensures board { IfOk result (λ r. is_boarded r.0 ≡ true) }
        ensures known { IfOk result (λ r. known r.1 ≡ founder T.Chronicle value) }
        ensures owns { IfOk result (λ r. (slot : ℕ) → slot < 32 → OwnsSlot (known r.1).owned slot) }
    {
        Turn::lay(alloc, value, true)
    }

    /// Whether the lock has a board.
    pub fn boarded(&self) -> bool
        ensures { result ≡ is_boarded self.now }
    {
        self.boarded
    }

    /// Waits for the turn, and takes the value, which the pass has then seen. The turns entered are counted as far as the type counts.
    /// A part that the pass owns is as its owner left it last, or later where its slot was condemned, and on a board a client of its
    /// own that has not stopped was not.
    pub fn enter(&self, rt: &impl Wait, pass: &mut Pass<T>) -> T
        requires pass { IsPassOf T.Chronicle self.now pass.old }
        requires away { (known pass.old).has_turn ≡ false }
        ensures base { T.base result ≡ base_of T.Chronicle self.now }
        ensures later { IsPrefix (seen T.Chronicle pass.old) (T.history result) }
        ensures parts { (slot : ℕ) (x : T) → Owns (known pass.old).owned slot x → KeepsPart T.Chronicle x result slot }
        ensures gone { (slot : ℕ) → Contains (known pass.old).gone slot → Contains (T.gone result) slot }
        ensures alive { is_boarded self.now ≡ true → (client : ℕ) → IsClient client → OwnsSlot (known pass.old).owned client
            → ¬ Contains (known pass.old).stopped client → ¬ Contains (T.gone result) client }
        ensures known { known pass.new ≡ record (known pass.old) {
          seen = result ∷ [];
          gone = T.gone result;
          has_turn = true;
          turns = min ((known pass.old).turns + 1) (2 ^ 64 - 1);
        } }
        ensures pass { IsPassOf T.Chronicle self.now pass.new }
    {
        let board = &self.table.shared;
        let ticket = get_ticket(rt, board, &mut pass.place);
        wait_for(rt, board, &mut pass.place, ticket);
        pass.ticket = ticket;
        pass.turns = pass.turns.saturating_add(1);
        let value = take(board, &mut pass.place);
        pass.length = value.length();
        value
    }

    /// Gives the value back, publishes the length of its history, and lets the next one enter. It waits for nobody.
    pub fn leave(&self, pass: &mut Pass<T>, value: T)
        requires pass { IsPassOf T.Chronicle self.now pass.old }
        requires holds { (known pass.old).has_turn ≡ true }
        requires base { T.base value ≡ base_of T.Chronicle self.now }
        requires history { IsPrefix (seen T.Chronicle pass.old) (T.history value) }
        requires gone { (slot : ℕ) → Contains (known pass.old).gone slot → Contains (T.gone value) slot }
        requires parts { (slot : ℕ) (x : T) → (known pass.old).seen ≡ x ∷ [] → ¬ OwnsSlot (known pass.old).owned slot
            → KeepsPart T.Chronicle x value slot }
        requires condemned { is_boarded self.now ≡ true → (slot : ℕ) → Contains (T.gone value) slot → Contains (known pass.old).gone slot
            ⊎ (IsClient slot × Contains (known pass.old).stopped slot) }
        ensures known { known pass.new ≡ record (known pass.old) {
          seen = value ∷ [];
          owned = left_in (known pass.old).owned value;
          gone = T.gone value;
          has_turn = false;
        } }
        ensures pass { IsPassOf T.Chronicle self.now pass.new }
    {
        let board = &self.table.shared;
        let length = value.length();
        let next = pass.ticket.wrapping_add(1);
        put(board, &mut pass.place, value);
        publish(board, &mut pass.place, length, pass.length);
        release(board, &mut pass.place, next);
        wake(board, &mut pass.place, next);
        pass.length = length;
    }

    /// The length of the history that was published last, which the pass has then seen. It waits for nobody, also while another has the
    /// turn.
    pub fn front(&self, pass: &mut Pass<T>) -> u64
        requires { IsPassOf T.Chronicle self.now pass.old }
        ensures published { result ≡ length (seen T.Chronicle pass.new) }
        ensures later { IsPrefix (seen T.Chronicle pass.old) (seen T.Chronicle pass.new) }
        ensures inside { (known pass.old).has_turn ≡ true → (known pass.new).seen ≡ (known pass.old).seen }
        ensures known { known pass.new ≡ record (known pass.old) { seen = (known pass.new).seen } }
        ensures pass { IsPassOf T.Chronicle self.now pass.new }
    {
        pass.length = look_front(&self.table.shared, &mut pass.place);
        pass.length
    }

    /// A second pass, which has seen what this one has, and owns no part. There are fewer than 2^64 passes of a turn, and each split halves
    /// how many a pass may become. The only error is a pass that may become no further one; it stays as it is. It takes no memory.
    pub fn split(&self, pass: &mut Pass<T>) -> Result<Pass<T>, Indivisible>
        requires pass { IsPassOf T.Chronicle self.now pass.old }
        requires away { (known pass.old).has_turn ≡ false }
        ensures new { IfOk result (λ p. IsPassOf T.Chronicle self.now p) }
        ensures given { IfOk result (λ p. known p
            ≡ record (known pass.old) { owned = []; client = 0; turns = 0; shares = (known pass.old).shares / 2 }) }
        ensures kept { OnOk result (known pass.new
            ≡ record (known pass.old) { shares = (known pass.old).shares - (known pass.old).shares / 2 }) }
        ensures divided { IfOk result (λ _. 2 ≤ (known pass.old).shares) }
        ensures indivisible { IfErr result (λ _. (known pass.old).shares < 2) }
        ensures err { OnErr result (known pass.new ≡ known pass.old) }
        ensures pass { IsPassOf T.Chronicle self.now pass.new }
    {
        if pass.shares < 2 {
            return Err(Indivisible);
        }
        let given = pass.shares / 2;
        let place = halve(&self.table.shared, &mut pass.place);
        pass.shares -= given;
        Ok(Pass {
            place,
            length: pass.length,
            turns: 0,
            shares: given,
            client: 0,
            ticket: 0,
        })
    }

    /// A client's own pass, which takes over the client's part.
    pub fn split_for(&self, pass: &mut Pass<T>, client: u32) -> Result<Pass<T>, Indivisible>
        requires pass { IsPassOf T.Chronicle self.now pass.old }
        requires away { (known pass.old).has_turn ≡ false }
        requires owns { OwnsSlot (known pass.old).owned client }
        ensures new { IfOk result (λ p. IsPassOf T.Chronicle self.now p) }
        ensures given { IfOk result (λ p. known p
            ≡ record (known pass.old) {
              owned = only client (known pass.old).owned;
              client = client;
              turns = 0;
              shares = (known pass.old).shares / 2;
            }) }
        ensures owner { IfOk result (λ p. OwnsSlot (known p).owned client) }
        ensures others { (slot : ℕ) → slot ≢ client → OwnsSlot (known pass.old).owned slot → OwnsSlot (known pass.new).owned slot }
        ensures kept { OnOk result (known pass.new
            ≡ record (known pass.old) {
              owned = without client (known pass.old).owned;
              shares = (known pass.old).shares - (known pass.old).shares / 2;
            }) }
        ensures divided { IfOk result (λ _. 2 ≤ (known pass.old).shares) }
        ensures indivisible { IfErr result (λ _. (known pass.old).shares < 2) }
        ensures err { OnErr result (known pass.new ≡ known pass.old) }
        ensures pass { IsPassOf T.Chronicle self.now pass.new }
    {
        if pass.shares < 2 {
            return Err(Indivisible);
        }
        let given = pass.shares / 2;
        let board = &self.table.shared;
        mark(board, &mut pass.place, u64::from(client));
        let place = cut_off(board, &mut pass.place);
        pass.shares -= given;
        Ok(Pass {
            place,
            length: pass.length,
            turns: 0,
            shares: given,
            client,
            ticket: 0,
        })
    }

    /// Takes in another pass: this one has then seen the longer of both histories, which the other begins, and owns the parts of both.
    /// Whom either has seen stopped, and whose part the other owns, the other knew to have stopped.
    pub fn meet(&self, pass: &mut Pass<T>, other: Pass<T>)
        requires pass { IsPassOf T.Chronicle self.now pass.old }
        requires away { (known pass.old).has_turn ≡ false }
        requires other { IsPassOf T.Chronicle self.now other }
        requires other_away { (known other).has_turn ≡ false }
        ensures one { ((known pass.new).seen ≡ (known pass.old).seen) ⊎ ((known pass.new).seen ≡ (known other).seen) }
        ensures own { IsPrefix (seen T.Chronicle pass.old) (seen T.Chronicle pass.new) }
        ensures others { IsPrefix (seen T.Chronicle other) (seen T.Chronicle pass.new) }
        ensures keeps { (slot : ℕ) → OwnsSlot (known pass.old).owned slot → OwnsSlot (known pass.new).owned slot }
        ensures takes_over { (slot : ℕ) → OwnsSlot (known other).owned slot → OwnsSlot (known pass.new).owned slot }
        ensures known { known pass.new ≡ record (known pass.old) {
          seen = (known pass.new).seen;
          owned = (known pass.old).owned ++ (known other).owned;
          gone = (known pass.old).gone ++ (known other).gone;
          stopped = (known pass.old).stopped ++ (known other).stopped;
          shares = (known pass.old).shares + (known other).shares;
        } }
        ensures told { (client : ℕ) → OwnsSlot (known pass.old).owned client → Contains (known other).stopped client
            → Contains (known pass.old).stopped client }
        ensures tells { (client : ℕ) → OwnsSlot (known other).owned client → Contains (known pass.old).stopped client
            → Contains (known other).stopped client }
        ensures pass { IsPassOf T.Chronicle self.now pass.new }
    {
        let Pass {
            place,
            length,
            shares,
            ..
        } = other;
        let board = &self.table.shared;
        unite(board, &mut pass.place, place);
        pass.length = settle(board, &mut pass.place, pass.length, length);
        pass.shares = pass.shares.saturating_add(shares);
    }

    /// Writes on the board that the pass's client has stopped. It waits for nobody.
    pub fn write_stop(&self, pass: &mut Pass<T>)
        requires pass { IsPassOf T.Chronicle self.now pass.old }
        requires away { (known pass.old).has_turn ≡ false }
        requires client { IsClient (known pass.old).client }
        requires owns { OwnsSlot (known pass.old).owned (known pass.old).client }
        ensures known { known pass.new ≡ record (known pass.old) { stopped = (known pass.old).client ∷ (known pass.old).stopped } }
        ensures pass { IsPassOf T.Chronicle self.now pass.new }
    {
        stop(&self.table.shared, &mut pass.place, pass.client as usize);
    }

    /// Looks whether a client has stopped, which the pass then knows. It waits for nobody.
    /// It is true where the pass knows it already, and of a client whose part the pass owns only then.
    /// A table that the lock may have is one that keeps the rule, and in which the pass knows what it knows after the look.
    /// Where it is true, the client's word says so in some such table and in each, and every pass there that owns the client's part
    /// knows it. Where it is false, the word doesn't say so in some such table.
    pub fn stopped(&self, pass: &mut Pass<T>, client: u32) -> bool
        requires pass { IsPassOf T.Chronicle self.now pass.old }
        requires client { IsClient client }
        ensures seen_before { Contains (known pass.old).stopped client → result ≡ true }
        ensures own { OwnsSlot (known pass.old).owned client → result ≡ true → Contains (known pass.old).stopped client }
        ensures true_of_owner { result ≡ true → SawStopped T.Chronicle self.now pass.new client }
        ensures true_in_all { result ≡ true → IsStoppedInAll T.Chronicle self.now pass.new client }
        ensures false_of_word { result ≡ false → SawRunning T.Chronicle self.now pass.new client }
        ensures known { MatchBool result (known pass.new
            ≡ record (known pass.old) { stopped = client ∷ (known pass.old).stopped }) (known pass.new ≡ known pass.old) }
        ensures pass { IsPassOf T.Chronicle self.now pass.new }
    {
        see(&self.table.shared, &mut pass.place, client as usize) == 1
    }

    /// Ends the lock. Where every ticket that was drawn is served as it ends, it gives the value that lies in the slot, and that is
    /// never so while the pass has the turn.
    /// Else it answers how many tickets were drawn and served, and a value that lies in the slot is dropped. It waits for nobody.
    /// A pass that has met all others, and is not inside, ends the lock with the value for certain.
    pub fn close(self, pass: Pass<T>) -> Result<T, TurnOut>
        requires { IsPassOf T.Chronicle self pass }
        ensures base { IfOk result (λ value. T.base value ≡ base_of T.Chronicle self) }
        ensures later { IfOk result (λ value. IsPrefix (seen T.Chronicle pass) (T.history value)) }
        ensures served { IfOk result (λ value. EndsServed T.Chronicle self pass value) }
        ensures away { IfOk result (λ _. (known pass).has_turn ≡ false) }
        ensures out { IfErr result (λ e. EndsOut T.Chronicle self pass e.ticket e.serving) }
        ensures sole { HasMetAll pass → (known pass).has_turn ≡ false → IsOk result }
    {
        let Turn { table, .. } = self;
        let Pass { place, .. } = pass;
        let mut closed = table.close_with(place);
        let ticket = closed.word(TICKET);
        let serving = closed.word(SERVING);
        let value = closed.take(SLOT);
        closed.free();
        if ticket != serving {
            return Err(TurnOut { ticket, serving });
        }
        Ok(value.unwrap())
    }
}
