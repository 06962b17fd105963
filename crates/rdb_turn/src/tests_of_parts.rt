//! What a client finds of its own part, over a count that belongs to slot 1.

ghost use Rattle.std.specs.Prelude.{◌≡◌, ◌⊎◌, ◌≤◌, true, false, Contains, IfOk};
ghost use Rattle.rdb_turn.specs.Rule.{Owns, OwnsSlot};
ghost use Rattle.rdb_turn.specs.Passes.{known, IsPassOf};

use crate::{Pass, Turn};
use rdb_base::chronicle::Chronicle;
use std::alloc::Global;
use std::sync::Wait;
use std::test::Fail;

/// A count of slot 1, and whether that slot was condemned. Who condemns it may lower the count.
#[derive(Drop)]
struct Count {
    count: u32,
    condemned: bool,
}

impl Chronicle for Count {
    type Entry = ();

    type Base = ();

    type Part = u32;

    ghost use Rattle.std.specs.Prelude.{◌≤◌, [], ◌∷◌, if◌then◌else◌, ◌==◌};
    ghost use Rattle.std.proofs.Common.{le_refl, le_trans};

    ghost history = { λ _. [] };

    ghost base = { λ _. tt };

    ghost gone = { λ counted. if counted.condemned then 1 ∷ [] else [] };

    ghost part = { λ counted slot. if slot == 1 then counted.count else 0 };

    ghost later = { λ before after. after ≤ before };

    fn length(&self) -> u64 {
        0
    }

    ghost later_same = { λ a. le_refl a };

    ghost later_again = { λ a b d first second. le_trans second first };
}

/// The owner of slot 1 counts to `count` in a turn of its own, and answers what it found, which is what it left last unless the slot is
/// condemned.
fn count_to<R: Wait>(rt: &R, turn: &Turn<Count>, pass: &mut Pass<Count>, count: u32) -> u32
    requires pass { IsPassOf ⟦<Count as Chronicle>⟧ turn.now pass.old }
    requires away { (known pass.old).has_turn ≡ false }
    requires owns { OwnsSlot (known pass.old).owned 1 }
    ensures found { (x : Count) → Owns (known pass.old).owned 1 x → (result ≡ x.count)
        ⊎ (Contains (known pass.new).gone 1 × (result ≤ x.count)) }
    ensures left { (x : Count) → Owns (known pass.new).owned 1 x → x.count ≡ count }
    ensures owns { OwnsSlot (known pass.new).owned 1 }
    ensures client { (known pass.new).client ≡ (known pass.old).client }
    ensures away { (known pass.new).has_turn ≡ false }
    ensures pass { IsPassOf ⟦<Count as Chronicle>⟧ turn.now pass.new }
{
    let mut counted = turn.enter(rt, pass);
    let found = counted.count;
    counted.count = count;
    turn.leave(pass, counted);
    found
}

/// Condemns slot 1 and counts it down to 0, if its client is seen to have stopped, and says whether it did.
fn condemn<R: Wait>(rt: &R, turn: &Turn<Count>, pass: &mut Pass<Count>) -> bool
    requires pass { IsPassOf ⟦<Count as Chronicle>⟧ turn.now pass.old }
    requires away { (known pass.old).has_turn ≡ false }
    ensures gone { result ≡ true → Contains (known pass.new).gone 1 }
    ensures away { (known pass.new).has_turn ≡ false }
    ensures pass { IsPassOf ⟦<Count as Chronicle>⟧ turn.now pass.new }
{
    let stopped = turn.stopped(pass, 1);
    if !stopped {
        return false;
    }
    let mut counted = turn.enter(rt, pass);
    counted.count = 0;
    counted.condemned = true;
    turn.leave(pass, counted);
    true
}

/// Whether client 1 is seen to have stopped, by a pass that then takes the client's own pass in. It is so only where the client had.
fn look_and_meet(turn: &Turn<Count>, pass: &mut Pass<Count>, client: Pass<Count>) -> bool
    requires pass { IsPassOf ⟦<Count as Chronicle>⟧ turn.now pass.old × ((known pass.old).has_turn ≡ false) }
    requires client { IsPassOf ⟦<Count as Chronicle>⟧ turn.now client × ((known client).has_turn ≡ false) }
    requires owns { OwnsSlot (known client).owned 1 }
    ensures true_of_client { result ≡ true → Contains (known client).stopped 1 }
    ensures owns { OwnsSlot (known pass.new).owned 1 }
    ensures away { (known pass.new).has_turn ≡ false }
    ensures pass { IsPassOf ⟦<Count as Chronicle>⟧ turn.now pass.new }
{
    let stopped = turn.stopped(pass, 1);
    turn.meet(pass, client);
    stopped
}

/// A turn with a board round a count of 0, the pass of its maker, and the pass of client 1.
fn make_with_client(alloc: Global) -> Result<(Turn<Count>, Pass<Count>, Pass<Count>), Fail>
    ensures maker { IfOk result (λ r. IsPassOf ⟦<Count as Chronicle>⟧ r.0 r.1 × ((known r.1).has_turn ≡ false)) }
    ensures client { IfOk result (λ r. IsPassOf ⟦<Count as Chronicle>⟧ r.0 r.2 × ((known r.2).has_turn ≡ false)) }
    ensures owns { IfOk result (λ r. ((known r.2).client ≡ 1) × OwnsSlot (known r.2).owned 1) }
{
    let zero = Count {
        count: 0,
        condemned: false,
    };
    let (turn, mut maker) = Turn::make_boarded(alloc, zero)?;
    let client = turn.split_for(&mut maker, 1)?;
    Ok((turn, maker, client))
}

#[test]
fn a_part_is_as_its_owner_left_it_until_it_is_condemned(rt: HostRuntime) -> Result<(), Fail> {
    let (turn, mut sniffer, mut client) = make_with_client(rt.alloc())?;
    let first = count_to(&rt, &turn, &mut client, 5);
    let second = count_to(&rt, &turn, &mut client, 7);
    let early = condemn(&rt, &turn, &mut sniffer);
    let third = count_to(&rt, &turn, &mut client, 8);
    turn.write_stop(&mut client);
    let late = condemn(&rt, &turn, &mut sniffer);
    let fourth = count_to(&rt, &turn, &mut client, 9);
    assert_eq!(rt; (early, late), (false, true));
    assert_eq!(rt; [first, second, third, fourth], [0, 5, 7, 0]);
    Ok(())
}

#[test]
fn a_client_that_stopped_stays_stopped(rt: HostRuntime) -> Result<(), Fail> {
    let (turn, mut maker, mut client) = make_with_client(rt.alloc())?;
    turn.write_stop(&mut client);
    assert!(rt; look_and_meet(&turn, &mut maker, client));
    let mut again = turn.split_for(&mut maker, 1)?;
    assert!(rt;
        turn.stopped(&mut again, 1),
        "its part came back with its word"
    );
    Ok(())
}
