//! One function for each kind of step on the lock's words and its slot. What a step tells is said of the pass's view.
ghost use Rattle.std.specs.Prelude.{◌≡◌, ℕ, ◌<◌, ◌≤◌, [], ◌∷◌, Some, None, true, length};
ghost use Rattle.rdb_turn.specs.declared.view.Stand.TheVariants.{Away, Waits};
ghost use Rattle.atomic_table.specs.Table.{Seen};
ghost use Rattle.rdb_turn.specs.Rule.{OwnsSlot, IsClient, Keeps};
ghost use Rattle.rdb_turn.specs.Steps.{IsAt, IsSamePlace, MayRaise, MayRelease, WasAsLong, Draws, Looks, Raises, Releases, Fronts};
ghost use Rattle.rdb_turn.specs.Steps.{KeepsFirst, KeepsSecond, SawTwo, Settles, Marks, Stops, AllowsSight, Sees, half_kept};
ghost use Rattle.rdb_turn.specs.Steps.{half_given, part_kept, part_given, both_views};

use crate::plays::{
    Both, Draw, Front, Halves, KeepFirst, KeepSecond, Look, Mark, Parts, Raise, Release, See,
    Sight, Stop,
};
use crate::rule::{Board, Place};
use crate::view::View;
use rdb_base::chronicle::Chronicle;
use std::marker::Brand;

/// The word that counts the tickets drawn.
pub(crate) const TICKET: usize = 0;

/// The word that counts the tickets served.
pub(crate) const SERVING: usize = 1;

/// The word with the published length.
pub(crate) const FRONT: usize = 2;

/// The words of the board, for the clients 1 to 16.
pub(crate) const CLIENTS: usize = 16;

/// All words: the three, the board and those of who waits.
pub(crate) const WORDS: usize = 35;

/// The slot of the value.
pub(crate) const SLOT: usize = 0;

/// What stands in the word of a client that has stopped.
const STOPPED: u64 = 1;

/// Draws a ticket.
pub(crate) fn draw<T: Chronicle>(board: &Board<T>, place: &mut Place<T>) -> u64
    requires table { IsAt board.now.table_id place.old }
    requires away { (place.old.me.0.stand ≡ Away) × (0 < place.old.me.0.shares) }
    ensures same { IsSamePlace place.old place.new }
    ensures drawn { Draws place.old.me result place.new.me }
{
    board.fetch_add::<Draw>(place, TICKET, 1)
}

/// Looks who is served, and takes the slot where it is the one who looks.
pub(crate) fn look<T: Chronicle>(board: &Board<T>, place: &mut Place<T>) -> u64
    requires table { IsAt board.now.table_id place.old }
    requires waits { (n : ℕ) × (place.old.me.0.stand ≡ Waits n) }
    ensures same { IsSamePlace place.old place.new }
    ensures looked { Looks T.Chronicle place.old.me result place.new.me }
{
    board.load::<Look>(place, SERVING)
}

/// Takes the value out of the slot.
pub(crate) fn take<T: Chronicle>(board: &Board<T>, place: &mut Place<T>) -> T
    requires table { IsAt board.now.table_id place.old }
    requires slot { (value : T) × (place.old.me.1 ≡ (0, Some value) ∷ []) }
    ensures same { IsSamePlace place.old place.new }
    ensures taken { (place.old.me.1 ≡ (0, Some result) ∷ []) × (place.new.me ≡ (place.old.me.0, (0, None) ∷ [])) }
{
    board.exchange(place, SLOT, None).unwrap()
}

/// Puts a value into the slot, which is empty.
pub(crate) fn put<T: Chronicle>(board: &Board<T>, place: &mut Place<T>, value: T)
    requires table { IsAt board.now.table_id place.old }
    requires slot { place.old.me.1 ≡ (0, None) ∷ [] }
    ensures same { IsSamePlace place.old place.new }
    ensures given { place.new.me ≡ (place.old.me.0, (0, Some value) ∷ []) }
{
    let _ = board.exchange(place, SLOT, Some(value));
}

/// Publishes the length of the value that lies in the slot.
pub(crate) fn raise<T: Chronicle>(board: &Board<T>, place: &mut Place<T>, length: u64)
    requires table { IsAt board.now.table_id place.old }
    requires may { MayRaise T.Chronicle place.old.me length }
    requires boarded { board.now.key.boarded ≡ true → place.old.me.0.boarded ≡ true }
    ensures same { IsSamePlace place.old place.new }
    ensures raised { Raises T.Chronicle place.old.me place.new.me }
{
    board.store::<Raise>(place, FRONT, length);
}

/// Publishes the value that lies in the slot, where its history is as long as the one that was published last: the number stands as it is.
pub(crate) fn confirm<T: Chronicle>(board: &Board<T>, place: &mut Place<T>)
    requires table { IsAt board.now.table_id place.old }
    requires may { (long : ℕ) × MayRaise T.Chronicle place.old.me long × WasAsLong T.Chronicle place.old.me long }
    requires boarded { board.now.key.boarded ≡ true → place.old.me.0.boarded ≡ true }
    ensures same { IsSamePlace place.old place.new }
    ensures raised { Raises T.Chronicle place.old.me place.new.me }
{
    board.load::<Raise>(place, FRONT);
}

/// Publishes the value that lies in the slot, whose history has this length. `before` is the length that was published last.
pub(crate) fn publish<T: Chronicle>(
    board: &Board<T>,
    place: &mut Place<T>,
    length: u64,
    before: u64,
)
    requires table { IsAt board.now.table_id place.old }
    requires may { MayRaise T.Chronicle place.old.me length }
    requires before { WasAsLong T.Chronicle place.old.me before }
    requires boarded { board.now.key.boarded ≡ true → place.old.me.0.boarded ≡ true }
    ensures same { IsSamePlace place.old place.new }
    ensures raised { Raises T.Chronicle place.old.me place.new.me }
{
    if length == before {
        confirm(board, place);
        return;
    }
    raise(board, place, length);
}

/// Gives the slot back, and serves the next ticket.
pub(crate) fn release<T: Chronicle>(board: &Board<T>, place: &mut Place<T>, next: u64)
    requires table { IsAt board.now.table_id place.old }
    requires may { MayRelease place.old.me next }
    ensures same { IsSamePlace place.old place.new }
    ensures released { Releases place.old.me place.new.me }
{
    board.store::<Release>(place, SERVING, next);
}

/// Looks at the published length.
pub(crate) fn look_front<T: Chronicle>(board: &Board<T>, place: &mut Place<T>) -> u64
    requires table { IsAt board.now.table_id place.old }
    ensures same { IsSamePlace place.old place.new }
    ensures looked { Fronts T.Chronicle place.old.me result place.new.me }
{
    board.load::<Front>(place, FRONT)
}

/// Makes two passes of one.
pub(crate) fn halve<T: Chronicle>(board: &Board<T>, place: &mut Place<T>) -> Place<T>
    requires table { IsAt board.now.table_id place.old }
    requires away { place.old.me.0.stand ≡ Away }
    ensures same { IsSamePlace place.old place.new × (result.table_id ≡ place.old.table_id) }
    ensures kept { place.new.me ≡ (half_kept place.old.me.0, place.old.me.1) }
    ensures given { result.me ≡ (half_given place.old.me.0, []) }
{
    board.split_seat::<Halves>(place)
}

/// Notes the slot whose part is cut off next. The word is compared with the slot and left as it is.
pub(crate) fn mark<T: Chronicle>(board: &Board<T>, place: &mut Place<T>, slot: u64)
    requires table { IsAt board.now.table_id place.old }
    ensures same { IsSamePlace place.old place.new }
    ensures marked { Marks slot place.old.me place.new.me }
{
    board.compare_exchange::<Mark>(place, TICKET, slot, slot);
}

/// Cuts the part that was noted off, for a pass of its own.
pub(crate) fn cut_off<T: Chronicle>(board: &Board<T>, place: &mut Place<T>) -> Place<T>
    requires table { IsAt board.now.table_id place.old }
    requires away { place.old.me.0.stand ≡ Away }
    requires owns { OwnsSlot place.old.me.0.owned place.old.me.0.parting }
    ensures same { IsSamePlace place.old place.new × (result.table_id ≡ place.old.table_id) }
    ensures kept { place.new.me ≡ (part_kept place.old.me.0, place.old.me.1) }
    ensures given { result.me ≡ (part_given place.old.me.0, []) }
{
    board.split_seat::<Parts>(place)
}

/// Makes one pass of two, which has seen what both have.
pub(crate) fn unite<T: Chronicle>(board: &Board<T>, place: &mut Place<T>, other: Place<T>)
    requires table { IsAt board.now.table_id place.old × (other.table_id ≡ place.old.table_id) }
    requires away { (place.old.me.0.stand ≡ Away) × (other.me.0.stand ≡ Away) × (other.me.1 ≡ []) }
    ensures same { IsSamePlace place.old place.new }
    ensures both { place.new.me ≡ (both_views place.old.me.0 other.me.0, place.old.me.1) }
{
    board.join_seat::<Both>(place, other);
}

/// Keeps the first of the two values that a pass has seen, whose history is no shorter.
pub(crate) fn keep_first<T: Chronicle>(board: &Board<T>, place: &mut Place<T>)
    requires table { IsAt board.now.table_id place.old }
    requires away { place.old.me.0.stand ≡ Away }
    requires two { (a : T) × (b : T) × (place.old.me.0.seen ≡ a ∷ b ∷ []) × (length (T.history b) ≤ length (T.history a)) }
    ensures same { IsSamePlace place.old place.new }
    ensures kept { KeepsFirst T.Chronicle place.old.me place.new.me }
{
    board.load::<KeepFirst>(place, SERVING);
}

/// Keeps the second of the two values that a pass has seen, whose history is no shorter.
pub(crate) fn keep_second<T: Chronicle>(board: &Board<T>, place: &mut Place<T>)
    requires table { IsAt board.now.table_id place.old }
    requires away { place.old.me.0.stand ≡ Away }
    requires two { (a : T) × (b : T) × (place.old.me.0.seen ≡ a ∷ b ∷ []) × (length (T.history a) ≤ length (T.history b)) }
    ensures same { IsSamePlace place.old place.new }
    ensures kept { KeepsSecond T.Chronicle place.old.me place.new.me }
{
    board.load::<KeepSecond>(place, SERVING);
}

/// Keeps the longer of the two values that a pass has seen, and answers its length. `first` and `second` are the lengths of both.
pub(crate) fn settle<T: Chronicle>(
    board: &Board<T>,
    place: &mut Place<T>,
    first: u64,
    second: u64,
) -> u64
    requires table { IsAt board.now.table_id place.old }
    requires away { place.old.me.0.stand ≡ Away }
    requires two { SawTwo T.Chronicle place.old.me first second }
    ensures same { IsSamePlace place.old place.new }
    ensures settled { Settles T.Chronicle place.old.me result place.new.me }
{
    if first < second {
        keep_second(board, place);
        return second;
    }
    keep_first(board, place);
    first
}

/// Writes the word of a client whose part the pass owns.
pub(crate) fn stop<T: Chronicle>(board: &Board<T>, place: &mut Place<T>, client: usize)
    requires table { IsAt board.now.table_id place.old }
    requires client { IsClient client × OwnsSlot place.old.me.0.owned client }
    ensures same { IsSamePlace place.old place.new }
    ensures stopped { Stops client place.old.me place.new.me }
{
    board.store::<Stop>(place, FRONT + client, STOPPED);
}

/// Looks at the word of a client, in a table of which `K` tells.
fn see_in<T: Chronicle, K: Sight<Option<T>, View<T>>>(
    board: &Board<T>,
    place: &mut Place<T>,
    client: usize,
) -> u64
    requires table { IsAt board.now.table_id place.old }
    requires client { IsClient client }
    requires sight { AllowsSight (Keeps T.Chronicle board.now.key.made.value board.now.key.boarded) place.old.id K.fits }
    ensures same { IsSamePlace place.old place.new }
    ensures saw { Sees K.fits client place.old.me result place.new.me }
{
    board.load::<See<K>>(place, FRONT + client)
}

/// Looks whether a client has stopped, in a table that keeps the rule.
pub(crate) fn see<T: Chronicle>(board: &Board<T>, place: &mut Place<T>, client: usize) -> u64
    requires table { IsAt board.now.table_id place.old }
    requires client { IsClient client }
    ensures same { IsSamePlace place.old place.new }
    ensures saw { Sees (λ table view. Seen (Keeps T.Chronicle board.now.key.made.value board.now.key.boarded) place.old.id view table)
        client place.old.me result place.new.me }
{
    see_in::<T, Brand>(board, place, client)
}
