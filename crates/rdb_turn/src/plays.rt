//! What each kind of step tells the one who steps.
ghost use Rattle.std.specs.Prelude.{◌≡◌, ◌-◌};
ghost use Rattle.rdb_turn.specs.Steps.{Draws, Looks, Raises, Releases, Fronts, KeepsFirst, KeepsSecond, Marks, Stops, Sees, half_kept};
ghost use Rattle.rdb_turn.specs.Steps.{half_given, part_kept, part_given, both_views, spent_view};

use crate::view::View;
use atomic_table::{Join, Play, Split};
use rdb_base::chronicle::Chronicle;
use std::marker::{Brand, PhantomData};

/// Draws a ticket.
pub(crate) struct Draw;

impl<T> Play<Option<T>, View<T>> for Draw {
    ghost then = { λ _ me found after. Draws me found after };
}

/// Looks who is served, and takes the slot where it is the one who looks.
pub(crate) struct Look;

impl<T: Chronicle> Play<Option<T>, View<T>> for Look {
    ghost then = { λ _ me found after. Looks T.Chronicle me found after };
}

/// Publishes the length of the value that is given back.
pub(crate) struct Raise;

impl<T: Chronicle> Play<Option<T>, View<T>> for Raise {
    ghost then = { λ _ me _ after. Raises T.Chronicle me after };
}

/// Gives the slot back and lets the next one enter.
pub(crate) struct Release;

impl<T> Play<Option<T>, View<T>> for Release {
    ghost then = { λ _ me _ after. Releases me after };
}

/// Looks at the published length.
pub(crate) struct Front;

impl<T: Chronicle> Play<Option<T>, View<T>> for Front {
    ghost then = { λ _ me found after. Fronts T.Chronicle me found after };
}

/// Keeps the first of two values that were seen.
pub(crate) struct KeepFirst;

impl<T: Chronicle> Play<Option<T>, View<T>> for KeepFirst {
    ghost then = { λ _ me _ after. KeepsFirst T.Chronicle me after };
}

/// Keeps the second of two values that were seen.
pub(crate) struct KeepSecond;

impl<T: Chronicle> Play<Option<T>, View<T>> for KeepSecond {
    ghost then = { λ _ me _ after. KeepsSecond T.Chronicle me after };
}

/// Notes the slot whose part is cut off next, which is the operand.
pub(crate) struct Mark;

impl<T> Play<Option<T>, View<T>> for Mark {
    ghost then = { λ step me _ after. Marks step.first me after };
}

/// Writes a word of those who wait, which changes nothing that a pass knows.
pub(crate) struct Signal;

impl<T> Play<Option<T>, View<T>> for Signal {
    ghost then = { λ _ me _ after. after ≡ me };
}

/// Writes the word of a client.
pub(crate) struct Stop;

impl<T> Play<Option<T>, View<T>> for Stop {
    ghost then = { λ step me _ after. Stops (step.word - 2) me after };
}

/// What holds of the table at a look and of what the pass then knows, for the proof alone. A call at `Brand` picks it.
pub(crate) trait Sight<S, V> {
    ghost use Rattle.atomic_table.specs.Table.{State};

    ghost fits: { State S V → V → Type 0 };
}

impl<S, V> Sight<S, V> for Brand {
    ghost fits = { λ _ _. Unit {0} };
}

/// Looks at the word of a client.
pub(crate) struct See<K> {
    marker: PhantomData<K>,
}

impl<T, K: Sight<Option<T>, View<T>>> Play<Option<T>, View<T>> for See<K> {
    ghost then = { λ step me found after. Sees K.fits (step.word - 2) me found after };
}

/// One pass becomes two.
pub(crate) struct Halves;

impl<T> Split<View<T>> for Halves {
    ghost left = { half_kept };

    ghost right = { half_given };
}

/// One pass becomes two, of which the second owns the part that was noted.
pub(crate) struct Parts;

impl<T> Split<View<T>> for Parts {
    ghost left = { part_kept };

    ghost right = { part_given };
}

/// Two passes become one.
pub(crate) struct Both;

impl<T> Join<View<T>> for Both {
    ghost both = { both_views };

    ghost spent = { spent_view };
}
