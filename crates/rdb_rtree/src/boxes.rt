//! Boxes as values: how they lie to one another, what covers them, and which grows least. It touches no cell.
ghost use Rattle.std.specs.Prelude.{◌≡◌, ◌<◌, [], ◌∷◌, length, map};
ghost use Rattle.rdb_rtree.specs.Boxes.{spans_meet, span_lies_in, overlaps, lies_in, meets, IsLeastCover};

use crate::entry::Entry;
use rdb_base::value::Rect;

/// Returns whether two boxes have a point in common, edges included.
pub(crate) fn overlaps(a: &Rect, b: &Rect) -> bool
    ensures { result ≡ overlaps a.now b.now }
{
    meets_across(a, b) && meets_along(a, b)
}

fn meets_across(a: &Rect, b: &Rect) -> bool
    ensures { result ≡ spans_meet a.now.x1 a.now.x2 b.now.x1 b.now.x2 }
{
    a.x1 <= b.x2 && b.x1 <= a.x2
}

fn meets_along(a: &Rect, b: &Rect) -> bool
    ensures { result ≡ spans_meet a.now.y1 a.now.y2 b.now.y1 b.now.y2 }
{
    a.y1 <= b.y2 && b.y1 <= a.y2
}

/// Returns whether the first box lies in the second, edges included.
pub(crate) fn lies_in(a: &Rect, b: &Rect) -> bool
    ensures { result ≡ lies_in a.now b.now }
{
    lies_across(a, b) && lies_along(a, b)
}

fn lies_across(a: &Rect, b: &Rect) -> bool
    ensures { result ≡ span_lies_in a.now.x1 a.now.x2 b.now.x1 b.now.x2 }
{
    b.x1 <= a.x1 && a.x2 <= b.x2
}

fn lies_along(a: &Rect, b: &Rect) -> bool
    ensures { result ≡ span_lies_in a.now.y1 a.now.y2 b.now.y1 b.now.y2 }
{
    b.y1 <= a.y1 && a.y2 <= b.y2
}

/// Returns whether a box lies in the rectangle, or overlaps it.
pub(crate) fn meets(rect: &Rect, inside: bool, own: &Rect) -> bool
    ensures { result ≡ meets rect.now inside own.now }
{
    if inside {
        lies_in(own, rect)
    } else {
        overlaps(own, rect)
    }
}

/// Returns the least box that covers two.
pub(crate) fn joined(a: &Rect, b: &Rect) -> Rect
    ensures { IsLeastCover (a.now ∷ b.now ∷ []) result }
{
    Rect {
        x1: a.x1.min(b.x1),
        y1: a.y1.min(b.y1),
        x2: a.x2.max(b.x2),
        y2: a.y2.max(b.y2),
    }
}

/// Returns the least box that covers a box and those of entries.
fn cover_with(first: Rect, rest: &[Entry]) -> Rect
    ensures { IsLeastCover (first ∷ map (λ entry. entry.cover) rest.now) result }
{
    let mut cover = first;
    for entry in rest {
        cover = joined(&cover, &entry.cover);
    }
    cover
}

/// Returns the least box that covers all entries, of which there is one at least. The cost grows with their number.
pub(crate) fn cover_of(entries: &[Entry]) -> Rect
    requires { 0 < length entries.now }
    ensures { IsLeastCover (map (λ entry. entry.cover) entries.now) result }
{
    match entries {
        [first, rest @ ..] => cover_with(first.cover, rest),
        [] => unreachable!(),
    }
}

/// How many numbers a span has, its ends included.
fn span(from: i32, to: i32) -> u64 {
    u64::try_from(i64::from(to) - i64::from(from) + 1).unwrap_or(0)
}

/// Returns how many points with whole numbers a box has, edges included, and the greatest number where there are more.
pub(crate) fn size(rect: &Rect) -> u64 {
    span(rect.x1, rect.x2).saturating_mul(span(rect.y1, rect.y2))
}

/// Returns how much larger a cover becomes that takes a box in.
pub(crate) fn growth(cover: &Rect, rect: &Rect) -> u64 {
    size(&joined(cover, rect)).saturating_sub(size(cover))
}

/// Returns the place of the entry whose cover grows least where it takes a box in, and of these the smallest. The cost grows
/// with the number of entries.
pub(crate) fn least_grown(entries: &[Entry], rect: &Rect) -> usize
    requires { 0 < length entries.now }
    ensures { result < length entries.now }
{
    let mut best = 0;
    let mut least = (u64::MAX, u64::MAX);
    for (place, entry) in entries.iter().enumerate() {
        let own = (growth(&entry.cover, rect), size(&entry.cover));
        if own < least {
            best = place;
            least = own;
        }
    }
    best
}
