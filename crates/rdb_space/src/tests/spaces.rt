//! Owners and free maps, without cells.
ghost use Rattle.std.specs.Prelude.{◌≡◌};

use crate::space::Space;
use rdb_pages::CellRef;
use std::process::Abort;
use std::test::*;

/// How many classes the tests have.
const CLASSES: u32 = 8;

fn grant(rt: &impl Abort, space: &mut Space, class: u32) -> u32
    ensures { space.new.classes ≡ space.old.classes }
{
    assert!(rt; class < space.classes());
    match space.lowest() {
        Some(_) => space.grant(class),
        None => panic!(rt; "every page has an owner"),
    }
}

fn follow(rt: &impl Abort, space: &mut Space, number: u32, free: bool) {
    let at = CellRef { number };
    assert!(rt;
        number > 0 && at.page() < space.pages() && space.owner(at.page()).is_some(),
        "no cell {number}"
    );
    space.follow(at, free);
}

fn number_after(space: &Space, class: u32, above: u32) -> Option<u32> {
    space
        .free_after(class, CellRef { number: above })
        .map(|at| at.number)
}

#[test]
fn pages_are_granted_lowest_first(rt: HostRuntime) -> Result<(), Fail> {
    let mut space = Space::new(rt.alloc(), 2, CLASSES)?;
    assert_eq!(rt; space.room(7), 128);
    assert_eq!(rt; space.lowest(), Some(0));
    assert_eq!(rt; grant(&rt, &mut space, 7), 0);
    assert_eq!(rt; grant(&rt, &mut space, 5), 1);
    assert_eq!(rt; space.lowest(), None);
    Ok(())
}

#[test]
fn room_counts_free_cells_and_unowned_pages(rt: HostRuntime) -> Result<(), Fail> {
    let mut space = Space::new(rt.alloc(), 3, CLASSES)?;
    let first = grant(&rt, &mut space, 7);
    let second = grant(&rt, &mut space, 5);
    assert_eq!(rt; (first, second), (0, 1));
    assert_eq!(rt;
        (space.room(7), space.room(5), space.room(6), space.room(90)),
        (128, 128, 64, 64)
    );
    Ok(())
}

#[test]
fn free_cells_are_those_of_the_class(rt: HostRuntime) -> Result<(), Fail> {
    let mut space = Space::new(rt.alloc(), 200, CLASSES)?;
    for _ in 0..64 {
        let _page = grant(&rt, &mut space, 0);
        let _page = grant(&rt, &mut space, 1);
        let _page = grant(&rt, &mut space, 0);
    }
    for place in 0..64 {
        follow(&rt, &mut space, 129 + place, false);
    }
    for (class, above, next) in [
        (0, 0, Some(1)),
        (0, 63, Some(64)),
        (0, 64, Some(193)),
        (1, 1, Some(65)),
        (1, 65, Some(66)),
        (1, 4_160, Some(4_289)),
        (2, 0, None),
        (90, 0, None),
        (0, 12_288, None),
        (0, 4_294_967_295, None),
    ] {
        assert_eq!(rt;
            number_after(&space, class, above),
            next,
            "class {class} above {above}"
        );
    }
    Ok(())
}

#[test]
fn a_free_map_follows_each_write(rt: HostRuntime) -> Result<(), Fail> {
    let mut space = Space::new(rt.alloc(), 2, CLASSES)?;
    let _first = grant(&rt, &mut space, 3);
    let _second = grant(&rt, &mut space, 3);
    for number in [1, 2, 64, 65] {
        follow(&rt, &mut space, number, false);
    }
    assert_eq!(rt; space.room(3), 124);
    assert_eq!(rt; number_after(&space, 3, 63), Some(66));
    follow(&rt, &mut space, 64, true);
    assert_eq!(rt; space.room(3), 125);
    assert_eq!(rt; number_after(&space, 3, 63), Some(64));
    Ok(())
}
