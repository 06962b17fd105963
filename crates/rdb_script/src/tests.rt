use crate::fault::ScheduleFault;
use crate::item::Item;
use crate::{job_files, schedule};
use rdb_base::files::{Files, ReadFault};
use std::alloc::Global;
use std::process::Abort;
use std::test::Fail;

/// The text is refused at this item.
fn expect_refused(rt: &impl Abort, alloc: Global, text: &[u8], clients: u32, item: u64) {
    match schedule(alloc, text, clients) {
        Ok(_) => assert!(rt; false, "a text was read"),
        Err(fault) => assert_eq!(rt; fault, ScheduleFault::Item { item }),
    }
}

#[test]
fn items_are_read_as_written(rt: HostRuntime) -> Result<(), Fail> {
    let text = b"\t1* 2\r\n16*\ns s*   !16 !1\n\n4294967295";
    let items = schedule(rt.alloc(), text, u32::MAX)?;
    let written = [
        Item::Unit(1),
        Item::Step(2),
        Item::Unit(16),
        Item::Sniff,
        Item::SniffUnit,
        Item::Dead(16),
        Item::Dead(1),
        Item::Step(4294967295),
    ];
    assert_eq!(rt; items.as_slice(), written.as_slice());
    Ok(())
}

#[test]
fn a_text_without_words_is_an_empty_schedule(rt: HostRuntime) -> Result<(), Fail> {
    for text in [b"".as_slice(), b" \t\r\n\n".as_slice()] {
        let items = schedule(rt.alloc(), text, 0)?;
        assert!(rt; items.is_empty());
    }
    Ok(())
}

#[test]
fn the_first_word_that_is_no_item_is_named(rt: HostRuntime) {
    let refused: [(&[u8], u32, u64); 26] = [
        (b"9", 2, 1),
        (b"3", 2, 1),
        (b"1 2 3* 4", 2, 3),
        (b"!3", 2, 1),
        (b"1", 0, 1),
        (b"0", 2, 1),
        (b"1 0*", 2, 2),
        (b"!0", 2, 1),
        (b"01", 2, 1),
        (b"!01", 2, 1),
        (b"+1", 2, 1),
        (b"-1", 2, 1),
        (b"1**", 2, 1),
        (b"1 *", 2, 2),
        (b"!", 2, 1),
        (b"!1*", 2, 1),
        (b"! 1", 2, 1),
        (b"S", 2, 1),
        (b"ss", 2, 1),
        (b"s * s", 2, 2),
        (b"1,2", 2, 1),
        (b"1 \r2", 2, 2),
        (b"1\r", 2, 1),
        (b"1 2\xFF 3\xFF", 2, 2),
        (b"1 1\xC2\xA01", 2, 2),
        (b"4294967297 18446744073709551617", 2, 1),
    ];
    for (text, clients, item) in refused {
        expect_refused(&rt, rt.alloc(), text, clients, item);
    }
}

#[test]
fn a_schedule_has_at_most_100_000_items(rt: HostRuntime) -> Result<(), Fail> {
    let mut text = Vec::new(rt.alloc());
    for _ in 0..100_000 {
        text.extend_from_slice(b"s ")?;
    }
    let items = schedule(rt.alloc(), text.as_slice(), 1)?;
    assert_eq!(rt; items.len(), 100_000);
    text.extend_from_slice(b"s x")?;
    expect_refused(&rt, rt.alloc(), text.as_slice(), 1, 100_001);
    Ok(())
}

#[test]
fn scripts_of_the_job_begin_with_what_their_streams_give(rt: HostRuntime) -> Result<(), Fail> {
    let mut files = job_files(rt.alloc(), 7)?;
    let scripts = [
        (
            "client1",
            "begin ro\narea Place.byArea overlaps [312,12,412,112]\nprefix Item.pName starting \"1-\"\ncommit\nbegin rw retry 4\nx = find Item.byName {\"7-124\"}\nput Item x {\"7-124\",10,2691}\ncommit\nbegin rw retry 4\nx = find Item.byName {\"6-16\"}\n",
        ),
        (
            "client2",
            "begin rw retry 4\ny = seek Item.byStock first\ndel Item y\ncommit\nbegin ro\nseek Sale.byDay ge {7,0}\ncount Item\ncommit\nbegin rw retry 4\nnew Place {[715,27,723,44],\"2-3\"}\n",
        ),
        (
            "client3",
            "stop 500\nbegin rw retry 4\nx = find Item.byName {\"3-84\"}\nput Item x {\"3-84\",74,4624}\ncommit\nbegin rw retry 4\nx = find Item.byName {\"8-196\"}\nput Item x {\"8-196\",16,5156}\ncommit\nbegin rw retry 4\n",
        ),
        (
            "client4",
            "begin ro\narea Place.byArea overlaps [851,143,951,243]\nprefix Item.pName starting \"4-\"\ncommit\nbegin rw retry 4\nnew Item {\"4-2\",34,2483}\ncommit\nbegin rw retry 4\nx = find Item.byName {\"3-141\"}\nput Item x {\"3-141\",63,2675}\n",
        ),
        (
            "client5",
            "begin rw retry 4\ny = seek Item.byStock first\ndel Item y\ncommit\nbegin ro\narea Place.byArea overlaps [402,842,502,942]\nprefix Item.pName starting \"5-\"\ncommit\nbegin ro\nseek Sale.byDay ge {182,0}\n",
        ),
        (
            "client6",
            "stop 500\nbegin rw retry 4\nx = find Item.byName {\"6-63\"}\nput Item x {\"6-63\",75,3704}\ncommit\nbegin rw retry 4\nx = find Item.byName {\"7-27\"}\nput Item x {\"7-27\",41,978}\ncommit\nbegin rw retry 4\n",
        ),
        (
            "client7",
            "begin ro\narea Place.byArea overlaps [390,921,490,1021]\nprefix Item.pName starting \"7-\"\ncommit\nbegin rw retry 4\ny = seek Item.byStock first\ndel Item y\ncommit\nbegin ro\nseek Sale.byDay ge {155,0}\n",
        ),
        (
            "client8",
            "begin rw retry 4\ny = seek Item.byStock first\ndel Item y\ncommit\nbegin ro\nseek Sale.byDay ge {321,0}\ncount Item\ncommit\nbegin rw retry 4\nx = find Item.byName {\"3-100\"}\n",
        ),
    ];
    for (name, begin) in scripts {
        let text = files.read(rt.alloc(), name, 1_000_000)?;
        assert!(rt; text.as_slice().starts_with(begin.as_bytes()));
    }
    assert_eq!(rt;
        files.read(rt.alloc(), "client9", 1_000_000),
        Err(ReadFault::Failed)
    );
    Ok(())
}

#[test]
fn schedule_of_the_job_has_12_800_items(rt: HostRuntime) -> Result<(), Fail> {
    let mut files = job_files(rt.alloc(), 7)?;
    let text = files.read(rt.alloc(), "schedule", 1_000_000)?;
    assert!(rt;
        text.as_slice()
            .starts_with(b"7*\n2*\n2*\n1\n4*\n4*\n1\n6*\n6*\n5*\n")
    );
    let items = schedule(rt.alloc(), text.as_slice(), 8)?;
    assert_eq!(rt; items.len(), 12_800);
    assert_eq!(rt; *items.at(3_999), Item::Unit(7));
    assert_eq!(rt; *items.at(4_000), Item::Unit(1));
    assert_eq!(rt; *items.at(12_799), Item::Unit(8));
    Ok(())
}
