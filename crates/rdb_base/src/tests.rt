//! Worked rows: the order of values, copies, and the files, sinks and callback in memory.

ghost use Rattle.std.specs.Prelude.{◌≡◌, ◌<◌};

use crate::duplicate::Duplicate;
use crate::files::{Files, ReadFault};
use crate::identity::ConnId;
use crate::journal::{Entry, Story};
use crate::limits::MAX_PLACES;
use crate::list::{List, NoMemory};
use crate::listed_deaths::ListedDeaths;
use crate::liveness::Liveness;
use crate::memory_files::MemoryFiles;
use crate::memory_sink::MemorySink;
use crate::operation::Op;
use crate::order::{order, order_rows};
use crate::ready::Ready;
use crate::sink::Sink;
use crate::steps::Steps;
use crate::sure::{SureFiles, SureSink};
use crate::text::{Text, is_utf8, utf8};
use crate::value::{Element, Leaf, Rect, Row, Value};
use std::alloc::Global;
use std::marker::Brand;
use std::sync::ledger::{Blank, Ledger};
use std::test::Fail;

fn push_numbers(row: &mut Row) -> Result<(), NoMemory> {
    for number in [-2, -1, 0, 1] {
        row.push(Value::Leaf(Leaf::Num(number)))?;
    }
    Ok(())
}

fn push_texts(alloc: Global, row: &mut Row) -> Result<(), NoMemory> {
    for words in ["", "a", "ab", "b"] {
        row.push(Value::Leaf(Leaf::Text(Text::of(alloc, words)?)))?;
    }
    Ok(())
}

fn push_boxes(row: &mut Row) -> Result<(), NoMemory> {
    for (x1, y1, x2, y2) in [(-1, 9, 9, 9), (0, -1, 9, 9), (0, 0, -1, 9), (0, 0, 0, -1)] {
        row.push(Value::Leaf(Leaf::Rect(Rect { x1, y1, x2, y2 })))?;
    }
    Ok(())
}

fn push_lists(alloc: Global, row: &mut Row) -> Result<(), NoMemory> {
    let mut elements = List::new(alloc);
    for number in [1, 2, 0] {
        row.push(Value::List(elements.copy()?))?;
        elements.push(Element::Leaf(Leaf::Num(number)))?;
    }
    Ok(())
}

fn push_groups(alloc: Global, row: &mut Row) -> Result<(), NoMemory> {
    let mut leaves = List::new(alloc);
    for number in [1, 2, 0] {
        row.push(Value::Group(leaves.copy()?))?;
        leaves.push(Leaf::Num(number))?;
    }
    Ok(())
}

/// Values in ascending order.
fn ascending(alloc: Global) -> Result<Row, NoMemory> {
    let mut row = List::new(alloc);
    push_numbers(&mut row)?;
    push_texts(alloc, &mut row)?;
    push_boxes(&mut row)?;
    push_lists(alloc, &mut row)?;
    push_groups(alloc, &mut row)?;
    Ok(row)
}

#[test]
fn values_stand_in_the_order_of_their_kinds_and_parts(rt: HostRuntime) -> Result<(), Fail> {
    let values = ascending(rt.alloc())?;
    assert_eq!(rt; values.len(), 18);
    for (i, a) in values.as_slice().iter().enumerate() {
        for (j, b) in values.as_slice().iter().enumerate() {
            assert!(rt; order(a, b) == i.cmp(&j), "at {i} and {j}");
        }
    }
    Ok(())
}

#[test]
fn a_proper_prefix_of_a_row_stands_first(rt: HostRuntime) -> Result<(), Fail> {
    let long = ascending(rt.alloc())?;
    let mut short = List::new(rt.alloc());
    push_numbers(&mut short)?;
    assert!(rt; order_rows(&short, &long).is_lt());
    assert!(rt; order_rows(&long, &short).is_gt());
    Ok(())
}

#[test]
fn a_copy_of_an_operation_is_equal(rt: HostRuntime) -> Result<(), Fail> {
    let operation = Op::New {
        class: 1,
        row: ascending(rt.alloc())?,
        id: 4,
    };
    let copy = operation.duplicate()?;
    assert!(rt; copy == operation);
    Ok(())
}

#[test]
fn reserved_room_is_appended_to_its_last_place(rt: HostRuntime) -> Result<(), Fail> {
    let mut ready = Ready::new(rt.alloc());
    ready.reserve(2)?;
    ready.append(10);
    ready.append(20);
    assert_eq!(rt; ready.room(), 0);
    assert!(rt; ready.as_slice() == [10, 20].as_slice());
    Ok(())
}

#[test]
fn room_past_the_limit_is_refused_and_changes_nothing(rt: HostRuntime) -> Result<(), Fail> {
    let mut ready = Ready::<u32>::new(rt.alloc());
    ready.reserve(1)?;
    assert!(rt; ready.reserve(MAX_PLACES).is_err());
    assert_eq!(rt; ready.room(), 1);
    assert!(rt; ready.is_empty());
    Ok(())
}

#[test]
fn what_is_taken_away_leaves_its_room(rt: HostRuntime) -> Result<(), Fail> {
    let list = List::from_slice(rt.alloc(), &[10, 20, 30])?;
    let mut ready = Ready::from_list(list);
    ready.set(0, 15);
    assert_eq!(rt; *ready.at(0), 15);
    assert!(rt; ready.pop() == Some(30));
    assert_eq!(rt; (ready.len(), ready.room()), (2, 1));
    ready.clear();
    assert_eq!(rt; ready.room(), 3);
    assert!(rt; ready.into_list().is_empty());
    Ok(())
}

#[test]
fn an_element_is_set_in_its_place(rt: HostRuntime) -> Result<(), Fail> {
    let mut list = List::from_slice(rt.alloc(), &[10, 20, 30])?;
    list.set(1, 25);
    assert!(rt; list.as_slice() == [10, 25, 30].as_slice());
    Ok(())
}

#[test]
fn an_operation_names_its_class_and_its_index(rt: HostRuntime) -> Result<(), Fail> {
    let lookup = Op::Find {
        class: 3,
        index: 5,
        key: List::new(rt.alloc()),
    };
    assert_eq!(rt; lookup.class(), 3);
    assert!(rt; lookup.index() == Some(5));
    assert!(rt; !lookup.writes());
    let deletion = Op::Del { class: 2, id: 7 };
    assert_eq!(rt; deletion.class(), 2);
    assert!(rt; deletion.index() == None);
    assert!(rt; deletion.writes());
    Ok(())
}

#[test]
fn an_entry_names_its_client_and_its_story(rt: HostRuntime) -> Result<(), Fail> {
    let commit = Entry::Commit {
        story: Story {
            client: 4,
            number: 1,
            begun: 0,
            snapshot: 0,
            done: List::new(rt.alloc()),
        },
        commit: 1,
    };
    assert!(rt; commit.is_commit());
    assert_eq!(rt; commit.client(), 4);
    assert!(rt; commit.story().is_some());
    let closed = Entry::Closed { client: 6 };
    assert!(rt; !closed.is_commit());
    assert_eq!(rt; closed.client(), 6);
    assert!(rt; closed.story().is_none());
    Ok(())
}

#[test]
fn bytes_are_a_text_where_they_are_utf8(rt: HostRuntime) -> Result<(), Fail> {
    let valid = [0xc3, 0xa9];
    let cut = [0xc3];
    assert!(rt; Text::from_utf8(rt.alloc(), &valid)?.is_some());
    assert!(rt; Text::from_utf8(rt.alloc(), &cut)?.is_none());
    assert!(rt; utf8(&valid).is_some());
    assert!(rt; is_utf8(&valid));
    assert!(rt; !is_utf8(&cut));
    Ok(())
}

#[test]
fn memory_files_answer_by_name_budget_and_number(rt: HostRuntime) -> Result<(), Fail> {
    let alloc = rt.alloc();
    let mut files = MemoryFiles::new(alloc, List::from_slice(alloc, &[2])?);
    files.put("a", b"old")?;
    files.put("a", b"four")?;
    let first = files.read(alloc, "a", 4)?;
    assert!(rt; first.as_slice() == b"four".as_slice());
    assert!(rt; files.read(alloc, "a", 4).err() == Some(ReadFault::Failed));
    assert!(rt; files.read(alloc, "a", 3).err() == Some(ReadFault::TooLong { budget: 3 }));
    assert!(rt; files.read(alloc, "b", 4).err() == Some(ReadFault::Failed));
    Ok(())
}

#[test]
fn a_name_that_sure_files_lack_is_an_empty_file(rt: HostRuntime) -> Result<(), Fail> {
    let alloc = rt.alloc();
    let mut files = SureFiles::new(alloc);
    files.put("a", b"four")?;
    let held = files.read(alloc, "a", 4)?;
    assert!(rt; held.as_slice() == b"four".as_slice());
    let empty = files.read(alloc, "b", 0)?;
    assert!(rt; empty.is_empty());
    Ok(())
}

#[test]
fn a_memory_sink_takes_what_it_is_told_of_each_failing_write(rt: HostRuntime) -> Result<(), Fail> {
    let alloc = rt.alloc();
    let failing = List::from_slice(alloc, &[2, 3, 2])?;
    let taken = List::from_slice(alloc, &[1, 9, 0])?;
    let mut sink = MemorySink::new(alloc, failing, taken);
    assert!(rt; sink.write(b"ab").is_ok());
    assert!(rt; sink.write(b"cd").is_err());
    assert!(rt; sink.write(b"ef").is_err());
    assert!(rt; sink.write(b"g").is_ok());
    assert!(rt; sink.bytes() == b"abcefg".as_slice());
    Ok(())
}

#[test]
fn a_sure_sink_counts_its_bytes(rt: HostRuntime) -> Result<(), Fail> {
    let mut sink = SureSink::new();
    sink.write(b"abc")?;
    sink.write(b"de")?;
    assert_eq!(rt; sink.count(), 5);
    Ok(())
}

#[test]
fn listed_deaths_call_dead_the_listed_connections_alone(rt: HostRuntime) -> Result<(), Fail> {
    let mut dead = List::new(rt.alloc());
    dead.push(ConnId { slot: 1, serial: 5 })?;
    let mut deaths = ListedDeaths::new(dead);
    assert!(rt; deaths.dead(ConnId { slot: 1, serial: 5 }));
    assert!(rt; !deaths.dead(ConnId { slot: 1, serial: 6 }));
    Ok(())
}

fn two_steps<L: Ledger>(blank: Blank)
    requires name { blank.name ≡ L.name }
    requires parts { blank.parts ≡ L.parts }
    requires some_part { 0 < blank.parts }
{
    let mut steps = Steps::<L>::start(blank);
    steps.tick();
    steps.tick();
}

#[test]
fn steps_are_counted() {
    two_steps::<Brand>(Blank::new(1));
}
