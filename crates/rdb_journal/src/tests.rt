//! Worked reports and lines.

ghost use Rattle.std.specs.Prelude.{IfOk, ◌≡◌, []};
ghost use Rattle.rdb_journal.specs.Lines.{steps_of};
ghost use Rattle.rdb_journal.specs.Names.{HasClass, HasIndex, HasEvent};

use crate::clients::clients;
use crate::endings::{End, Note};
use crate::entries::text;
use crate::operations::append_operation;
use crate::replies::append_reply;
use crate::summary::report;
use rdb_base::journal::{Cause, Entry, Story};
use rdb_base::list::{List, NoMemory};
use rdb_base::operation::{How, Op, Place, Reply};
use rdb_base::text::Text;
use rdb_base::value::{Leaf, Rect, Row, Value};
use rdb_schema::schema::{Class, Event, EventKind, IndexDecl, IndexKind, Schema};
use std::alloc::Global;
use std::process::Abort;
use std::test::Fail;

/// One class `Item` with an index `byN` and an event `made`.
fn shop(alloc: Global) -> Result<Schema, NoMemory>
    ensures class { IfOk result (λ schema. HasClass schema 0) }
    ensures index { IfOk result (λ schema. HasIndex schema 0 0) }
    ensures event { IfOk result (λ schema. HasEvent schema 0 0) }
{
    let mut indexes = List::new(alloc);
    indexes.push(IndexDecl {
        name: Text::of(alloc, "byN")?,
        kind: IndexKind::Tree,
        unique: true,
        key: List::new(alloc),
        estimate: None,
    })?;
    let mut events = List::new(alloc);
    events.push(Event {
        name: Text::of(alloc, "made")?,
        kind: EventKind::New,
    })?;
    let mut classes = List::new(alloc);
    classes.push(Class {
        name: Text::of(alloc, "Item")?,
        fields: List::new(alloc),
        autoid: true,
        estimate: None,
        indexes,
        events,
    })?;
    Ok(Schema {
        name: Text::of(alloc, "shop")?,
        groups: List::new(alloc),
        classes,
    })
}

/// The row of one number.
fn row(alloc: Global, number: i128) -> Result<Row, NoMemory> {
    let mut row = List::new(alloc);
    row.push(Value::Leaf(Leaf::Num(number)))?;
    Ok(row)
}

fn story(alloc: Global, client: u32, number: u64, begun: u64, snapshot: u64) -> Story
    ensures { result ≡ record { client = client; number = number; begun = begun; snapshot = snapshot; done = [] } }
{
    Story {
        client,
        number,
        begun,
        snapshot,
        done: List::new(alloc),
    }
}

#[test]
fn a_commit_and_a_done_client_make_the_whole_report(rt: HostRuntime) -> Result<(), Fail> {
    let alloc = rt.alloc();
    let schema = shop(alloc)?;
    let new = Op::New {
        class: 0,
        row: row(alloc, 7)?,
        id: 1,
    };
    let get = Op::Get { class: 0, id: 1 };
    let mut done = List::new(alloc);
    done.push((new, Reply::Made(1)))?;
    done.push((get, Reply::Row(row(alloc, 7)?)))?;
    let story = Story {
        client: 1,
        number: 1,
        begun: 0,
        snapshot: 0,
        done,
    };
    let mut journal = List::new(alloc);
    journal.push(Entry::Commit { story, commit: 1 })?;
    journal.push(Entry::Closed { client: 1 })?;
    let mut ends = List::new(alloc);
    ends.push(End::Done)?;
    let mut notes = List::new(alloc);
    notes.push(List::new(alloc))?;
    let mut whole = String::new(alloc);
    for line in report(alloc, &schema, journal.as_slice(), &ends, &notes)?.as_slice() {
        whole.push_str(line.as_str())?;
    }
    let expected = "commit 1 client 1 tx 1 begun 0 snapshot 0
  new Item {7} -> made 1
  get Item 1 -> {7}
closed client 1
client 1 done
total commits 1 reads 0 aborts 0 handled 0
";
    assert_eq!(rt; whole.as_str(), expected);
    Ok(())
}

fn first_line(
    rt: &(impl AllocGlobal + Abort),
    entry: &Entry,
    expected: &str,
) -> Result<(), NoMemory>
    requires { steps_of entry.now ≡ [] }
{
    let alloc = rt.alloc();
    let lines = text(alloc, &shop(alloc)?, entry)?;
    assert_eq!(rt; lines.len(), 1);
    assert_eq!(rt; lines.at(0).as_str(), expected);
    Ok(())
}

#[test]
fn entries_without_operations_have_one_line(rt: HostRuntime) -> Result<(), Fail> {
    let alloc = rt.alloc();
    let cause = Cause::Conflict {
        commit: 2,
        operation: 1,
    };
    let entry = Entry::Abort {
        story: story(alloc, 2, 1, 1, 1),
        cause,
    };
    first_line(
        &rt,
        &entry,
        "abort client 2 tx 1 begun 1 at 1 conflict 2 1\n",
    )?;
    let cause = Cause::Full { need: 3, room: 1 };
    let entry = Entry::Abort {
        story: story(alloc, 1, 2, 1, 1),
        cause,
    };
    first_line(&rt, &entry, "abort client 1 tx 2 begun 1 at 1 full 3 1\n")?;
    let entry = Entry::Abort {
        story: story(alloc, 1, 1, 0, 0),
        cause: Cause::Asked,
    };
    first_line(&rt, &entry, "abort client 1 tx 1 begun 0 at 0 rollback\n")?;
    let entry = Entry::Read {
        story: story(alloc, 2, 1, 2, 1),
    };
    first_line(&rt, &entry, "read client 2 tx 1 begun 2 at 1\n")?;
    let entry = Entry::Handled {
        client: 1,
        by: 0,
        at: 1,
        finished: false,
    };
    first_line(&rt, &entry, "handled client 1 by 0 at 1 undone\n")?;
    Ok(())
}

#[test]
fn clients_have_their_ends_watches_and_polls(rt: HostRuntime) -> Result<(), Fail> {
    let alloc = rt.alloc();
    let schema = shop(alloc)?;
    let mut ends = List::new(alloc);
    ends.push(End::Stopped { step: 20 })?;
    ends.push(End::Gone { by: 0, at: 0 })?;
    ends.push(End::Done)?;
    let mut own = List::new(alloc);
    own.push(Note::Watch {
        class: 0,
        event: 0,
        at: 1,
    })?;
    own.push(Note::Event {
        class: 0,
        event: 0,
        commit: 2,
        id: 2,
    })?;
    own.push(Note::NoEvent {
        class: 0,
        event: 0,
        at: 2,
    })?;
    let mut notes = List::new(alloc);
    notes.push(List::new(alloc))?;
    notes.push(List::new(alloc))?;
    notes.push(own)?;
    let mut whole = String::new(alloc);
    for line in clients(alloc, &schema, &ends, &notes)?.as_slice() {
        whole.push_str(line.as_str())?;
    }
    let expected = "client 1 stopped before step 20
client 2 gone by 0 at 0
client 3 done
  watch Item.made at 1
  poll Item.made -> commit 2 id 2
  poll Item.made -> none at 2
";
    assert_eq!(rt; whole.as_str(), expected);
    Ok(())
}

#[test]
fn each_operation_has_its_line(rt: HostRuntime) -> Result<(), Fail> {
    let alloc = rt.alloc();
    let schema = shop(alloc)?;
    let key = row(alloc, 20)?;
    let place = Place::At { key, id: 0 };
    let seek = Op::Seek {
        class: 0,
        index: 0,
        place,
        up: true,
    };
    assert_eq!(rt;
        append_operation(String::new(alloc), &schema, &seek)?.as_str(),
        "seek Item.byN up {20} 0"
    );
    let rect = Rect {
        x1: 0,
        y1: 0,
        x2: 10,
        y2: 10,
    };
    let area = Op::Area {
        class: 0,
        index: 0,
        rect,
        inside: false,
    };
    assert_eq!(rt;
        append_operation(String::new(alloc), &schema, &area)?.as_str(),
        "area Item.byN overlaps [0,0,10,10]"
    );
    let prefix = Op::Prefix {
        class: 0,
        index: 0,
        text: Text::of(alloc, "abc")?,
        how: How::Longest,
    };
    assert_eq!(rt;
        append_operation(String::new(alloc), &schema, &prefix)?.as_str(),
        "prefix Item.byN longest \"abc\""
    );
    let put = Op::Put {
        class: 0,
        id: 1,
        row: row(alloc, 6)?,
    };
    assert_eq!(rt;
        append_operation(String::new(alloc), &schema, &put)?.as_str(),
        "put Item 1 {6}"
    );
    let count = Op::Count { class: 0 };
    assert_eq!(rt;
        append_operation(String::new(alloc), &schema, &count)?.as_str(),
        "count Item"
    );
    let duplicate = Reply::Duplicate { index: 0, id: 1 };
    assert_eq!(rt;
        append_reply(String::new(alloc), &schema, &put, &duplicate)?.as_str(),
        "duplicate byN 1"
    );
    let mut ids = List::new(alloc);
    ids.push(1)?;
    ids.push(4)?;
    assert_eq!(rt;
        append_reply(String::new(alloc), &schema, &area, &Reply::Ids(ids))?.as_str(),
        "1 4"
    );
    Ok(())
}
