//! What the worked journals and their faults say of the law of journals.

use crate::fixtures::{
    Transaction, commit, first_conflict, get, got_and_put, items, lost, made, new, number,
    ordered_items, phantom, put, read, write_skew,
};
use crate::legality::{Legality, Why, journal_fits, legal, legal_in_stretches};
use rdb_base::journal::{Entries, Entry};
use rdb_base::list::{List, NoMemory};
use rdb_base::operation::{Op, Reply};
use rdb_schema::is_schema;
use rdb_schema::schema::Schema;
use std::alloc::Global;
use std::process::Abort;
use std::test::Fail;

// What is said of a journal whose operations fit.
fn expect(
    rt: &impl Abort,
    alloc: Global,
    schema: &Schema,
    journal: &Entries,
    expected: Legality,
) -> Result<(), Fail> {
    let entries = journal.as_slice();
    if !is_schema(schema) || !journal_fits(schema, entries) {
        return Err(Fail::new("it doesn't fit"));
    }
    assert_eq!(rt; legal(alloc, schema, entries)?, expected);
    Ok(())
}

// What is said of a journal whose operations fit, where a slot may be given again.
fn expect_in_stretches(
    rt: &impl Abort,
    alloc: Global,
    schema: &Schema,
    journal: &Entries,
    expected: Legality,
) -> Result<(), Fail> {
    let entries = journal.as_slice();
    if !is_schema(schema) || !journal_fits(schema, entries) {
        return Err(Fail::new("it doesn't fit"));
    }
    assert_eq!(rt; legal_in_stretches(alloc, schema, entries)?, expected);
    Ok(())
}

fn bad(entry: u64, why: Why) -> Legality {
    Legality::Illegal { entry, why }
}

const FIRST_REPLY: Why = Why::Reply { operation: 1 };

#[test]
fn the_worked_journals_are_judged(rt: HostRuntime) -> Result<(), Fail> {
    let alloc = rt.alloc();
    let plain = items(alloc)?;
    let third = bad(3, FIRST_REPLY);
    expect(&rt, alloc, &plain, &first_conflict(alloc)?, Legality::Legal)?;
    for (is_lost, expected) in [(true, Legality::Legal), (false, third)] {
        expect(&rt, alloc, &plain, &write_skew(alloc, is_lost)?, expected)?;
    }
    let ordered = ordered_items(alloc)?;
    for (n, is_lost, expected) in [
        (25, true, Legality::Legal),
        (25, false, third),
        (15, false, Legality::Legal),
    ] {
        expect(&rt, alloc, &ordered, &phantom(alloc, n, is_lost)?, expected)?;
    }
    Ok(())
}

// One client makes an object and then changes it, another one loses against that; the second commit may have a fault.
fn changed(
    alloc: Global,
    transaction: Transaction,
    number: u64,
    row: i128,
) -> Result<Entries, NoMemory> {
    let mut journal = List::new(alloc);
    journal.push(made(alloc, (1, 1, 0, 0), 1, &[(5, 1)])?)?;
    journal.push(commit(transaction, number, got_and_put(alloc, 1, row, 1, 6)?))?;
    journal.push(lost((2, 1, 1, 1), 2, got_and_put(alloc, 1, 5, 1, 7)?))?;
    journal.push(Entry::Closed { client: 1 })?;
    journal.push(Entry::Closed { client: 2 })?;
    Ok(journal)
}

#[test]
fn each_part_is_named_in_its_order(rt: HostRuntime) -> Result<(), Fail> {
    let alloc = rt.alloc();
    let schema = items(alloc)?;
    for (number, transaction, row, expected) in [
        (2, (1, 2, 1, 1), 5, Legality::Legal),
        (3, (1, 2, 1, 1), 5, bad(2, Why::Number)),
        (2, (1, 1, 1, 1), 5, bad(2, Why::Twice)),
        (2, (1, 2, 2, 1), 5, bad(2, Why::Place)),
        (2, (1, 2, 1, 0), 5, bad(2, Why::Place)),
        (2, (1, 2, 1, 2), 5, bad(2, Why::Place)),
        (2, (1, 2, 0, 0), 5, Legality::Legal),
        (2, (1, 2, 1, 1), 9, bad(2, FIRST_REPLY)),
        (1, (1, 1, 2, 1), 9, bad(2, Why::Number)),
        (2, (1, 1, 2, 1), 9, bad(2, Why::Twice)),
        (2, (1, 2, 2, 1), 9, bad(2, Why::Place)),
    ] {
        let journal = changed(alloc, transaction, number, row)?;
        expect(&rt, alloc, &schema, &journal, expected)?;
    }
    Ok(())
}

// An object that is made and changed, a read of it, and one object more.
fn read_between(
    alloc: Global,
    begun: u64,
    snapshot: u64,
    row: i128,
    last: u64,
) -> Result<Entries, NoMemory> {
    let mut journal = List::new(alloc);
    journal.push(made(alloc, (1, 1, 0, 0), 1, &[(5, 1)])?)?;
    let mut change = List::new(alloc);
    put(alloc, &mut change, 1, 6, Reply::Done)?;
    journal.push(commit((1, 2, 1, 1), 2, change))?;
    let mut done = List::new(alloc);
    get(alloc, &mut done, 1, row)?;
    journal.push(read((2, 1, begun, snapshot), done))?;
    journal.push(made(alloc, (1, 3, 3, 2), 3, &[(7, last)])?)?;
    Ok(journal)
}

#[test]
fn a_read_is_judged_at_its_snapshot(rt: HostRuntime) -> Result<(), Fail> {
    let alloc = rt.alloc();
    let schema = items(alloc)?;
    for (begun, snapshot, row, last, expected) in [
        (1, 1, 5, 2, Legality::Legal),
        (1, 1, 6, 2, bad(3, FIRST_REPLY)),
        (1, 2, 6, 2, Legality::Legal),
        (1, 2, 5, 2, bad(3, FIRST_REPLY)),
        (0, 0, 5, 2, bad(3, FIRST_REPLY)),
        (1, 0, 5, 2, bad(3, Why::Place)),
        (1, 1, 5, 1, bad(4, FIRST_REPLY)),
        (1, 2, 5, 1, bad(3, FIRST_REPLY)),
    ] {
        let journal = read_between(alloc, begun, snapshot, row, last)?;
        expect(&rt, alloc, &schema, &journal, expected)?;
    }
    Ok(())
}

// A read with a wrong reply.
fn misread(alloc: Global, number: u64, seen: u64) -> Result<Entry, NoMemory> {
    let mut done = List::new(alloc);
    get(alloc, &mut done, 1, 8)?;
    Ok(read((2, number, seen, seen), done))
}

#[test]
fn the_first_of_several_faults_is_named(rt: HostRuntime) -> Result<(), Fail> {
    let alloc = rt.alloc();
    let mut journal = List::new(alloc);
    journal.push(made(alloc, (1, 1, 0, 0), 1, &[(5, 1)])?)?;
    journal.push(misread(alloc, 1, 1)?)?;
    journal.push(misread(alloc, 2, 0)?)?;
    journal.push(made(alloc, (1, 2, 1, 1), 2, &[(5, 1)])?)?;
    journal.push(Entry::Closed { client: 1 })?;
    journal.push(Entry::Closed { client: 1 })?;
    expect(&rt, alloc, &items(alloc)?, &journal, bad(2, FIRST_REPLY))
}

// An object that is made, deleted, and made again.
fn made_again(alloc: Global) -> Result<Entries, NoMemory> {
    let mut journal = List::new(alloc);
    journal.push(made(alloc, (1, 1, 0, 0), 1, &[(5, 1)])?)?;
    let mut done = List::new(alloc);
    done.push((Op::Del { class: 0, id: 1 }, Reply::Done))?;
    journal.push(commit((1, 2, 1, 1), 2, done))?;
    journal.push(made(alloc, (1, 3, 2, 2), 3, &[(5, 1)])?)?;
    Ok(journal)
}

// An object that is made twice in one commit.
fn made_twice(alloc: Global) -> Result<Entries, NoMemory> {
    let mut journal = List::new(alloc);
    journal.push(made(alloc, (1, 1, 0, 0), 1, &[(5, 1), (6, 1)])?)?;
    Ok(journal)
}

// A client that is closed and handled.
fn left_twice(alloc: Global) -> Result<Entries, NoMemory> {
    let mut journal = List::new(alloc);
    journal.push(Entry::Closed { client: 1 })?;
    journal.push(Entry::Handled {
        client: 1,
        by: 0,
        at: 1,
        finished: false,
    })?;
    Ok(journal)
}

#[test]
fn nothing_is_made_or_left_twice(rt: HostRuntime) -> Result<(), Fail> {
    let alloc = rt.alloc();
    let schema = items(alloc)?;
    let twice = bad(1, Why::Reply { operation: 2 });
    expect(&rt, alloc, &schema, &made_twice(alloc)?, twice)?;
    expect(
        &rt,
        alloc,
        &schema,
        &made_again(alloc)?,
        bad(3, FIRST_REPLY),
    )?;
    expect(&rt, alloc, &schema, &left_twice(alloc)?, bad(2, Why::Twice))
}

// A client makes an object; one of the same slot, the first having closed or not, ends a transaction of the same number.
fn slot_given_again(alloc: Global, is_closed: bool) -> Result<Entries, NoMemory> {
    let mut journal = List::new(alloc);
    journal.push(made(alloc, (1, 1, 0, 0), 1, &[(5, 1)])?)?;
    if is_closed {
        journal.push(Entry::Closed { client: 1 })?;
    }
    journal.push(commit((1, 1, 1, 1), 2, got_and_put(alloc, 1, 5, 1, 6)?))?;
    journal.push(Entry::Closed { client: 1 })?;
    Ok(journal)
}

#[test]
fn a_slot_may_be_given_again_once_its_client_left(rt: HostRuntime) -> Result<(), Fail> {
    let alloc = rt.alloc();
    let schema = items(alloc)?;
    let again = slot_given_again(alloc, true)?;
    expect_in_stretches(&rt, alloc, &schema, &again, Legality::Legal)?;
    expect(&rt, alloc, &schema, &again, bad(3, Why::Twice))?;
    let same = slot_given_again(alloc, false)?;
    expect_in_stretches(&rt, alloc, &schema, &same, bad(2, Why::Twice))
}
