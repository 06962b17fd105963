//! The scripts of the generated job's clients. Each writer takes the text so far and gives it back longer.

ghost use Rattle.std.specs.Prelude.{◌≡◌, ◌++◌, IfOk, string_bytes};
ghost use Rattle.rdb_script.specs.JobScripts.{stock_lines, restock_lines, place_line, sale_line, look_at_sales_lines, look_at_places_lines, transaction_lines, transactions, stop_line, job_script};

use crate::stream::Stream;
use crate::transaction::{Transaction, next_transaction};
use rdb_base::list::NoMemory;
use std::alloc::Global;

fn append_stock(
    mut text: String,
    client: u32,
    number: u32,
    stock: u32,
    price: u32,
) -> Result<String, NoMemory>
    ensures { IfOk result (λ longer. string_bytes longer ≡ string_bytes text ++ stock_lines client number stock price) }
{
    write!(
        text,
        "begin rw retry 4\nnew Item {{\"{client}-{number}\",{stock},{price}}}\ncommit\n"
    )?;
    Ok(text)
}

fn append_restock(
    mut text: String,
    client: u32,
    number: u32,
    stock: u32,
    price: u32,
) -> Result<String, NoMemory>
    ensures { IfOk result (λ longer. string_bytes longer ≡ string_bytes text ++ restock_lines client number stock price) }
{
    write!(
        text,
        "begin rw retry 4\nx = find Item.byName {{\"{client}-{number}\"}}\nput Item x {{\"{client}-{number}\",{stock},{price}}}\ncommit\n"
    )?;
    Ok(text)
}

fn append_place(
    mut text: String,
    client: u32,
    number: u32,
    x1: u32,
    y1: u32,
    x2: u32,
    y2: u32,
) -> Result<String, NoMemory>
    ensures { IfOk result (λ longer. string_bytes longer ≡ string_bytes text ++ place_line client number x1 y1 x2 y2) }
{
    write!(
        text,
        "new Place {{[{x1},{y1},{x2},{y2}],\"{client}-{number}\"}}\n"
    )?;
    Ok(text)
}

fn append_sale(mut text: String, item: u32, count: u32, day: u32) -> Result<String, NoMemory>
    ensures { IfOk result (λ longer. string_bytes longer ≡ string_bytes text ++ sale_line item count day) }
{
    write!(text, "new Sale {{{item},{count},{day}}}\n")?;
    Ok(text)
}

fn append_look_at_sales(mut text: String, day: u32) -> Result<String, NoMemory>
    ensures { IfOk result (λ longer. string_bytes longer ≡ string_bytes text ++ look_at_sales_lines day) }
{
    write!(
        text,
        "begin ro\nseek Sale.byDay ge {{{day},0}}\ncount Item\ncommit\n"
    )?;
    Ok(text)
}

fn append_look_at_places(
    mut text: String,
    client: u32,
    x1: u32,
    y1: u32,
    x2: u32,
    y2: u32,
) -> Result<String, NoMemory>
    ensures { IfOk result (λ longer. string_bytes longer ≡ string_bytes text ++ look_at_places_lines client x1 y1 x2 y2) }
{
    write!(
        text,
        "begin ro\narea Place.byArea overlaps [{x1},{y1},{x2},{y2}]\nprefix Item.pName starting \"{client}-\"\ncommit\n"
    )?;
    Ok(text)
}

/// The text with the lines of a client's transaction of that number after it.
fn append_transaction(
    mut text: String,
    client: u32,
    number: u32,
    transaction: Transaction,
) -> Result<String, NoMemory>
    ensures { IfOk result (λ longer. string_bytes longer ≡ string_bytes text ++ transaction_lines client number transaction) }
{
    match transaction {
        Transaction::Stock { stock, price } => append_stock(text, client, number, stock, price),
        Transaction::Restock {
            client,
            number,
            stock,
            price,
        } => append_restock(text, client, number, stock, price),
        Transaction::PlaceAndSale {
            x1,
            y1,
            x2,
            y2,
            item,
            count,
            day,
        } => {
            text.push_str("begin rw retry 4\n")?;
            let text = append_place(text, client, number, x1, y1, x2, y2)?;
            let mut text = append_sale(text, item, count, day)?;
            text.push_str("commit\n")?;
            Ok(text)
        }
        Transaction::LookAtSales { day } => append_look_at_sales(text, day),
        Transaction::LookAtPlaces { x1, y1, x2, y2 } => {
            append_look_at_places(text, client, x1, y1, x2, y2)
        }
        Transaction::DelLowest => {
            text.push_str("begin rw retry 4\ny = seek Item.byStock first\ndel Item y\ncommit\n")?;
            Ok(text)
        }
    }
}

/// The text with a client's 200 transactions after it.
fn append_transactions(
    mut text: String,
    client: u32,
    mut stream: Stream,
) -> Result<String, NoMemory>
    ensures { IfOk result (λ longer. string_bytes longer ≡ string_bytes text ++ transactions 200 client 1 stream.state) }
{
    for number in 1..201 {
        let transaction = next_transaction(&mut stream);
        text = append_transaction(text, client, number, transaction)?;
    }
    Ok(text)
}

/// The line by which some clients stop, and nothing for the others.
fn stop_line(client: u32) -> &'static str
    ensures { result.now ≡ stop_line client }
{
    if client == 3 || client == 6 {
        "stop 500\n"
    } else {
        ""
    }
}

/// The script of a client of the generated job. The cost is that of 200 transactions.
#[tactic(auto, unfolding(crate::specs::JobScripts::job_script))]
pub fn job_script(alloc: Global, seed: u64, client: u32) -> Result<String, NoMemory>
    ensures { IfOk result (λ text. string_bytes text ≡ job_script seed client) }
{
    let text = String::from_str(alloc, stop_line(client))?;
    append_transactions(
        text,
        client,
        Stream::of(seed.wrapping_add(u64::from(client))),
    )
}
