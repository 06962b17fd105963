//! The transactions of the generated job's clients, and how they are drawn from a stream.

ghost use Rattle.std.specs.Prelude.{◌≡◌};
ghost use Rattle.rdb_script.specs.JobScripts.{stock_at, restock_at, place_and_sale_at, look_at_sales_at, look_at_places_at, drawn_at};

use crate::stream::Stream;

/// What a transaction of the generated job does.
#[derive(Clone, Copy, Debug, PartialEq, Eq)]
pub enum Transaction {
    /// Makes an item that is named after its client and the transaction's number.
    Stock {
        stock: u32,
        price: u32,
    },
    /// Looks up the item that is named after a client and a number, and gives it another stock and price.
    Restock {
        client: u32,
        number: u32,
        stock: u32,
        price: u32,
    },
    /// Makes a place with this area, and a sale.
    PlaceAndSale {
        x1: u32,
        y1: u32,
        x2: u32,
        y2: u32,
        item: u32,
        count: u32,
        day: u32,
    },
    /// Looks for the first sale from a day on, and counts the items.
    LookAtSales {
        day: u32,
    },
    /// Looks for the places that overlap an area, and for the items that the client made.
    LookAtPlaces {
        x1: u32,
        y1: u32,
        x2: u32,
        y2: u32,
    },
    /// Deletes the item of the lowest stock.
    DelLowest,
}

fn stock(stream: &mut Stream) -> Transaction
    ensures value { result ≡ (stock_at stream.old.state).transaction }
    ensures next { stream.new.state ≡ (stock_at stream.old.state).state }
{
    let stock = stream.draw(100);
    let price = stream.draw(10_000);
    Transaction::Stock { stock, price }
}

fn restock(stream: &mut Stream) -> Transaction
    ensures value { result ≡ (restock_at stream.old.state).transaction }
    ensures next { stream.new.state ≡ (restock_at stream.old.state).state }
{
    let client = 1 + stream.draw(8);
    let number = 1 + stream.draw(200);
    let stock = stream.draw(100);
    let price = stream.draw(10_000);
    Transaction::Restock {
        client,
        number,
        stock,
        price,
    }
}

fn place_and_sale(stream: &mut Stream) -> Transaction
    ensures value { result ≡ (place_and_sale_at stream.old.state).transaction }
    ensures next { stream.new.state ≡ (place_and_sale_at stream.old.state).state }
{
    let x1 = stream.draw(1_000);
    let y1 = stream.draw(1_000);
    let x2 = x1 + stream.draw(50);
    let y2 = y1 + stream.draw(50);
    let item = stream.draw(1_000);
    let count = stream.draw(10);
    let day = stream.draw(365);
    Transaction::PlaceAndSale {
        x1,
        y1,
        x2,
        y2,
        item,
        count,
        day,
    }
}

fn look_at_sales(stream: &mut Stream) -> Transaction
    ensures value { result ≡ (look_at_sales_at stream.old.state).transaction }
    ensures next { stream.new.state ≡ (look_at_sales_at stream.old.state).state }
{
    let day = stream.draw(365);
    Transaction::LookAtSales { day }
}

fn look_at_places(stream: &mut Stream) -> Transaction
    ensures value { result ≡ (look_at_places_at stream.old.state).transaction }
    ensures next { stream.new.state ≡ (look_at_places_at stream.old.state).state }
{
    let x1 = stream.draw(1_000);
    let y1 = stream.draw(1_000);
    Transaction::LookAtPlaces {
        x1,
        y1,
        x2: x1 + 100,
        y2: y1 + 100,
    }
}

/// The next transaction of a stream: first which of the six it is, and then its numbers from left to right.
#[tactic(auto, unfolding(crate::specs::JobScripts::drawn_at))]
pub fn next_transaction(stream: &mut Stream) -> Transaction
    ensures value { result ≡ (drawn_at stream.old.state).transaction }
    ensures next { stream.new.state ≡ (drawn_at stream.old.state).state }
{
    match stream.draw(6) {
        0 => stock(stream),
        1 => restock(stream),
        2 => place_and_sale(stream),
        3 => look_at_sales(stream),
        4 => look_at_places(stream),
        _ => Transaction::DelLowest,
    }
}
