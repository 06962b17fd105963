//! Reads schedules. It touches nothing but the text that it is lent.

ghost use Rattle.std.specs.Prelude.{◌≡◌, ◌≢◌, ◌<◌, ◌≤◌, ℕ, [], ◌∷◌, List, length, take, drop, decimal, IsTrue, IfOk, IfErr, IfSome, IfNone, MatchOption, Some};
ghost use Rattle.rdb_script.specs.declared.item.Item.{Item};
ghost use Rattle.rdb_script.specs.Schedule.{separates, begins_word, words, word_of, IsOf, IsSchedule, IsFaultOf, IsReadAs};

use crate::fault::ScheduleFault;
use crate::item::{Item, Items};
use rdb_base::list::List;
use rdb_literals::decimal::printed;
use rdb_literals::front::{after, before, is_word};
use std::alloc::Global;

/// The most items of a schedule.
pub const MAX_ITEMS: usize = 100_000;

/// Whether the text begins with a byte that stands between items: a space, a tab, a line feed, or a carriage return
/// with a line feed directly after it.
fn separates(text: &[u8]) -> bool
    ensures { result ≡ separates text.now }
{
    matches!(text, [b' ' | b'\t' | b'\n', ..] | [b'\r', b'\n', ..])
}

/// What stands behind the separators at the front. The cost grows with them.
fn after_separators(text: &[u8]) -> &[u8]
    ensures words { words result.now ≡ words text.now }
    ensures bound { length result.now ≤ length text.now }
    ensures word { 0 < length result.now → IsTrue (begins_word result.now) }
{
    for at in 0..text.len() {
        let (_, rest) = text.split_at(at);
        if !separates(rest) {
            return rest;
        }
    }
    &[]
}

/// How many bytes the word has with which a text begins. The cost grows with them.
fn word_len(text: &[u8]) -> usize
    requires { IsTrue (begins_word text.now) }
    ensures word { words text.now ≡ take result text.now ∷ words (drop result text.now) }
    ensures some { 0 < result }
    ensures bound { result ≤ length text.now }
{
    for at in 1..text.len() {
        let (_, rest) = text.split_at(at);
        if separates(rest) {
            return at;
        }
    }
    text.len()
}

/// The first word of a text and what stands behind it, or None where there is none. The cost grows with what is passed.
fn next_word(text: &[u8]) -> Option<(&[u8], &[u8])>
    ensures none { IfNone result (words text.now ≡ []) }
    ensures some { IfSome result (λ found. words text.now ≡ found.0.now ∷ words found.1.now) }
    ensures less { IfSome result (λ found. length found.1.now < length text.now) }
{
    let rest = after_separators(text);
    if rest.is_empty() {
        return None;
    }
    Some(rest.split_at(word_len(rest)))
}

/// The client of a job of so many whose number this is, in plain decimal.
fn client_of(number: &[u8], clients: u32) -> Option<u32>
    ensures found { IfSome result (λ client. (number.now ≡ decimal client) × (0 < client) × (client ≤ clients)) }
    ensures exact { (client : ℕ) → 0 < client → client ≤ clients → number.now ≡ decimal client → result ≡ Some client }
{
    let client = printed(number)?;
    if client == 0 || client > u64::from(clients) {
        return None;
    }
    Some(client as u32)
}

/// The item that a word is in a schedule of so many clients.
fn item_of(word: &[u8], clients: u32) -> Option<Item>
    ensures found { IfSome result (λ item. (word.now ≡ word_of item) × IsOf clients item) }
    ensures exact { (item : Item) → IsOf clients item → word.now ≡ word_of item → result ≡ Some item }
{
    if is_word(word, b"s") {
        return Some(Item::Sniff);
    }
    if is_word(word, b"s*") {
        return Some(Item::SniffUnit);
    }
    if let Some(number) = after(word, b"!") {
        return Some(Item::Dead(client_of(number, clients)?));
    }
    match before(word, b"*") {
        Some(number) => Some(Item::Unit(client_of(number, clients)?)),
        None => Some(Item::Step(client_of(word, clients)?)),
    }
}

/// The items of a schedule for so many clients: words `c`, `c*`, `s`, `s*` and `!c` in any number up to 100,000,
/// between spaces, tabs and line ends, c being the number of a client in plain decimal. Where the text is none, the
/// answer names the first word, from 1, that isn't such an item, or the 100,001st. The cost grows with the text.
pub fn schedule(alloc: Global, text: &[u8], clients: u32) -> Result<Items, ScheduleFault>
    ensures read { IfOk result (IsSchedule clients text.now) }
    ensures only { (items : List Item) → IsSchedule clients text.now items → IsReadAs result items }
    ensures fault { IfErr result (IsFaultOf clients text.now) }
{
    let mut items = List::new(alloc);
    let mut rest = text;
    while let Some((word, behind)) = next_word(rest) {
        let fault = ScheduleFault::Item {
            item: items.len() as u64 + 1,
        };
        if items.len() == MAX_ITEMS {
            return Err(fault);
        }
        let Some(item) = item_of(word, clients) else {
            return Err(fault);
        };
        items.push(item)?;
        rest = behind;
    }
    Ok(items)
}
