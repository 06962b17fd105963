//! The lines of a text and the words of a line. It touches nothing but the text that it is lent.

ghost use Rattle.std.specs.Prelude.{◌≡◌, ◌<◌, ◌≤◌, ◌==◌, ◌∷◌, [], length, position, not, take, drop, IfSome, IfNone};
ghost use Rattle.std.specs.List.{position_or_len, list_all};
ghost use Rattle.std.specs.Option.{option_copied};
ghost use Rattle.rdb_script.specs.Lines.{lines, without_return, is_blank, after_blanks, word, behind, is_end, is_comment, begins_name, goes_on_with_name, is_name, name_in};

use rdb_literals::decimal::text_of;
use rdb_literals::front::before;

/// The place of the first line feed.
fn first_feed(text: &[u8]) -> Option<usize>
    ensures { result ≡ position (λ b. b == 10) text.now }
{
    text.iter().position(|b| *b == b'\n')
}

/// The line without the carriage return at its end.
fn without_return(line: &[u8]) -> &[u8]
    ensures { result.now ≡ without_return line.now }
{
    match before(line, b"\r") {
        Some(front) => front,
        None => line,
    }
}

/// The first line of a text without its end, and what stands behind it; None at the text's end. A line ends with a line
/// feed, and a carriage return before that is dropped; the last line may have no end. The cost grows with the line.
pub fn next_line(text: &[u8]) -> Option<(&[u8], &[u8])>
    ensures none { IfNone result (lines text.now ≡ []) }
    ensures some { IfSome result (λ found. lines text.now ≡ found.0.now ∷ lines found.1.now) }
    ensures less { IfSome result (λ found. length found.1.now < length text.now) }
{
    if text.is_empty() {
        return None;
    }
    match first_feed(text) {
        Some(place) => {
            let (line, _) = text.split_at(place);
            let (_, rest) = text.split_at(place + 1);
            Some((without_return(line), rest))
        }
        None => Some((text, &[])),
    }
}

/// Whether a byte stands between words.
fn is_blank(byte: u8) -> bool
    ensures { result ≡ is_blank byte }
{
    byte == b' ' || byte == b'\t'
}

/// The place of the first byte that is no blank.
fn first_past_blanks(text: &[u8]) -> Option<usize>
    ensures { result ≡ position (λ b. not (is_blank b)) text.now }
{
    text.iter().position(|b| !is_blank(*b))
}

/// The place of the first blank.
fn first_blank(text: &[u8]) -> Option<usize>
    ensures { result ≡ position is_blank text.now }
{
    text.iter().position(|b| is_blank(*b))
}

/// How many blanks the text begins with.
fn blanks_in_front(text: &[u8]) -> usize
    ensures count { result ≡ position_or_len (λ b. not (is_blank b)) text.now }
    ensures within { result ≤ length text.now }
{
    match first_past_blanks(text) {
        Some(place) => place,
        None => text.len(),
    }
}

/// How many bytes stand before the first blank.
fn bytes_before_blank(text: &[u8]) -> usize
    ensures count { result ≡ position_or_len is_blank text.now }
    ensures within { result ≤ length text.now }
{
    match first_blank(text) {
        Some(place) => place,
        None => text.len(),
    }
}

/// The text from its first byte on that is no blank. The cost grows with the blanks.
#[tactic(auto, unfolding(crate::specs::Lines::after_blanks))]
pub fn after_blanks(text: &[u8]) -> &[u8]
    ensures { result.now ≡ after_blanks text.now }
{
    let (_, rest) = text.split_at(blanks_in_front(text));
    rest
}

/// The first word of a text, which is empty where there is none, and what stands behind it. The cost grows with what is
/// passed.
#[tactic(auto, unfolding(crate::specs::Lines::word, crate::specs::Lines::behind))]
pub fn next_word(text: &[u8]) -> (&[u8], &[u8])
    ensures word { result.0.now ≡ word text.now }
    ensures behind { result.1.now ≡ behind text.now }
{
    let rest = after_blanks(text);
    rest.split_at(bytes_before_blank(rest))
}

/// Whether no word is left. The cost grows with the blanks.
#[tactic(auto, unfolding(crate::specs::Lines::is_end))]
pub fn is_end(text: &[u8]) -> bool
    ensures { result ≡ is_end text.now }
{
    after_blanks(text).is_empty()
}

/// The place of the first byte that is no space.
fn first_past_spaces(text: &[u8]) -> Option<usize>
    ensures { result ≡ position (λ b. not (b == 32)) text.now }
{
    text.iter().position(|b| *b != b' ')
}

/// Whether a line's first byte that is no space is a `#`. The cost grows with the spaces.
#[tactic(auto, unfolding(crate::specs::Lines::is_comment))]
pub fn is_comment(line: &[u8]) -> bool
    ensures { result ≡ is_comment line.now }
{
    match first_past_spaces(line) {
        Some(place) => line[place] == b'#',
        None => false,
    }
}

fn begins_name(byte: u8) -> bool
    ensures { result ≡ begins_name byte }
{
    byte.is_ascii_alphabetic() || byte == b'_'
}

fn goes_on_with_name(byte: u8) -> bool
    ensures { result ≡ goes_on_with_name byte }
{
    begins_name(byte) || byte.is_ascii_digit()
}

fn all_go_on(word: &[u8]) -> bool
    ensures { result ≡ list_all goes_on_with_name word.now }
{
    word.iter().all(|b| goes_on_with_name(*b))
}

/// Whether a word is a name: at most 32 bytes of letters, digits and underscores, the first of them no digit. The cost is
/// bounded.
#[tactic(auto, unfolding(crate::specs::Lines::is_name))]
pub fn is_name(word: &[u8]) -> bool
    ensures { result ≡ is_name word.now }
{
    if word.is_empty() || word.len() > 32 {
        return false;
    }
    begins_name(word[0]) && all_go_on(word)
}

/// The word as a text, where it is a name.
#[tactic(auto, unfolding(crate::specs::Lines::is_name))]
pub fn name_in(word: &[u8]) -> Option<&str>
    ensures { option_copied result ≡ name_in word.now }
{
    if !is_name(word) {
        return None;
    }
    text_of(word)
}
