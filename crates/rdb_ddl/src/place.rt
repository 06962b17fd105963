//! Places in a text, for messages. It touches nothing but the text that it is lent.

ghost use Rattle.std.specs.Prelude.{◌≡◌, ◌-◌, ◌^◌, ◌<◌, ◌≤◌, ◌==◌, length, count_by};
ghost use Rattle.rdb_ddl.specs.Place.{line_of, column_of, after_last_feed};

/// A line and a column. Both count from 1, the column in bytes.
#[derive(Clone, Copy, Debug, PartialEq, Eq)]
pub struct Place {
    pub line: u32,
    pub column: u32,
}

/// Where the last `left` bytes of a text begin. A line feed ends a line. The cost grows with the text.
pub fn place_of(text: &[u8], left: usize) -> Place
    requires room { length text.now < 2 ^ 32 - 1 }
    requires within { left ≤ length text.now }
    ensures line { result.line ≡ line_of text.now left }
    ensures column { result.column ≡ column_of text.now left }
{
    let before = &text[..text.len() - left];
    Place {
        line: feeds(before) as u32 + 1,
        column: last_line_len(before) as u32 + 1,
    }
}

/// How many line feeds there are.
fn feeds(text: &[u8]) -> usize
    ensures count { result ≡ count_by (λ byte. byte == 10) text.now }
    ensures bound { result ≤ length text.now }
{
    text.iter().filter(|byte| **byte == b'\n').count()
}

/// How many bytes stand after the last line feed.
fn last_line_len(text: &[u8]) -> usize
    ensures count { result ≡ length (after_last_feed text.now) }
    ensures bound { result ≤ length text.now }
{
    text.iter().rev().take_while(|byte| **byte != b'\n').count()
}
