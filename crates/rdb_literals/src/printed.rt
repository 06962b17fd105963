//! The printed form of values, as a report shows it. Each printer takes the text so far and gives it back longer; it touches nothing else.

ghost use Rattle.std.specs.Prelude.{◌≡◌, ◌++◌, IfOk, string_bytes, codes, flat_map, encode_utf8};
ghost use Rattle.std.specs.List.{join_by};
ghost use Rattle.rdb_literals.specs.Printed.{escaped, quoted, rect_text, leaf_text, group_text, element_text, value_text, row_text};

use rdb_base::list::NoMemory;
use rdb_base::text::Text;
use rdb_base::value::{Element, Elements, Leaf, Leaves, Rect, Row, Value};
use std::alloc::Global;

/// The text with one character of a quoted text after it.
fn append_escaped(mut text: String, character: char) -> Result<String, NoMemory>
    ensures { IfOk result (λ longer. string_bytes longer ≡ string_bytes text ++ flat_map escaped (encode_utf8 character)) }
{
    match character {
        '"' => text.push_str("\\\"")?,
        '\\' => text.push_str("\\\\")?,
        control if control.is_ascii_control() => {
            let code = control as u32;
            write!(text, "\\x{code:02x}")?;
        }
        other => text.push(other)?,
    }
    Ok(text)
}

/// The text with the words in double quotes after it. A quote, a backslash and each control byte are escaped.
/// The cost grows with the words.
pub fn append_quoted(mut text: String, words: &str) -> Result<String, NoMemory>
    ensures { IfOk result (λ longer. string_bytes longer ≡ string_bytes text ++ quoted words.now) }
{
    text.push('"')?;
    for character in words.chars() {
        text = append_escaped(text, character)?;
    }
    text.push('"')?;
    Ok(text)
}

/// The text with the rectangle's x1, y1, x2 and y2 after it.
pub fn append_rect(mut text: String, rect: Rect) -> Result<String, NoMemory>
    ensures { IfOk result (λ longer. string_bytes longer ≡ string_bytes text ++ rect_text rect) }
{
    let Rect { x1, y1, x2, y2 } = rect;
    write!(text, "[{x1},{y1},{x2},{y2}]")?;
    Ok(text)
}

fn append_leaf(mut text: String, leaf: &Leaf) -> Result<String, NoMemory>
    ensures { IfOk result (λ longer. string_bytes longer ≡ string_bytes text ++ leaf_text leaf.now) }
{
    match leaf {
        Leaf::Num(number) => {
            write!(text, "{number}")?;
            Ok(text)
        }
        Leaf::Text(words) => append_quoted(text, words.as_str()),
        Leaf::Rect(rect) => append_rect(text, *rect),
    }
}

fn append_leaves(text: String, leaves: &[Leaf]) -> Result<String, NoMemory>
    ensures { IfOk result (λ longer. string_bytes longer ≡ string_bytes text ++ join_by leaf_text (codes ",") leaves.now) }
{
    let Some((first, others)) = leaves.split_first() else {
        return Ok(text);
    };
    let mut text = append_leaf(text, first)?;
    for leaf in others {
        text.push(',')?;
        text = append_leaf(text, leaf)?;
    }
    Ok(text)
}

fn append_group(mut text: String, leaves: &Leaves) -> Result<String, NoMemory>
    ensures { IfOk result (λ longer. string_bytes longer ≡ string_bytes text ++ group_text leaves.now) }
{
    text.push('{')?;
    let mut text = append_leaves(text, leaves.as_slice())?;
    text.push('}')?;
    Ok(text)
}

fn append_element(text: String, element: &Element) -> Result<String, NoMemory>
    ensures { IfOk result (λ longer. string_bytes longer ≡ string_bytes text ++ element_text element.now) }
{
    match element {
        Element::Leaf(leaf) => append_leaf(text, leaf),
        Element::Group(leaves) => append_group(text, leaves),
    }
}

fn append_elements(text: String, elements: &[Element]) -> Result<String, NoMemory>
    ensures { IfOk result (λ longer. string_bytes longer ≡ string_bytes text ++ join_by element_text (codes ",") elements.now) }
{
    let Some((first, others)) = elements.split_first() else {
        return Ok(text);
    };
    let mut text = append_element(text, first)?;
    for element in others {
        text.push(',')?;
        text = append_element(text, element)?;
    }
    Ok(text)
}

fn append_vector(mut text: String, elements: &Elements) -> Result<String, NoMemory>
    ensures { IfOk result (λ longer. string_bytes longer ≡ string_bytes text ++ value_text (Value.List elements.now)) }
{
    text.push('(')?;
    let mut text = append_elements(text, elements.as_slice())?;
    text.push(')')?;
    Ok(text)
}

/// The text with a value's printed form after it. The cost grows with the value.
pub fn append_value(text: String, value: &Value) -> Result<String, NoMemory>
    ensures { IfOk result (λ longer. string_bytes longer ≡ string_bytes text ++ value_text value.now) }
{
    match value {
        Value::Leaf(leaf) => append_leaf(text, leaf),
        Value::List(elements) => append_vector(text, elements),
        Value::Group(leaves) => append_group(text, leaves),
    }
}

fn append_values(text: String, values: &[Value]) -> Result<String, NoMemory>
    ensures { IfOk result (λ longer. string_bytes longer ≡ string_bytes text ++ join_by value_text (codes ",") values.now) }
{
    let Some((first, others)) = values.split_first() else {
        return Ok(text);
    };
    let mut text = append_value(text, first)?;
    for value in others {
        text.push(',')?;
        text = append_value(text, value)?;
    }
    Ok(text)
}

/// The text with the printed form of a row or a key after it. The cost grows with the row.
pub fn append_row(mut text: String, row: &Row) -> Result<String, NoMemory>
    ensures { IfOk result (λ longer. string_bytes longer ≡ string_bytes text ++ row_text row.now) }
{
    text.push('{')?;
    let mut text = append_values(text, row.as_slice())?;
    text.push('}')?;
    Ok(text)
}

/// The printed form of a row or a key: its values in braces, with commas and without spaces. The cost grows with the row.
pub fn row_text(alloc: Global, row: &Row) -> Result<Text, NoMemory>
    ensures { IfOk result (λ text. text ≡ row_text row.now) }
{
    Ok(Text::from_string(append_row(String::new(alloc), row)?))
}

#[cfg(test)]
mod tests {
    use super::*;
    use rdb_base::list::List;
    use std::test::Fail;

    #[test]
    fn a_row_has_one_printed_form(rt: HostRuntime) -> Result<(), Fail> {
        let mut vector = List::new(rt.alloc());
        vector.push(Element::Leaf(Leaf::Num(1)))?;
        vector.push(Element::Leaf(Leaf::Num(65535)))?;
        let mut group = List::new(rt.alloc());
        group.push(Leaf::Num(-1))?;
        group.push(Leaf::Num(2))?;
        let mut row = List::new(rt.alloc());
        row.push(Value::Leaf(Leaf::Text(Text::of(rt.alloc(), "a\"b")?)))?;
        row.push(Value::List(vector))?;
        row.push(Value::Group(group))?;
        row.push(Value::List(List::new(rt.alloc())))?;
        let printed = row_text(rt.alloc(), &row)?;
        assert_eq!(rt; printed.as_str(), "{\"a\\\"b\",(1,65535),{-1,2},()}");
        Ok(())
    }

    #[test]
    fn control_bytes_quotes_and_backslashes_are_escaped(rt: HostRuntime) -> Result<(), Fail> {
        for (words, printed) in [
            ("", "\"\""),
            ("a\\b\"", "\"a\\\\b\\\"\""),
            ("\t\u{1f}\u{7f}", "\"\\x09\\x1f\\x7f\""),
            ("é ~", "\"é ~\""),
        ] {
            let text = append_quoted(String::new(rt.alloc()), words)?;
            assert_eq!(rt; text.as_str(), printed);
        }
        Ok(())
    }

    #[test]
    fn a_rectangle_is_printed_x1_y1_x2_y2(rt: HostRuntime) -> Result<(), Fail> {
        let rect = Rect {
            x1: -2147483648,
            y1: -1,
            x2: 2147483647,
            y2: 10,
        };
        let text = append_rect(String::new(rt.alloc()), rect)?;
        assert_eq!(rt; text.as_str(), "[-2147483648,-1,2147483647,10]");
        Ok(())
    }
}
