//! A quick look at the pieces of a record's printed text. Its results have no contract: the record
//! made of them decides whether a text is the printed one.
ghost use Rattle.std.specs.Prelude.{◌-◌, ◌<◌, ◌≤◌, length, IfSome};

/// The rest of a text after a piece at its beginning, or none.
pub fn behind<'a>(text: &'a [u8], piece: &[u8]) -> Option<&'a [u8]>
    ensures { IfSome result (λ rest. length rest.now ≤ length text.now) }
{
    text.strip_prefix(piece)
}

/// The text before the next byte `end` and that after it, or all of the text and nothing.
fn until(text: &[u8], end: u8) -> (&[u8], &[u8])
    ensures { length result.1.now ≤ length text.now - 1 }
{
    for (at, byte) in text.iter().enumerate() {
        if *byte == end {
            let (found, rest) = text.split_at(at);
            let (_, rest) = rest.split_at(1);
            return (found, rest);
        }
    }
    text.split_at(text.len())
}

/// The text between a piece and the next byte `end`, and the text after that. If the text does not
/// begin with the piece: nothing, and all of the text.
pub fn between<'a>(text: &'a [u8], piece: &[u8], end: u8) -> (&'a [u8], &'a [u8])
    ensures { length result.1.now ≤ length text.now }
{
    match behind(text, piece) {
        Some(rest) => until(rest, end),
        None => text.split_at(0),
    }
}

/// The text without a comma at its beginning.
pub fn without_comma(text: &[u8]) -> &[u8]
    ensures { length result.now ≤ length text.now }
{
    match behind(text, b",") {
        Some(rest) => rest,
        None => text,
    }
}

/// The next item of a list, and the text after its comma.
pub fn next_item(list: &[u8]) -> Option<(&[u8], &[u8])>
    ensures { IfSome result (λ r. length r.1.now < length list.now) }
{
    if list.is_empty() {
        None
    } else {
        Some(until(list, b','))
    }
}

/// The number below 2^64 with these digits. For any other bytes it is some number.
pub fn number(digits: &[u8]) -> u64 {
    let mut n = 0u64;
    for digit in digits {
        let digit = u64::from(digit.wrapping_sub(b'0'));
        n = n.wrapping_mul(10).wrapping_add(digit);
    }
    n
}

/// The number below 2^32 with these digits. For any other bytes it is some number.
pub fn small_number(digits: &[u8]) -> u32 {
    let n = number(digits);
    if n < 0x1_0000_0000 { n as u32 } else { 0 }
}
