ghost use Rattle.std.specs.Prelude.{◌≡◌, ◌<◌, ◌≤◌, ◌∷◌, length, true, take, slice_index, option_map, IfSome};
ghost use Rattle.std.specs.List.{list_all};
ghost use Rattle.text_and_lists.specs.Parts.{parts_of, parts_after, is_other};

/// Returns the place where the first part ends.
fn part_end(separator: u8, text: &[u8]) -> usize
    ensures within { result ≤ length text.now }
    ensures before { list_all (is_other separator) (take result text.now) ≡ true }
    ensures at { result < length text.now → slice_index text.now result ≡ separator }
{
    for (i, b) in text.iter().enumerate() {
        if *b == separator {
            return i;
        }
    }
    text.len()
}

/// Returns the first part of a text, which may be empty, and the text after the separator, if
/// there is one.
pub fn next_part(separator: u8, text: &[u8]) -> (&[u8], Option<&[u8]>)
    ensures parts { parts_of separator text.now ≡ result.0.now ∷ parts_after separator
        (option_map (λ r. r.now) result.1) }
    ensures shorter { IfSome result.1 (λ r. length r.now < length text.now) }
{
    let end = part_end(separator, text);
    let (part, rest) = text.split_at(end);
    if rest.is_empty() {
        return (part, None);
    }
    let (_, after) = rest.split_at(1);
    (part, Some(after))
}
