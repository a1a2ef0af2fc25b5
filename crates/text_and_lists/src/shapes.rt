//! Lines with a given number of words. The words after a line's first one are given as the text
//! after its blank, or None if there is no blank.

ghost use Rattle.std.specs.Prelude.{◌≡◌, ◌<◌, option_map};
ghost use Rattle.text_and_lists.specs.Parts.{parts_of};
ghost use Rattle.text_and_lists.specs.Words.{words_after};
ghost use Rattle.text_and_lists.specs.Shapes as shapes;

use crate::lines::next_field;

/// Returns the word, if there is exactly one.
pub fn one(rest: Option<&str>) -> Option<&str>
    ensures { option_map (λ w. w.now) result ≡ shapes.one (words_after (option_map (λ r. r.now) rest.entry)) }
{
    let Some(rest) = rest else {
        return None;
    };
    match next_field(' ', rest) {
        (word, None) => Some(word),
        (_, Some(_)) => None,
    }
}

/// Returns the words, if there are exactly two.
pub fn two(rest: Option<&str>) -> Option<(&str, &str)>
    ensures { option_map (λ p. (p.0.now, p.1.now)) result
        ≡ shapes.two (words_after (option_map (λ r. r.now) rest.entry)) }
{
    let Some(rest) = rest else {
        return None;
    };
    let (first, more) = next_field(' ', rest);
    match one(more) {
        Some(second) => Some((first, second)),
        None => None,
    }
}

/// Returns the first two words, and the text after them.
pub fn two_and_more(rest: Option<&str>) -> Option<(&str, &str, Option<&str>)>
    ensures { option_map (λ p. (p.0.now, p.1.now, words_after (option_map (λ r. r.now) p.2))) result ≡
        shapes.two_and_more (words_after (option_map (λ r. r.now) rest.entry)) }
{
    let Some(rest) = rest else {
        return None;
    };
    let (first, more) = next_field(' ', rest);
    let Some(more) = more else {
        return None;
    };
    let (second, after) = next_field(' ', more);
    Some((first, second, after))
}

/// Returns the two parts of a text with exactly one separator.
pub fn two_parts(separator: char, text: &str) -> Option<(&str, &str)>
    requires { separator < 128 }
    ensures { option_map (λ p. (p.0.now, p.1.now)) result ≡ shapes.two (parts_of separator text.now) }
{
    let (first, more) = next_field(separator, text);
    let Some(more) = more else {
        return None;
    };
    match next_field(separator, more) {
        (second, None) => Some((first, second)),
        (_, Some(_)) => None,
    }
}

/// Returns the only word, or Some(None) if there is none; None if there are more.
pub fn at_most_one(rest: Option<&str>) -> Option<Option<&str>>
    ensures { option_map (option_map (λ w. w.now)) result
        ≡ shapes.at_most_one (words_after (option_map (λ r. r.now) rest.entry)) }
{
    let Some(rest) = rest else {
        return Some(None);
    };
    match next_field(' ', rest) {
        (word, None) => Some(Some(word)),
        (_, Some(_)) => None,
    }
}

/// Returns the text of the words, or None if there are none.
pub fn text(rest: Option<&str>) -> Option<&str>
    ensures { option_map (λ t. t.now) result ≡ shapes.text (words_after (option_map (λ r. r.now) rest.entry)) }
{
    rest
}
