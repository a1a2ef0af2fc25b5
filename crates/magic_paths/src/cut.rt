ghost use Rattle.std.specs.Prelude.{◌≡◌, ◌+◌, ◌<◌, ◌++◌, ◌-◌, ◌≤◌, List, ℕ, length, drop, is_some, IfSome, option_map};
ghost use Rattle.std.specs.List.{list_any, before_first, after_first};
ghost use Rattle.text_and_lists.specs.Parts.{parts_of, parts_after};
ghost use Rattle.magic_paths.specs.Finals.{is_word};

use path_keys::first_element;

/// A text that is cut at one of its elements: the text before that element, with its `/`, and the
/// text after the element and a `/`, if there is one.
#[derive(Drop)]
pub struct Cut<'a> {
    pub front: &'a str,
    pub behind: Option<&'a str>,
}

/// Returns the text before this end of it.
fn before_end<'a>(text: &'a str, end: &str) -> &'a str
    requires { (front : List ℕ) × (text.now ≡ front ++ end.now) }
    ensures { text.now ≡ result.now ++ end.now }
{
    &text[..text.len() - end.len()]
}

/// Cuts a text at its first element that is the word. Returns None exactly if no element is.
pub fn cut_at<'a>(word: &str, text: &'a str) -> Option<Cut<'a>>
    ensures found { is_some result ≡ list_any (is_word word.now) (parts_of 47 text.now) }
    ensures front { IfSome result (λ c. (rest : List ℕ)
        → parts_of 47 (c.front.now ++ rest) ≡ before_first (is_word word.now) (parts_of 47 text.now) ++ parts_of 47
        rest) }
    ensures behind { IfSome result (λ c. parts_after 47 (option_map (λ r. r.now) c.behind) ≡ after_first
        (is_word word.now) (parts_of 47 text.now)) }
    ensures shorter { IfSome result (λ c. IfSome c.behind (λ b. length c.front.now + length b.now < length text.now)) }
{
    let mut rest = text;
    loop {
        let (element, more) = first_element(rest);
        if element == word {
            return Some(Cut {
                front: before_end(text, rest),
                behind: more,
            });
        }
        match more {
            Some(after) => rest = after,
            None => return None,
        }
    }
}

/// Returns the last element of a text.
pub fn last_element(text: &str) -> &str
    ensures last { parts_of 47 result.now ≡ drop (length (parts_of 47 text.now) - 1) (parts_of 47 text.now) }
    ensures most { length result.now ≤ length text.now }
{
    match text.rsplit_once('/') {
        Some((_, last)) => last,
        None => text,
    }
}
