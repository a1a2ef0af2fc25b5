ghost use Rattle.std.specs.Prelude.{◌≡◌, ◌<◌, ◌∷◌, length, option_map, IfSome};
ghost use Rattle.text_and_lists.specs.Lines.{lines_of, without_return};
ghost use Rattle.text_and_lists.specs.Parts.{parts_of, parts_after};

/// Returns the line without one CR at its end.
fn trimmed(line: &str) -> &str
    ensures { result.now ≡ without_return line.now }
{
    match line.strip_suffix('\r') {
        Some(front) => front,
        None => line,
    }
}

/// Returns the first line without its LF and without one CR before that, and the text after its
/// LF. The last line may lack the LF; a CR at its end is then part of it.
pub fn next_line(text: &str) -> (&str, &str)
    requires { 0 < length text.now }
    ensures lines { lines_of text.now ≡ result.0.now ∷ lines_of result.1.now }
    ensures shorter { length result.1.now < length text.now }
{
    match text.split_once('\n') {
        Some((line, rest)) => (trimmed(line), rest),
        None => (text, ""),
    }
}

/// Returns the first part of a text between ASCII separators, which may be empty, and the text
/// after the separator, if there is one.
pub fn next_field(separator: char, text: &str) -> (&str, Option<&str>)
    requires { separator < 128 }
    ensures parts { parts_of separator text.now ≡ result.0.now ∷ parts_after separator
        (option_map (λ r. r.now) result.1) }
    ensures shorter { IfSome result.1 (λ r. length r.now < length text.now) }
{
    match text.split_once(separator) {
        Some((front, behind)) => (front, Some(behind)),
        None => (text, None),
    }
}
