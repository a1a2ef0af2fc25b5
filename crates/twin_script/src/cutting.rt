//! The parts of an input between two separator lines, and the lines of a part. The bytes need not
//! be text.

ghost use Rattle.std.specs.Prelude.{◌≡◌, ◌<◌, ◌∷◌, length, option_map};
ghost use Rattle.text_and_lists.specs.Lines.{lines_of, without_return};
ghost use Rattle.text_and_lists.specs.Shapes.{two};
ghost use Rattle.text_and_lists.specs.Words.{words_of};
ghost use Rattle.twin_script.specs.Cutting as cutting;

use text_and_lists::next_part;

/// The line without one CR at its end.
fn trimmed(line: &[u8]) -> &[u8]
    ensures { result.now ≡ without_return line.now }
{
    match line.split_last() {
        Some((last, front)) => { if *last == b'\r' { front } else { line } }
        None => line,
    }
}

/// The first line without its LF and one CR before that, and the bytes after its LF. The last line
/// may lack the LF; then a CR at its end belongs to it.
pub fn next_line(bytes: &[u8]) -> (&[u8], &[u8])
    requires { 0 < length bytes.now }
    ensures lines { lines_of bytes.now ≡ result.0.now ∷ lines_of result.1.now }
    ensures shorter { length result.1.now < length bytes.now }
{
    let (line, rest) = next_part(b'\n', bytes);
    match rest {
        Some(rest) => (trimmed(line), rest),
        None => (line, &[]),
    }
}

/// The two words of a line that has exactly two, or none.
pub fn two_words(line: &[u8]) -> Option<(&[u8], &[u8])>
    ensures { option_map (λ p. (p.0.now, p.1.now)) result ≡ two (words_of line.now) }
{
    let (first, more) = next_part(b' ', line);
    let Some(more) = more else {
        return None;
    };
    let (second, after) = next_part(b' ', more);
    match after {
        Some(_) => None,
        None => Some((first, second)),
    }
}

fn is_parting(line: &[u8]) -> bool
    ensures { result ≡ cutting.is_parting line.now }
{
    line == b"=====".as_slice()
}

/// The bytes before the first separator line, and those after it; none if there is no such line.
fn cut(bytes: &[u8]) -> Option<(&[u8], &[u8])>
    ensures { option_map (λ p. (p.0.now, p.1.now)) result ≡ cutting.cut bytes.now }
{
    let mut at = 0usize;
    while at < bytes.len() {
        let (front, here) = bytes.split_at(at);
        let (line, rest) = next_part(b'\n', here);
        let Some(rest) = rest else {
            return if is_parting(line) {
                Some((front, &[]))
            } else {
                None
            };
        };
        if is_parting(trimmed(line)) {
            return Some((front, rest));
        }
        at += line.len() + 1;
    }
    None
}

/// The three parts, or none if there are not exactly two separator lines. Takes one pass over the
/// bytes, and copies none.
pub fn three_parts(bytes: &[u8]) -> Option<(&[u8], &[u8], &[u8])>
    ensures { option_map (λ p. (p.0.now, p.1.now, p.2.now)) result ≡ cutting.three_parts bytes.now }
{
    let Some((first, behind)) = cut(bytes) else {
        return None;
    };
    let Some((second, third)) = cut(behind) else {
        return None;
    };
    match cut(third) {
        Some(_) => None,
        None => Some((first, second, third)),
    }
}
