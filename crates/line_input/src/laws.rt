ghost use Rattle.std.specs.Prelude.{◌≡◌, ℕ, ◌<◌, List, [], ◌∷◌, length};
ghost use Rattle.line_input.specs.LinesOf.{lines_of, first_line, behind_line};

/// Proves what the lines of a text are. An empty text has none. Any other text has its first line,
/// and then the lines of the bytes after it.
pub fn line_laws()
    ensures none { lines_of [] ≡ [] }
    ensures first { (text : List ℕ) → 0 < length text → lines_of text ≡ first_line text
        ∷ lines_of (behind_line text) }
{}
