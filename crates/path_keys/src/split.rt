ghost use Rattle.std.specs.Prelude.{◌≡◌, ◌∷◌, ◌++◌, IfSome, option_map};
ghost use Rattle.text_and_lists.specs.Parts.{parts_of, parts_after};
ghost use Rattle.s3_types.specs.Names as names;
ghost use Rattle.path_keys.specs.Paths.{without_scheme};

/// Returns the text after `s3a://`, if it begins so.
pub fn without_scheme(text: &str) -> Option<&str>
    ensures { option_map (λ r. r.now) result ≡ without_scheme text.now }
{
    text.strip_prefix("s3a://")
}

/// Returns the text without one `/` at its end.
pub fn trimmed(text: &str) -> &str
    ensures { result.now ≡ names.trimmed text.now }
{
    match text.strip_suffix('/') {
        Some(front) => front,
        None => text,
    }
}

/// Returns the text before the first `/`, and the text after it, if there is one. Takes no memory.
pub fn first_element(text: &str) -> (&str, Option<&str>)
    ensures parts { parts_of 47 text.now ≡ result.0.now ∷ parts_after 47 (option_map (λ r. r.now) result.1) }
    ensures whole { IfSome result.1 (λ r. text.now ≡ result.0.now ++ 47 ∷ r.now) }
{
    match text.split_once('/') {
        Some((front, behind)) => (front, Some(behind)),
        None => (text, None),
    }
}
