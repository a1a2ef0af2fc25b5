ghost use Rattle.std.specs.Prelude.{◌≡◌, ◌↔◌, ◌≤◌, ◌++◌, [], true, false, length, is_some, IfOk, IfSome, IsErrOf, option_map, string_bytes};
ghost use Rattle.text_and_lists.specs.Parts.{parts_of, parts_after};
ghost use Rattle.path_keys.specs.Paths.{is_key};
ghost use Rattle.magic_paths.specs.Finals as finals;
ghost use Rattle.magic_paths.specs.declared.refusal.MagicRefusal.TheVariants.{NotMagic, NothingAfter};

use crate::cut::{cut_at, last_element};
use crate::refusal::MagicRefusal;
use crate::texts::final_text;
use path_keys::S3Path;
use s3_types::Text;
use std::alloc::Global;

/// Whether an element of the path's key is exactly `__magic`. Takes no memory.
pub fn is_magic(path: &S3Path) -> bool
    ensures { result ≡ finals.has_magic (finals.elements path.now) }
{
    cut_at("__magic", path.key().as_str()).is_some()
}

/// Returns the part that is kept of the text after `__magic/`.
fn kept(behind: &str) -> Option<&str>
    ensures kept { parts_after 47 (option_map (λ r. r.now) result) ≡ finals.kept (parts_of 47 behind.now) }
    ensures most { IfSome result (λ r. length r.now ≤ length behind.now) }
{
    match cut_at("__base", behind) {
        Some(base) => base.behind,
        None => Some(last_element(behind)),
    }
}

/// Returns the two texts that make the final key: the text before `__magic`, and the part that is
/// kept after it.
fn final_parts(key: &str) -> Result<(&str, &str), MagicRefusal>
    requires { is_key key.now ≡ true }
    ensures elements { IfOk result (λ r. parts_of 47 (r.0.now ++ r.1.now)
        ≡ finals.final_elements (parts_of 47 key.now)) }
    ensures key { IfOk result (λ r. is_key (r.0.now ++ r.1.now) ≡ true) }
    ensures not_magic { IsErrOf result NotMagic ↔ (finals.has_magic (parts_of 47 key.now) ≡ false) }
    ensures nothing_after { IsErrOf result NothingAfter ↔ ((finals.has_magic (parts_of 47 key.now) ≡ true)
        × (finals.kept (finals.after_magic (parts_of 47 key.now)) ≡ [])) }
{
    let Some(magic) = cut_at("__magic", key) else {
        return Err(MagicRefusal::NotMagic);
    };
    let Some(behind) = magic.behind else {
        return Err(MagicRefusal::NothingAfter);
    };
    match kept(behind) {
        Some(kept) => Ok((magic.front, kept)),
        None => Err(MagicRefusal::NothingAfter),
    }
}

/// Returns the path at which a file that is written below a magic directory ends up, once its
/// upload is completed. The new key has the elements before the first `__magic`. Then follow the
/// elements after the first `__base` after that or, if there is no `__base`, the path's last
/// element. Fails with NotMagic exactly if no element is `__magic`. Fails with NothingAfter
/// exactly if there is nothing after the first `__magic`, or after that `__base`. (Modelled on the
/// magic paths of Hadoop's S3A committer architecture; the rule is this project's own.)
pub fn final_path(alloc: Global, path: &S3Path) -> Result<S3Path, MagicRefusal>
    ensures bucket { IfOk result (λ p. p.bucket ≡ path.now.bucket) }
    ensures elements { IfOk result (λ p. finals.elements p ≡ finals.final_elements (finals.elements path.now)) }
    ensures not_magic { IsErrOf result NotMagic ↔ (finals.has_magic (finals.elements path.now) ≡ false) }
    ensures nothing_after { IsErrOf result NothingAfter ↔ ((finals.has_magic (finals.elements path.now) ≡ true)
        × (finals.kept (finals.after_magic (finals.elements path.now)) ≡ [])) }
{
    let (front, kept) = final_parts(path.key().as_str())?;
    let text = final_text(alloc, front, kept)?;
    let key = Text::new(alloc, text)?;
    Ok(S3Path::new(path.bucket().clone()?, key))
}
