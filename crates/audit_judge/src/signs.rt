ghost use Rattle.std.specs.Option.{option_copied};
ghost use Rattle.std.specs.Prelude.{◌≡◌};
ghost use Rattle.audit_judge.specs.inner.Tests.{fits_by, has_content, same_tags, whole_by};

use audit_claims::{Attempts, Etags};
use s3_types::Text;

/// A sign that a path may show against a run.
#[derive(Clone, Copy, PartialEq, Eq, Debug)]
pub enum Sign {
    /// Readers see something else there than in the opening.
    Differs,
    /// Readers see a file there that is neither the opening's nor any attempt's.
    Foreign,
    /// A kept opening file, which no attempt writes, is gone.
    Lost,
    /// A replaced opening file, which no attempt writes, is still there.
    Left,
}

/// A demand on an attempt, given what readers see at a path.
#[derive(Clone, Copy, PartialEq, Eq, Debug)]
pub enum Demand {
    /// Readers may see it as a part of the job.
    Part,
    /// Readers may see it as the whole job.
    Whole,
}

/// Returns whether two paths have the same tags, or both have no file.
pub(crate) fn same_tags(a: Option<&Etags>, b: Option<&Etags>) -> bool
    ensures same { result ≡ same_tags (option_copied a.entry) (option_copied b.entry) }
{
    match (a, b) {
        (Some(x), Some(y)) => x == y,
        (None, None) => true,
        _ => false,
    }
}

/// Returns whether what readers see fits (`Fits`).
pub(crate) fn fits(
    kept: bool,
    opening: Option<&Etags>,
    file: Option<&Etags>,
    shown: Option<&Etags>,
) -> bool
    ensures fits { result ≡ fits_by kept (option_copied opening.entry) (option_copied file.entry) (option_copied shown.entry) }
{
    if same_tags(shown, opening) {
        return true;
    }
    match file {
        Some(_) => shown.is_none() || same_tags(shown, file),
        None => shown.is_none() && !(kept && opening.is_some()),
    }
}

/// Returns whether readers see what the whole job leaves (`Whole`).
pub(crate) fn is_whole(
    kept: bool,
    replaced: bool,
    opening: Option<&Etags>,
    file: Option<&Etags>,
    shown: Option<&Etags>,
) -> bool
    ensures whole { result
        ≡ whole_by kept replaced (option_copied opening.entry) (option_copied file.entry) (option_copied shown.entry) }
{
    match (file, opening, shown) {
        (Some(_), _, _) => same_tags(shown, file),
        (None, None, _) => shown.is_none(),
        (None, Some(_), None) => !kept,
        (None, Some(was), Some(is)) => is == was && !replaced,
    }
}

/// Returns whether some of these attempts has this content at the path.
pub(crate) fn has_content(path: &Text, content: &Etags, attempts: &Attempts) -> bool
    ensures has { result ≡ has_content path.now content.now attempts.now }
{
    for (_, files) in attempts.held() {
        if same_tags(files.get(path), Some(content)) {
            return true;
        }
    }
    false
}
