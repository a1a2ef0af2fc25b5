ghost use Rattle.std.specs.Prelude.{◌≡◌, OnOk};
ghost use Rattle.audit_judge.specs.Changes.{change_all, change_one};

use crate::change::Change;
use audit_claims::PathTags;
use std::alloc::AllocError;

/// Applies a change to what readers see.
fn show_one(shown: &mut PathTags, change: &Change) -> Result<(), AllocError>
    ensures ok { OnOk result (shown.new ≡ change_one change.now shown.old) }
{
    match &change.etags {
        Some(etags) => {
            let path = change.path.clone()?;
            let etags = etags.clone()?;
            shown.put(path, etags)
        }
        None => {
            shown.remove(&change.path);
            Ok(())
        }
    }
}

/// Applies these changes to what readers see, one after the other.
pub(crate) fn show_all(shown: &mut PathTags, changes: &[Change]) -> Result<(), AllocError>
    ensures ok { OnOk result (shown.new ≡ change_all changes.now shown.old) }
{
    for change in changes {
        show_one(shown, change)?;
    }
    Ok(())
}
