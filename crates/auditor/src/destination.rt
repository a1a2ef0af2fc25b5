ghost use Rattle.std.specs.Prelude.{◌≡◌, [], ◌∷◌, IfOk, option_map};
ghost use Rattle.std.specs.Str.{bytes_eq};
ghost use Rattle.audit_model.specs.Answers.{seen_paths};
ghost use Rattle.audit_model.specs.Recorded.{is_marker};
ghost use Rattle.auditor.specs.inner.Destinations.{behind, in_list};

use path_keys::S3Path;
use s3_types::Text;
use std::alloc::{AllocError, Global};
use std::marker::Model;
use trace_reader::is_visible;

/// The destination of a job, which has a key.
#[derive(Drop)]
pub(crate) struct Destination {
    path: S3Path,
    below: Text,
    success: Text,
}

impl Model for Destination {
    ghost use Rattle.path_keys.specs.Paths.{Path};
    ghost use Rattle.auditor.specs.inner.Destinations.{IsSpelled};

    ghost Value = { Path };

    ghost view = { λ d. d.path };

    ghost invariant = { λ d. IsSpelled d.path d.below d.success };
}

/// Returns the text after a prefix, if the text begins with it.
fn behind<'a>(prefix: &str, text: &'a str) -> Option<&'a str>
    ensures behind { option_map (λ r. r.now) result ≡ behind prefix.now text.now }
{
    text.strip_prefix(prefix)
}

impl Destination {
    /// Returns the destination at this path. Fails only if memory runs out.
    pub(crate) fn new(alloc: Global, path: S3Path) -> Result<Destination, AllocError>
        ensures same { IfOk result (λ d. d ≡ path) }
    {
        let below = Text::new(alloc, path.text_below(alloc, "")?)?;
        let success = Text::new(alloc, path.text_below(alloc, "_SUCCESS")?)?;
        Ok(Destination {
            path,
            below,
            success,
        })
    }

    /// Returns whether this is the destination's bucket.
    fn is_in(&self, bucket: &Text) -> bool
        ensures same { result ≡ bytes_eq bucket.now self.now.bucket }
    {
        bucket.as_bytes() == self.path.bucket().as_bytes()
    }

    /// Returns whether this is the place of the success marker.
    pub(crate) fn is_marker(&self, bucket: &Text, key: &Text) -> bool
        ensures marker { result ≡ is_marker self.now bucket.now key.now }
    {
        self.is_in(bucket) && key.as_bytes() == self.success.as_bytes()
    }

    /// Returns the path of a key of a bucket below the destination, if readers see a file there.
    pub(crate) fn path_of(
        &self,
        alloc: Global,
        bucket: &Text,
        key: &Text,
    ) -> Result<Option<Text>, AllocError>
        ensures path { IfOk result (λ path. in_list path ≡ seen_paths self.now bucket.now (key.now ∷ [])) }
    {
        if !self.is_in(bucket) {
            return Ok(None);
        }
        let Some(path) = behind(self.below.as_str(), key.as_str()) else {
            return Ok(None);
        };
        if !is_visible(path.as_bytes()) {
            return Ok(None);
        }
        Ok(Some(Text::copied(alloc, path)?))
    }
}
