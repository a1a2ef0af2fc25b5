ghost use Rattle.std.specs.Prelude.{◌≡◌, IfOk};
ghost use Rattle.audit_claims.specs.Claims.{Tags};
ghost use Rattle.audit_claims.specs.Etags.{tags_eq, tags_per, tags_equiv};

use s3_types::{Text, TextList};
use std::alloc::{AllocError, Global};
use std::marker::Model;
use std::rc::Rc;

/// The identity of a file's content: the tags of its parts, in order. A clone shares them and copies none.
#[derive(Drop)]
pub struct Etags {
    shared: Rc<TextList>,
}

impl Model for Etags {
    ghost use Rattle.std.specs.Prelude.{ℕ, List};

    ghost Value = { List (List ℕ) };

    ghost view = { λ e. e.shared.value };
}

impl Etags {
    /// Returns the identity with the tags of a list, which is kept and not copied. Fails only if
    /// memory runs out.
    pub fn new(alloc: Global, tags: TextList) -> Result<Etags, AllocError>
        ensures kept { IfOk result (λ e. e ≡ tags) }
    {
        Ok(Etags {
            shared: Rc::new(alloc, tags)?,
        })
    }

    /// Returns the tags.
    pub fn as_slice(&self) -> &[Text]
        ensures tags { result.now ≡ self.now }
    {
        self.shared.as_slice()
    }
}

impl Clone for Etags {
    ghost is_clone = { λ e copy. copy ≡ e };

    fn clone(&self) -> Result<Etags, AllocError> {
        Ok(Etags {
            shared: self.shared.clone()?,
        })
    }
}

impl PartialEq for Etags {
    ghost eq = { tags_eq };

    ghost laws = { tags_per };

    fn eq(&self, other: &Etags) -> bool {
        self.as_slice() == other.as_slice()
    }
}

impl Eq for Etags {
    ghost laws = { tags_equiv };
}
