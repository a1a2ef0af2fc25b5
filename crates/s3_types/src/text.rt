ghost use Rattle.std.specs.Prelude.{◌≡◌, ℕ, List, [], IfOk, refl, string_bytes};
ghost use Rattle.std.proofs.Common.{rules};
ghost use Rattle.std.specs.Cmp.Rules.{comparing, hashing};
ghost use Rattle.text_and_lists.specs.Order.{text_cmp, text_eq, text_partial_cmp, text_hash, text_per, text_equiv, text_po, text_total, text_ties};
ghost use Rattle.s3_types.specs.Pages.{begins};

use std::alloc::{AllocError, Global};
use std::cmp::Ordering;
use std::hash::{Hash, Hasher};
use std::marker::Model;
use std::rc::Rc;

/// A UTF-8 text that never changes, ordered by its bytes. A clone shares it and copies nothing.
#[derive(Drop)]
pub struct Text {
    shared: Rc<String>,
}

impl Model for Text {
    ghost use Rattle.std.specs.Prelude.{ℕ, List, string_bytes};

    ghost Value = { List ℕ };

    ghost view = { λ t. string_bytes t.shared.value };
}

impl Text {
    /// No text.
    pub fn empty(alloc: Global) -> Result<Text, AllocError>
        ensures { IfOk result (λ t. t ≡ []) }
    {
        Text::new(alloc, String::new(alloc))
    }

    /// The text of a string. Keeps the string and copies nothing.
    pub fn new(alloc: Global, text: String) -> Result<Text, AllocError>
        ensures { IfOk result (λ t. t ≡ string_bytes text) }
    {
        Ok(Text {
            shared: Rc::new(alloc, text)?,
        })
    }

    /// A copy of a text.
    pub fn copied(alloc: Global, text: &str) -> Result<Text, AllocError>
        ensures { IfOk result (λ t. t ≡ text.now) }
    {
        Text::new(alloc, String::from_str(alloc, text)?)
    }

    /// Returns the text.
    pub fn as_str(&self) -> &str
        ensures { result.now ≡ self.now }
    {
        self.shared.as_str()
    }

    /// Returns the bytes of the text.
    pub fn as_bytes(&self) -> &[u8]
        ensures { result.now ≡ self.now }
    {
        self.as_str().as_bytes()
    }

    /// Whether it begins with this prefix. Takes no memory.
    pub fn starts_with(&self, prefix: &Text) -> bool
        ensures { result ≡ begins prefix.now self.now }
    {
        self.as_bytes().starts_with(prefix.as_bytes())
    }
}

impl Clone for Text {
    ghost is_clone = { λ t copy. copy ≡ t };

    fn clone(&self) -> Result<Text, AllocError> {
        Ok(Text {
            shared: self.shared.clone()?,
        })
    }
}

impl PartialEq for Text {
    ghost eq = { text_eq };

    ghost laws = { text_per };

    fn eq(&self, other: &Text) -> bool {
        self.as_bytes() == other.as_bytes()
    }
}

impl Eq for Text {
    ghost laws = { text_equiv };
}

impl PartialOrd for Text {
    ghost partial_cmp = { text_partial_cmp };

    ghost laws = { text_po };

    fn partial_cmp(&self, other: &Text) -> Option<Ordering> {
        Some(self.cmp(other))
    }
}

impl Ord for Text {
    ghost cmp = { text_cmp };

    ghost total = { text_total };

    ghost matches_partial_cmp = { λ x y. refl };

    ghost matches_eq = { text_ties };

    fn cmp(&self, other: &Text) -> Ordering {
        self.as_bytes().cmp(other.as_bytes())
    }
}

impl Hash for Text {
    ghost hash_input = { text_hash };

    ghost respects_eq = { Prim.search (hashing, rules) };

    fn hash<H: Hasher>(&self, state: &mut H) {
        self.as_bytes().hash(state);
    }
}
