ghost use Rattle.std.specs.Prelude.{◌≡◌, ℕ, List, Bool, not};
ghost use Rattle.s3_types.specs.Pages.{begins};
ghost use Rattle.list_walk.specs.Walks.{all_go};

use s3_types::Text;

/// A test on keys.
pub trait KeyTest {
    /// Whether a key passes the test.
    ghost goes: { Self → List ℕ → Bool };

    /// Whether a key passes. Takes no memory.
    fn takes(&self, key: &Text) -> bool
        ensures { result ≡ goes self.now key.now };
}

/// All keys.
#[derive(Clone, Copy)]
pub struct AllKeys;

impl KeyTest for AllKeys {
    ghost goes = { λ _. all_go };

    fn takes(&self, _key: &Text) -> bool {
        true
    }
}

/// All keys but those that begin with a prefix.
#[derive(Drop)]
pub struct AllBut {
    pub prefix: Text,
}

impl KeyTest for AllBut {
    ghost goes = { λ test key. not (begins test.prefix key) };

    fn takes(&self, key: &Text) -> bool {
        !key.starts_with(&self.prefix)
    }
}
