//! Strings of characters.
ghost use Rattle.std.specs.Prelude.{◌≡◌, ◌==◌, IfOk, length};
ghost use Rattle.std.specs.Str.{chars};
ghost use Rattle.std.proofs.Common.{rules};
ghost use Rattle.std.specs.Cmp.Rules.{comparing, hashing};

use std::alloc::{AllocError, Global};
use std::hash::{Hash, Hasher};
use std::marker::Model;

/// A string of characters (Datatypes 3.2.1), of at most 4,294,967,295 bytes in UTF-8.
///
/// Contracts see the bytes, as they see those of a `&str`.
#[derive(Drop)]
pub struct Characters {
    inner: String,
}

impl Model for Characters {
    ghost use Rattle.std.specs.Prelude.{List, ℕ};
    ghost use Rattle.simple_values.specs.Strings.{IsShort};

    ghost Value = { List ℕ };

    ghost use Rattle.simple_values.specs.Held.{bytes_of};

    ghost view = { bytes_of };

    ghost invariant = { λ s. IsShort (bytes_of s) };
}

impl Characters {
    /// A copy of the text. A text of more bytes is answered as want of memory.
    pub fn new(alloc: Global, text: &str) -> Result<Self, AllocError>
        ensures { IfOk result (λ s. s ≡ text.now) }
    {
        if text.len() > u32::MAX as usize {
            return Err(AllocError);
        }
        Ok(Characters {
            inner: String::from_str(alloc, text)?,
        })
    }

    /// The text.
    pub fn as_str(&self) -> &str
        ensures { result.now ≡ self.now }
    {
        self.inner.as_str()
    }

    /// The number of characters.
    pub fn len(&self) -> u32
        ensures { result ≡ length (chars self.now) }
    {
        self.inner.chars().count() as u32
    }

    /// Whether there is no character.
    pub fn is_empty(&self) -> bool
        ensures { result ≡ (length self.now == 0) }
    {
        self.inner.is_empty()
    }
}

/// A clone is the same string.
impl Clone for Characters {
    ghost use Rattle.std.specs.Prelude.{◌≡◌};

    ghost is_clone = { λ text made. made ≡ text };

    fn clone(&self) -> Result<Self, AllocError> {
        Ok(Characters {
            inner: self.inner.clone()?,
        })
    }
}

impl PartialEq for Characters {
    ghost use Rattle.std.specs.Prelude.{bytes_eq};
    ghost use Rattle.std.proofs.Common.{rules};
    ghost use Rattle.std.specs.Cmp.Rules.{comparing};

    ghost eq = { bytes_eq };

    ghost laws = { Prim.search (comparing, rules) };

    fn eq(&self, other: &Characters) -> bool {
        self.as_str() == other.as_str()
    }
}

impl Eq for Characters {
    ghost laws = { Prim.search (comparing, rules) };
}

impl Hash for Characters {
    ghost use Rattle.std.specs.Hash as fed;

    ghost hash_input = { fed.str };

    ghost respects_eq = { Prim.search (hashing, rules) };

    fn hash<H: Hasher>(&self, state: &mut H) {
        self.as_str().hash(state);
    }
}
