//! Strings of octets.
ghost use Rattle.std.specs.Prelude.{◌≡◌, ◌==◌, IfOk, length};
ghost use Rattle.std.proofs.Common.{rules};
ghost use Rattle.std.specs.Cmp.Rules.{comparing, hashing};

use std::alloc::AllocError;
use std::hash::{Hash, Hasher};
use std::marker::Model;

/// A string of octets (Datatypes 3.2.15 and 3.2.16), at most 4,294,967,295.
///
/// Contracts see the list of them.
#[derive(Drop)]
pub struct Octets {
    inner: Vec<u8>,
}

impl Model for Octets {
    ghost use Rattle.std.specs.Prelude.{List, ℕ};
    ghost use Rattle.simple_values.specs.Strings.{IsShort};

    ghost Value = { List ℕ };

    ghost view = { λ s. s.inner.items };

    ghost invariant = { λ s. IsShort s.inner.items };
}

impl Octets {
    /// These octets. More of them are answered as want of memory.
    pub fn from_vec(inner: Vec<u8>) -> Result<Self, AllocError>
        ensures { IfOk result (λ s. s ≡ inner.items) }
    {
        if inner.len() > u32::MAX as usize {
            return Err(AllocError);
        }
        Ok(Octets { inner })
    }

    /// The octets in order.
    pub fn as_slice(&self) -> &[u8]
        ensures { result.now ≡ self.now }
    {
        self.inner.as_slice()
    }

    /// The number of octets.
    pub fn len(&self) -> u32
        ensures { result ≡ length self.now }
    {
        self.inner.len() as u32
    }

    /// Whether there is none.
    pub fn is_empty(&self) -> bool
        ensures { result ≡ (length self.now == 0) }
    {
        self.inner.is_empty()
    }
}

/// A clone is the same string.
impl Clone for Octets {
    ghost use Rattle.std.specs.Prelude.{◌≡◌};

    ghost is_clone = { λ octets made. made ≡ octets };

    fn clone(&self) -> Result<Self, AllocError> {
        Ok(Octets {
            inner: self.inner.clone()?,
        })
    }
}

impl PartialEq for Octets {
    ghost use Rattle.std.specs.Prelude.{bytes_eq};

    ghost eq = { bytes_eq };

    ghost laws = { Prim.search (comparing, rules) };

    fn eq(&self, other: &Octets) -> bool {
        self.as_slice() == other.as_slice()
    }
}

impl Eq for Octets {
    ghost laws = { Prim.search (comparing, rules) };
}

impl Hash for Octets {
    ghost use Rattle.std.specs.Hash as fed;

    ghost hash_input = { fed.slice fed.u8 };

    ghost respects_eq = { Prim.search (hashing, rules) };

    fn hash<H: Hasher>(&self, state: &mut H) {
        self.as_slice().hash(state);
    }
}
