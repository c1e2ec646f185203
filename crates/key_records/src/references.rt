//! Which keys and uniques keyrefs refer to.

ghost use Rattle.std.specs.Prelude.{◌≡◌, ◌<◌, ◌^◌, ◌++◌, ◌∷◌, [], IfSome, OnOk};
ghost use Rattle.key_records.specs.References.{AreReferences, IsOneMoreKeyref, is_referred, key_of, keyrefs_of, refers};

use std::alloc::{AllocError, Global};
use std::collections::HashMap;

// So many constraints can be told apart by the numbers of their tables.
pub(crate) const MOST: usize = 1 << 31;

/// The keys and uniques to which the keyrefs of a schema set refer (Structures 3.11.1), by the numbers of constraints.
pub struct References {
    alloc: Global,
    // Of each constraint the key or unique that it refers to, if it is a keyref.
    keys: Vec<Option<u32>>,
    // Of each key and unique that is referred to its keyrefs.
    keyrefs: HashMap<u32, Vec<u32>>,
}

impl References {
    /// Of no constraints.
    pub fn new(alloc: Global) -> Self
        ensures sound { AreReferences result }
        ensures none { refers result ≡ [] }
    {
        let keys = Vec::new(alloc);
        let keyrefs = HashMap::new(alloc);
        References {
            alloc,
            keys,
            keyrefs,
        }
    }

    // Puts a keyref behind those of its key or unique.
    fn add_keyref(&mut self, key: u32, keyref: u32) -> Result<(), AllocError>
        ensures keyrefs { OnOk result (IsOneMoreKeyref self.old self.new key keyref) }
        ensures same { OnOk result (refers self.new ≡ refers self.old) }
    {
        if let Some(keyrefs) = self.keyrefs.get_mut(&key) {
            keyrefs.push(keyref)?;
            return Ok(());
        }
        let mut keyrefs = Vec::new(self.alloc);
        keyrefs.push(keyref)?;
        self.keyrefs.insert(key, keyrefs)?;
        Ok(())
    }

    /// Puts a constraint behind the others: a keyref with the number of the key or unique that it refers to, or another.
    ///
    /// # Errors
    ///
    /// `AllocError` is want of memory, or there would be more than 2,147,483,648 constraints. Then nothing is said of the references.
    pub fn push(&mut self, key: Option<u32>) -> Result<(), AllocError>
        requires { AreReferences self.old }
        ensures sound { OnOk result (AreReferences self.new) }
        ensures keys { OnOk result (refers self.new ≡ refers self.old ++ key ∷ []) }
    {
        let Some(found) = key else {
            self.keys.push(None)?;
            return Ok(());
        };
        let number = self.keys.len();
        if number >= MOST || found as usize >= MOST {
            return Err(AllocError);
        }
        self.add_keyref(found, number as u32)?;
        self.keys.push(key)?;
        Ok(())
    }

    // The key or unique that a constraint refers to, if it is a keyref.
    fn find(&self, constraint: u32) -> Option<u32>
        ensures { result ≡ key_of self.now constraint }
    {
        match self.keys.get(constraint as usize) {
            None => None,
            Some(key) => *key,
        }
    }

    /// The key or unique that a constraint refers to, if it is a keyref.
    pub fn key_of(&self, constraint: u32) -> Option<u32>
        requires { AreReferences self.now }
        ensures key { result ≡ key_of self.now constraint }
        ensures few { IfSome result (λ key. (constraint < 2 ^ 31) × (key < 2 ^ 31)) }
    {
        self.find(constraint)
    }

    /// The keyrefs that refer to a key or unique.
    pub fn keyrefs_of(&self, key: u32) -> &[u32]
        ensures { result.now ≡ keyrefs_of self.now key }
    {
        match self.keyrefs.get(&key) {
            None => &[],
            Some(keyrefs) => keyrefs.as_slice(),
        }
    }

    /// Whether some keyref refers to a key or unique.
    pub(crate) fn is_referred(&self, key: u32) -> bool
        ensures { result ≡ is_referred self.now key }
    {
        !self.keyrefs_of(key).is_empty()
    }
}

impl Drop for References {
    fn drop(self) {
        let References {
            alloc: _,
            keys,
            keyrefs,
        } = self;
        drop(keys);
        drop(keyrefs);
    }
}
