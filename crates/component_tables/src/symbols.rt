ghost use Rattle.std.specs.Prelude.{◌≡◌, ℕ, ◌<◌, ◌≤◌, ◌==◌, ◌∷◌, ◌++◌, [], Some, None, length, slice_index_or, if◌then◌else◌, OnOk, OnErr};
ghost use Rattle.std.specs.Option.{option_or};
ghost use Rattle.component_tables.specs.Symbols.{first_place};

use std::alloc::{AllocError, Global};
use std::marker::Model;
use xs_names::NameId;

/// The names in one symbol space, by place: a place has a name there or none. Contracts see the list of these.
pub struct Symbols {
    names: Vec<Option<NameId>>,
    firsts: Vec<Option<u32>>,
}

impl Model for Symbols {
    ghost use Rattle.std.specs.Prelude.{ℕ, List, Option};

    ghost Value = { List (Option ℕ) };

    ghost use Rattle.component_tables.specs.Symbols.{AreKept};

    ghost view = { λ s. s.names.items };

    ghost invariant = { λ s. AreKept s.names.items s.firsts.items };
}

impl Symbols {
    /// No places.
    pub fn new(alloc: Global) -> Self
        ensures none { result ≡ [] }
    {
        Symbols {
            names: Vec::new(alloc),
            firsts: Vec::new(alloc),
        }
    }

    /// Adds the next place, with its name if it has one.
    ///
    /// # Errors
    ///
    /// When memory is wanting; the places are then as they were.
    pub fn push(&mut self, name: Option<NameId>) -> Result<(), AllocError>
        ensures ok { OnOk result (self.new ≡ self.old ++ name ∷ []) }
        ensures err { OnErr result (self.new ≡ self.old) }
    {
        let place = self.names.len();
        if place >= u32::MAX as usize {
            return Err(AllocError);
        }
        match name {
            None => self.names.push(None)?,
            Some(symbol) => {
                lengthen(&mut self.firsts, symbol.number() as usize + 1)?;
                self.names.push(name)?;
                put(&mut self.firsts, place as u32, symbol.number() as usize);
            }
        }
        Ok(())
    }

    /// The first place of a name, if there is one.
    pub fn first(&self, name: NameId) -> Option<u32>
        ensures place { result ≡ first_place self.now name }
    {
        match self.firsts.get(name.number() as usize) {
            Some(first) => *first,
            None => None,
        }
    }

    /// The name of each place, if it has one.
    pub fn names(&self) -> &[Option<NameId>]
        ensures names { result.now ≡ self.now }
    {
        self.names.as_slice()
    }
}

// Writes a place for a name, if none stands there.
fn put(firsts: &mut Vec<Option<u32>>, place: u32, name: usize)
    requires { name < length firsts.old.items }
    ensures { (n : ℕ) → slice_index_or firsts.new.items n None ≡ option_or (slice_index_or firsts.old.items n None) (if name == n then Some place else None) }
{
    match firsts[name] {
        Some(_) => {}
        None => firsts[name] = Some(place),
    }
}

// Makes the list so long, with names that have no place.
fn lengthen(firsts: &mut Vec<Option<u32>>, count: usize) -> Result<(), AllocError>
    ensures long { OnOk result (count ≤ length firsts.new.items) }
    ensures same { (n : ℕ) → slice_index_or firsts.new.items n None ≡ slice_index_or firsts.old.items n None }
{
    while firsts.len() < count {
        firsts.push(None)?;
    }
    Ok(())
}

impl Drop for Symbols {
    fn drop(self) {
        let Symbols { names, firsts } = self;
        drop(names);
        drop(firsts);
    }
}
