ghost use Rattle.std.specs.Prelude.{◌≡◌, ◌≤◌, ◌==◌, ◌↔◌, [], length, nat_eq, IsTrue, OnOk, OnErr, IfOk};

use crate::counts::Counts;
use std::alloc::{AllocError, Global};
use std::collections::HashMap;
use std::marker::Model;

// The elements that bear an id, as often as each does, and how often it is referred to.
#[derive(Drop)]
struct Uses {
    bearers: Counts<u32>,
    references: u32,
}

impl Uses {
    ghost use Rattle.identity_tables.specs.Uses.{missing_weight, shared_weight, is_unused};

    // Neither an id nor a reference.
    fn new(alloc: Global) -> Self
        ensures { result ≡ record { bearers = []; references = 0 } }
    {
        Uses {
            bearers: Counts::new(alloc),
            references: 0,
        }
    }

    // 1 where there is a reference and no bearer, else 0.
    fn missing(&self) -> u32
        ensures { result ≡ missing_weight self.now }
    {
        u32::from(0 < self.references && self.bearers.is_empty())
    }

    // 1 where there are two different bearers, else 0.
    fn shared(&self) -> u32
        ensures { result ≡ shared_weight self.now }
    {
        u32::from(self.bearers.has_several())
    }

    // Whether there is neither a reference nor a bearer.
    fn is_unused(&self) -> bool
        ensures { result ≡ is_unused self.now }
    {
        self.references == 0 && self.bearers.is_empty()
    }
}

/// Ids with the elements that bear them, and references to ids (Structures 3.15.5). Contracts see how often each was added
/// and not dropped.
#[derive(Drop)]
pub struct IdTable {
    alloc: Global,
    ids: HashMap<String, Uses>,
    // All references.
    references: u32,
    // The ids with a reference and no bearer.
    missing: u32,
    // The ids with two different bearers.
    shared: u32,
}

impl Model for IdTable {
    ghost use Rattle.std.specs.Prelude.{List};
    ghost use Rattle.std.specs.declared.string.String.{String};
    ghost use Rattle.std.specs.declared.alloc.Global.{Global};
    ghost use Rattle.identity_tables.specs.declared.id_table.Uses.{Uses};
    ghost use Rattle.identity_tables.specs.Uses.{IsCensus};

    ghost Value = { List (String Global × Uses) };

    ghost view = { λ t. t.ids.entries };

    ghost invariant = { λ t. IsCensus t.ids.entries t.references t.missing t.shared };
}

impl IdTable {
    ghost use Rattle.identity_tables.specs.IdTable.{id_count, reference_count, IsOneMoreId, IsOneMoreReference, HasMissingId, HasSharedId, HasSameUses};

    /// No ids and no references.
    pub fn new(alloc: Global) -> Result<Self, AllocError>
        ensures { IfOk result (λ table. table ≡ []) }
    {
        Ok(IdTable {
            alloc,
            ids: HashMap::new(alloc),
            references: 0,
            missing: 0,
            shared: 0,
        })
    }

    /// Adds an id for the element that bears it. Where memory is wanting, or a count would pass 4,294,967,295, the table
    /// stays.
    pub fn add_id(&mut self, id: &str, bearer: u32) -> Result<(), AllocError>
        ensures ok { OnOk result (IsOneMoreId self.old self.new id.now bearer) }
        ensures err { OnErr result (self.new ≡ self.old) }
    {
        if self.shared == u32::MAX {
            return Err(AllocError);
        }
        if let Some(uses) = self.ids.get_mut(id) {
            let missing = self.missing - uses.missing();
            let shared = self.shared - uses.shared();
            uses.bearers.add(bearer)?;
            self.missing = missing + uses.missing();
            self.shared = shared + uses.shared();
            return Ok(());
        }
        let mut uses = Uses::new(self.alloc);
        uses.bearers.add(bearer)?;
        self.ids.insert(String::from_str(self.alloc, id)?, uses)?;
        Ok(())
    }

    /// Drops an id for an element once. It takes no memory.
    pub fn drop_id(&mut self, id: &str, bearer: u32)
        requires { 1 ≤ id_count self.old id.now bearer }
        ensures { IsOneMoreId self.new self.old id.now bearer }
    {
        let Some(uses) = self.ids.get_mut(id) else {
            return;
        };
        let missing = self.missing - uses.missing();
        let shared = self.shared - uses.shared();
        uses.bearers.drop_one(&bearer);
        self.missing = missing + uses.missing();
        self.shared = shared + uses.shared();
        self.forget_unused(id);
    }

    /// Adds a reference to an id. Where memory is wanting, or there would be more than 4,294,967,295 references, the table
    /// stays.
    pub fn add_ref(&mut self, id: &str) -> Result<(), AllocError>
        ensures ok { OnOk result (IsOneMoreReference self.old self.new id.now) }
        ensures err { OnErr result (self.new ≡ self.old) }
    {
        if self.references == u32::MAX {
            return Err(AllocError);
        }
        if let Some(uses) = self.ids.get_mut(id) {
            let missing = self.missing - uses.missing();
            uses.references += 1;
            self.references += 1;
            self.missing = missing + uses.missing();
            return Ok(());
        }
        let mut uses = Uses::new(self.alloc);
        uses.references = 1;
        self.ids.insert(String::from_str(self.alloc, id)?, uses)?;
        self.references += 1;
        self.missing += 1;
        Ok(())
    }

    /// Drops a reference to an id once. It takes no memory.
    pub fn drop_ref(&mut self, id: &str)
        requires { 1 ≤ reference_count self.old id.now }
        ensures { IsOneMoreReference self.new self.old id.now }
    {
        let Some(uses) = self.ids.get_mut(id) else {
            return;
        };
        let missing = self.missing - uses.missing();
        uses.references -= 1;
        self.references -= 1;
        self.missing = missing + uses.missing();
        self.forget_unused(id);
    }

    /// How often the id was added for the element and not dropped.
    pub fn id_count(&self, id: &str, bearer: u32) -> u32
        ensures { result ≡ id_count self.now id.now bearer }
    {
        match self.ids.get(id) {
            None => 0,
            Some(uses) => uses.bearers.count(&bearer),
        }
    }

    /// How often a reference to the id was added and not dropped.
    pub fn reference_count(&self, id: &str) -> u32
        ensures { result ≡ reference_count self.now id.now }
    {
        match self.ids.get(id) {
            None => 0,
            Some(uses) => uses.references,
        }
    }

    /// Whether some reference has no id (cvc-id.1), and whether some id has two different bearers (cvc-id.2).
    pub fn codes(&self) -> (bool, bool)
        ensures missing { IsTrue result.0 ↔ HasMissingId self.now }
        ensures shared { IsTrue result.1 ↔ HasSharedId self.now }
    {
        (0 < self.missing, 0 < self.shared)
    }

    // Takes an id without bearers and references out.
    fn forget_unused(&mut self, id: &str)
        ensures { HasSameUses self.old self.new }
    {
        let Some(uses) = self.ids.get(id) else {
            return;
        };
        if uses.is_unused() {
            self.ids.remove(id);
        }
    }
}
