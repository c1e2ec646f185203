//! The attribute tables of a schema set.

ghost use Rattle.std.specs.Prelude.{◌≡◌, ◌<◌, ◌↔◌, [], List, Bool, IsTrue, length, option_copied, IfOk};
ghost use Rattle.xs_components.specs.Tables.{Tables};
ghost use Rattle.component_references.specs.Heights.{IsType};
ghost use Rattle.component_references.specs.Ranked.{IsRanked};
ghost use Rattle.attr_uses.specs.Written as written;
ghost use Rattle.attr_uses.specs.Uses as spec;
ghost use Rattle.attr_uses.specs.Uses.{AttrUses};
ghost use Rattle.attr_uses.specs.Tables.{StandsFor, Answers, AreTablesOf, IsTableOf, HasTwoOfOneName, HasTwoIds, AreNeeded, IsNextUnlike, IsWildcard, IsStore};

use crate::groups::Answer;
use crate::own::uses_in;
use crate::store::{KeptTable, Store};
use crate::{NeededUse, UseAt};
use std::alloc::{AllocError, Global};
use xs_codes::Fault;
use xs_components::{AttrGroupId, AttrUse, Components, TypeId, Wildcard};
use xs_lists::Listed;
use xs_names::NameId;

/// The attribute uses and the attribute wildcards of all complex types and attribute groups of a schema set. A table shares
/// with that of its base what is alike.
pub struct AttrTables {
    pub(crate) store: Store,
    pub(crate) groups: Listed<Answer>,
    pub(crate) types: Listed<Answer>,
}

/// The table of one type or of one attribute group, alone.
#[derive(Drop)]
pub struct AttrTable {
    /// The tables that it stands among.
    pub tables: AttrTables,
    /// Which of them it is.
    pub kept: KeptTable,
}

impl AttrTables {
    /// Makes them, each once, those that it is made of before it. The marks, by numbers of attribute declarations, say which are
    /// of a type that is or derives from ID.
    pub fn of(alloc: Global, parts: &Components, ids: &[bool]) -> Result<AttrTables, AllocError>
        requires ranked { IsRanked parts.now }
        ensures tables { IfOk result (AreTablesOf parts.now ids.now) }
    {
        let mut store = Store::new(alloc)?;
        let groups = store.all_groups(alloc, parts, ids)?;
        let types = store.all_types(alloc, parts, ids, groups.as_slice())?;
        Ok(AttrTables {
            store,
            groups,
            types,
        })
    }

    /// The table of a type.
    ///
    /// # Errors
    ///
    /// The fault of the part for which an intersection or a union of wildcards has no form: of the type, of an attribute group
    /// or of a type that it is made of.
    pub fn of_type(&self, of: TypeId) -> Result<KeptTable, Fault>
        requires store { IsStore self.now.store }
        ensures table { (t : Tables) (ids : List Bool) → AreTablesOf t ids self.now → IsType t of → Answers t ids self.now.store result (spec.uses_of t of) }
    {
        self.store.known_table(self.types.as_slice(), of)
    }

    /// The table of an attribute group.
    ///
    /// # Errors
    ///
    /// The fault of the group for which an intersection of wildcards has no form: of this one or of one that it is made of.
    pub fn of_group(&self, of: AttrGroupId) -> Result<KeptTable, Fault>
        ensures table { (t : Tables) (ids : List Bool) → AreTablesOf t ids self.now → of < length t.attr_groups.parts → Answers t ids self.now.store result (spec.group_uses t of) }
    {
        match self.groups.get(of.number() as usize) {
            Some(answer) => *answer,
            None => Ok(self.store.nothing()),
        }
    }

    /// The first use of a name.
    pub fn use_named(&self, table: KeptTable, name: NameId) -> Option<UseAt>
        requires store { IsStore self.now.store }
        requires table { (t : Tables) × (ids : List Bool) × (value : AttrUses) × StandsFor t ids self.now.store table value }
        ensures named { (t : Tables) (ids : List Bool) (value : AttrUses) → StandsFor t ids self.now.store table value → result ≡ spec.use_named t value.uses name }
    {
        self.use_numbered(table, name.number())
    }

    /// The first use of the name of this number, as [`AttrTables::next_unlike`] answers it.
    pub fn use_numbered(&self, table: KeptTable, name: u32) -> Option<UseAt>
        requires store { IsStore self.now.store }
        requires table { (t : Tables) × (ids : List Bool) × (value : AttrUses) × StandsFor t ids self.now.store table value }
        ensures named { (t : Tables) (ids : List Bool) (value : AttrUses) → StandsFor t ids self.now.store table value → result ≡ spec.use_named t value.uses name }
    {
        match self.store.maps.get(table.uses, name) {
            Some(entry) => Some(entry.first),
            None => None,
        }
    }

    /// Whether two different uses have one name.
    pub fn has_two_of_one_name(&self, table: KeptTable) -> bool
        requires store { IsStore self.now.store }
        requires table { (t : Tables) × (ids : List Bool) × (value : AttrUses) × StandsFor t ids self.now.store table value }
        ensures two { (t : Tables) (ids : List Bool) (value : AttrUses) → StandsFor t ids self.now.store table value → IsTrue result ↔ HasTwoOfOneName t value.uses }
    {
        self.store.maps.has_double(table.uses)
    }

    /// Whether the first uses of two names are of declarations that are marked as of a type of IDs.
    pub fn has_two_ids(&self, table: KeptTable) -> bool
        requires store { IsStore self.now.store }
        requires table { (t : Tables) × (ids : List Bool) × (value : AttrUses) × StandsFor t ids self.now.store table value }
        ensures two { (t : Tables) (ids : List Bool) (value : AttrUses) → StandsFor t ids self.now.store table value → IsTrue result ↔ HasTwoIds t ids value.uses }
    {
        self.store.maps.has_two_ids(table.uses)
    }

    /// The numbers of the names whose first uses are required or have a value constraint, the least first, each with that use.
    ///
    /// # Errors
    ///
    /// `AllocError` is want of memory.
    pub fn needed(&self, alloc: Global, table: KeptTable) -> Result<Vec<NeededUse>, AllocError>
        requires store { IsStore self.now.store }
        requires table { (t : Tables) × (ids : List Bool) × (value : AttrUses) × StandsFor t ids self.now.store table value }
        ensures needed { (t : Tables) (ids : List Bool) (value : AttrUses) → StandsFor t ids self.now.store table value → IfOk result (λ needed. AreNeeded t value.uses 0 needed.items) }
    {
        self.store.maps.needed(alloc, table.uses)
    }

    /// The next number of a name, from this one on, for which two tables may have different first uses: they have the same for
    /// each name that is passed over. What the tables share is passed over whole.
    pub fn next_unlike(&self, one: KeptTable, other: KeptTable, from: u32) -> Option<u32>
        requires store { IsStore self.now.store }
        requires one { (t : Tables) × (ids : List Bool) × (value : AttrUses) × StandsFor t ids self.now.store one value }
        requires other { (t : Tables) × (ids : List Bool) × (value : AttrUses) × StandsFor t ids self.now.store other value }
        ensures next { (t : Tables) (ids : List Bool) (value also : AttrUses) → StandsFor t ids self.now.store one value → StandsFor t ids self.now.store other also → IsNextUnlike t value.uses also.uses from result }
    {
        self.store.maps.next_unlike(one.uses, other.uses, from)
    }

    /// The attribute wildcard.
    pub fn wildcard(&self, table: KeptTable) -> Option<&Wildcard>
        ensures wildcard { (t : Tables) (ids : List Bool) (value : AttrUses) → StandsFor t ids self.now.store table value → IsWildcard (option_copied result) value.wildcard }
    {
        match table.wildcard {
            Some(number) => self.store.wildcards.get(number as usize),
            None => None,
        }
    }
}

/// The attribute uses and the attribute wildcard of a type (Structures 3.4.2). It makes those of all; who asks for many makes
/// `AttrTables`.
///
/// # Errors
///
/// The fault of the part for which an intersection or a union of wildcards has no form.
pub fn uses_of(
    alloc: Global,
    parts: &Components,
    of: TypeId,
) -> Result<Result<AttrTable, Fault>, AllocError>
    requires ranked { IsRanked parts.now }
    requires there { IsType parts.now of }
    ensures table { IfOk result (λ table. IsTableOf parts.now [] table (spec.uses_of parts.now of)) }
{
    let tables = AttrTables::of(alloc, parts, &[])?;
    match tables.of_type(of) {
        Ok(kept) => Ok(Ok(AttrTable { tables, kept })),
        Err(fault) => Ok(Err(fault)),
    }
}

/// The attribute uses and the attribute wildcard of an attribute group (Structures 3.6.2).
///
/// # Errors
///
/// The fault of the group for which an intersection of wildcards has no form.
pub fn group_uses(
    alloc: Global,
    parts: &Components,
    of: AttrGroupId,
) -> Result<Result<AttrTable, Fault>, AllocError>
    requires ranked { IsRanked parts.now }
    requires there { of < length parts.now.attr_groups.parts }
    ensures table { IfOk result (λ table. IsTableOf parts.now [] table (spec.group_uses parts.now of)) }
{
    let tables = AttrTables::of(alloc, parts, &[])?;
    match tables.of_group(of) {
        Ok(kept) => Ok(Ok(AttrTable { tables, kept })),
        Err(fault) => Ok(Err(fault)),
    }
}

/// The attribute use that is written in a place.
pub fn use_at(parts: &Components, at: UseAt) -> Option<&AttrUse>
    ensures written { option_copied result ≡ written.use_at parts.now at }
{
    uses_in(parts, at.holder).get(at.place)
}

impl Drop for AttrTables {
    fn drop(self) {
        let AttrTables {
            store,
            groups,
            types,
        } = self;
        drop(store);
        drop(groups);
        drop(types);
    }
}
