//! The attributes that an element lacks.

ghost use Rattle.std.specs.Prelude.{◌≡◌, ◌==◌, ◌^◌, ◌++◌, List, [], Bool, Some, IfOk, OnOk};
ghost use Rattle.std.specs.List.{list_any};
ghost use Rattle.component_references.specs.Heights.{IsType};
ghost use Rattle.attr_uses.specs.declared.entry.UseAt.{UseAt};
ghost use Rattle.attr_uses.specs.Uses.{AttrUses, use_named};
ghost use Rattle.attr_uses.specs.Tables.{StandsFor, IsStore, AreNeeded};
ghost use Rattle.attr_assess.specs.Governing.{uses_for};
ghost use Rattle.attr_assess.specs.Schema.{IsAttrSet};
ghost use Rattle.attr_assess.specs.Lacking as spec;
ghost use Rattle.attr_assess.specs.Added.{AreNamed, AreLacking};
ghost use Rattle.attr_assess.specs.inside.Uses as inside;

use crate::AttrSchema;
use crate::added::{AddedUse, sort_by_name};
use crate::found::written_use;
use assess_records::NamedText;
use attr_uses::{KeptTable, NeededUse};
use std::alloc::{AllocError, Global};
use xs_components::{NameIdList, TypeId};
use xs_lists::Listed;
use xs_names::NameId;

/// The attributes that an element lacks and its type has a use for: the names of those that are required, and the uses of those
/// that are added, by namespaces, the absent one first, and then by local names.
#[derive(Drop)]
pub struct Lacking<'a> {
    pub missing: NameIdList,
    pub added: Listed<AddedUse<'a>>,
}

/// What an element of a type with these attributes lacks.
///
/// # Errors
///
/// `AllocError` is want of memory.
pub fn lacking_attrs<'a>(
    alloc: Global,
    schema: &AttrSchema<'a>,
    of: TypeId,
    given: &[NamedText],
) -> Result<Lacking<'a>, AllocError>
    requires set { (ids : List Bool) × IsAttrSet schema.now.parts.now schema.now.tops.now ids schema.now.tables.now }
    requires there { IsType schema.now.parts.now of }
    requires named { AreNamed schema.now.names.now schema.now.parts.now }
    ensures lacking { IfOk result (AreLacking schema.now.names.now schema.now.parts.now (uses_for schema.now.parts.now of).uses given.now) }
{
    match schema.table_of(of) {
        None => Ok(Lacking::new(alloc)),
        Some(table) => {
            let Lacking { missing, added } = lacking_in(alloc, schema, &table, given)?;
            let mut uses = added.into_vec();
            sort_by_name(&mut uses)?;
            Ok(Lacking {
                missing,
                added: Listed::from_vec(uses),
            })
        }
    }
}

// What it lacks of the uses in a table, the uses that are added in the order of the numbers of their names.
fn lacking_in<'a>(
    alloc: Global,
    schema: &AttrSchema<'a>,
    table: &KeptTable,
    given: &[NamedText],
) -> Result<Lacking<'a>, AllocError>
    requires store { IsStore schema.now.tables.now.store }
    requires named { AreNamed schema.now.names.now schema.now.parts.now }
    requires table { (ids : List Bool) × (value : AttrUses) × StandsFor schema.now.parts.now ids schema.now.tables.now.store table.now value }
    ensures lacking { (ids : List Bool) (value : AttrUses) → StandsFor schema.now.parts.now ids schema.now.tables.now.store table.now value → IfOk result (inside.AreLackingBelow schema.now.names.now schema.now.parts.now value.uses given.now (2 ^ 32)) }
{
    let mut lacking = Lacking::new(alloc);
    let needed = schema.tables.needed(alloc, *table)?;
    lacking.note_all(schema, needed.as_slice(), given)?;
    Ok(lacking)
}

impl<'a> Lacking<'a> {
    fn new(alloc: Global) -> Lacking<'a>
        ensures missing { result.missing ≡ [] }
        ensures added { result.added ≡ [] }
    {
        Lacking {
            missing: NameIdList::new(alloc),
            added: Listed::new(alloc),
        }
    }

    // Adds those of these names that the element lacks, each with the place of its use.
    fn note_all(
        &mut self,
        schema: &AttrSchema<'a>,
        needed: &[NeededUse],
        given: &[NamedText],
    ) -> Result<(), AllocError>
        requires named { AreNamed schema.now.names.now schema.now.parts.now }
        requires missing { self.old.missing ≡ [] }
        requires added { self.old.added ≡ [] }
        ensures lacking { OnOk result ((uses : List UseAt) → AreNeeded schema.now.parts.now uses 0 needed.now → inside.AreLackingBelow schema.now.names.now schema.now.parts.now uses given.now (2 ^ 32) self.new) }
    {
        let mut left = needed;
        'uses: while let Some((one, more)) = left.split_first() {
            self.note(schema, one, given)?;
            left = more;
        }
        Ok(())
    }

    // Adds the name of a number whose use is written in a place, if the element lacks it.
    fn note(
        &mut self,
        schema: &AttrSchema<'a>,
        one: &NeededUse,
        given: &[NamedText],
    ) -> Result<(), AllocError>
        requires named { AreNamed schema.now.names.now schema.now.parts.now }
        ensures missing { (uses : List UseAt) → use_named schema.now.parts.now uses one.now.name ≡ Some one.now.at → OnOk result (self.new.missing ≡ self.old.missing ++ inside.picked (spec.is_missing schema.now.parts.now uses given.now one.now.name) one.now.name) }
        ensures added { (uses : List UseAt) → use_named schema.now.parts.now uses one.now.name ≡ Some one.now.at → OnOk result (inside.IsNoted schema.now.names.now schema.now.parts.now uses given.now one.now.name self.old.added self.new.added) }
    {
        let Some(found) = written_use(schema.parts, one.at) else {
            return Ok(());
        };
        let name = found.decl.name;
        if has_name(given, name) {
            return Ok(());
        }
        if found.part.required {
            return self.missing.push(name);
        }
        match found.added(schema) {
            Some(added) => self.added.push(added),
            None => Ok(()),
        }
    }
}

// Whether one of these attributes has a name.
fn has_name(given: &[NamedText], name: NameId) -> bool
    ensures { result ≡ list_any (λ attr. attr.name == name) given.now }
{
    given.iter().any(|attr| attr.name == name)
}
