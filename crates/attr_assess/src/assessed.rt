//! The records of an element's attributes.

ghost use Rattle.std.specs.Prelude.{◌≡◌, ◌<◌, ◌∷◌, List, [], Bool, All, length, IfOk, IfSome, OnOk};
ghost use Rattle.component_references.specs.Heights.{IsType};
ghost use Rattle.attr_assess.specs.Governing.{uses_for};
ghost use Rattle.attr_assess.specs.Schema.{IsAttrSet};
ghost use Rattle.attr_assess.specs.Added.{AreNamed};
ghost use Rattle.attr_assess.specs.Known.{AreKnownUses};
ghost use Rattle.attr_assess.specs.Types.{IsTypeSet};
ghost use Rattle.attr_assess.specs.Assessed.{AreAttrsAssessed, IsGivenJudged};
ghost use Rattle.attr_assess.specs.inside.Lists.{Holds, HoldsEach, HoldsLacking, IsUse, IsUseJudged};

use crate::{
    AddedUse, AttrGoverning, AttrItem, AttrSchema, JudgedAttr, Lacking, judge, lacking_attrs,
};
use assess_records::{AttrRecords, NamedText, Shared, ValueSource};
use simple_types::SimpleTypes;
use simple_values::Value;
use std::alloc::{AllocError, Global};
use xs_components::{Components, NameIdList, TypeId};
use xs_lists::Listed;
use xs_names::Scope;

/// The values of an element's attributes, place by place; `None` where the text is not valid, or is not assessed.
pub type AttrValues = Listed<Shared<Option<Value>>>;

/// What is found out about an element's attributes.
#[derive(Drop)]
pub struct AssessedAttrs {
    /// The records: of the attributes that the element has in document order, then of those that are added, by namespaces,
    /// the absent one first, and then by local names.
    pub records: AttrRecords,
    /// The value of each.
    pub values: AttrValues,
    /// The names of the required attributes that the element does not have.
    pub missing: NameIdList,
}

/// Assesses the attributes of an element by its governing type, which is `None` where the element is skipped (Structures
/// 3.4.4, 3.4.5). The scope is that of the element.
///
/// # Errors
///
/// `AllocError` is want of memory.
pub fn assess_attrs(
    alloc: Global,
    schema: &AttrSchema<'_>,
    types: &mut SimpleTypes,
    of: Option<TypeId>,
    attrs: &[NamedText],
    scope: &Scope,
) -> Result<AssessedAttrs, AllocError>
    requires set { (ids : List Bool) × IsAttrSet schema.now.parts.now schema.now.tops.now ids schema.now.tables.now }
    requires types { IsTypeSet schema.now.parts.now types.old }
    requires there { IfSome of (IsType schema.now.parts.now) }
    requires named { AreNamed schema.now.names.now schema.now.parts.now }
    requires known { AreKnownUses schema.now.parts.now schema.now.known.now }
    requires given { All (λ attr. attr.name < length schema.now.names.now.names) attrs.now }
    ensures assessed { IfOk result (AreAttrsAssessed schema.now.names.now schema.now.parts.now of scope.now attrs.now) }
    ensures same { types.new ≡ types.old }
{
    let mut assessed = AssessedAttrs::with_room(alloc, attrs.len())?;
    match assessed.add_all(alloc, schema, types, &of, attrs, scope) {
        Ok(()) => Ok(assessed),
        Err(error) => Err(error),
    }
}

impl AssessedAttrs {
    // Nothing assessed yet, with room for so many attributes.
    fn with_room(alloc: Global, count: usize) -> Result<AssessedAttrs, AllocError>
        ensures records { IfOk result (λ assessed. assessed.records ≡ []) }
        ensures values { IfOk result (λ assessed. assessed.values ≡ []) }
        ensures missing { IfOk result (λ assessed. assessed.missing ≡ []) }
    {
        let records = Vec::with_capacity(alloc, count)?;
        let values = Vec::with_capacity(alloc, count)?;
        Ok(AssessedAttrs {
            records: AttrRecords::from_vec(records),
            values: AttrValues::from_vec(values),
            missing: NameIdList::new(alloc),
        })
    }

    // Adds the attributes that the element has, and what it lacks.
    fn add_all(
        &mut self,
        alloc: Global,
        schema: &AttrSchema<'_>,
        types: &mut SimpleTypes,
        of: &Option<TypeId>,
        attrs: &[NamedText],
        scope: &Scope,
    ) -> Result<(), AllocError>
        requires records { self.old.records ≡ [] }
        requires values { self.old.values ≡ [] }
        requires missing { self.old.missing ≡ [] }
        requires set { (ids : List Bool) × IsAttrSet schema.now.parts.now schema.now.tops.now ids schema.now.tables.now }
        requires types { IsTypeSet schema.now.parts.now types.old }
        requires there { IfSome of.now (IsType schema.now.parts.now) }
        requires named { AreNamed schema.now.names.now schema.now.parts.now }
        requires known { AreKnownUses schema.now.parts.now schema.now.known.now }
        requires given { All (λ attr. attr.name < length schema.now.names.now.names) attrs.now }
        ensures assessed { OnOk result (AreAttrsAssessed schema.now.names.now schema.now.parts.now of.now scope.now attrs.now self.new) }
        ensures same { types.new ≡ types.old }
    {
        self.add_given(alloc, schema, types, of, attrs, scope)?;
        match of {
            None => Ok(()),
            Some(of) => self.add_lacking(alloc, schema, types, of, attrs),
        }
    }

    // Adds the attributes that the schema adds to an element of a type with these, and the names of those that are missing.
    fn add_lacking(
        &mut self,
        alloc: Global,
        schema: &AttrSchema<'_>,
        types: &mut SimpleTypes,
        of: &TypeId,
        attrs: &[NamedText],
    ) -> Result<(), AllocError>
        requires set { (ids : List Bool) × IsAttrSet schema.now.parts.now schema.now.tops.now ids schema.now.tables.now }
        requires types { IsTypeSet schema.now.parts.now types.old }
        requires there { IsType schema.now.parts.now of.now }
        requires named { AreNamed schema.now.names.now schema.now.parts.now }
        requires known { AreKnownUses schema.now.parts.now schema.now.known.now }
        ensures lacking { OnOk result (HoldsLacking schema.now.names.now schema.now.parts.now (uses_for schema.now.parts.now of.now).uses attrs.now self.old self.new) }
        ensures same { types.new ≡ types.old }
    {
        let Lacking { missing, added } = lacking_attrs(alloc, schema, *of, attrs)?;
        self.missing = missing;
        self.add_uses(alloc, schema, types, added.as_slice())
    }

    // Adds the attributes that the element has.
    fn add_given<'a>(
        &mut self,
        alloc: Global,
        schema: &AttrSchema<'_>,
        types: &mut SimpleTypes,
        of: &Option<TypeId>,
        attrs: &'a [NamedText],
        scope: &'a Scope,
    ) -> Result<(), AllocError>
        requires set { (ids : List Bool) × IsAttrSet schema.now.parts.now schema.now.tops.now ids schema.now.tables.now }
        requires types { IsTypeSet schema.now.parts.now types.old }
        requires there { IfSome of.now (IsType schema.now.parts.now) }
        requires given { All (λ attr. attr.name < length schema.now.names.now.names) attrs.now }
        ensures held { OnOk result (HoldsEach (IsGivenJudged schema.now.names.now schema.now.parts.now of.now scope.now) attrs.now self.old self.new) }
        ensures same { types.new ≡ types.old }
    {
        for attr in attrs {
            let item = AttrItem {
                name: attr.name,
                source: ValueSource::Given,
                scope,
                text: attr.text.as_str(),
            };
            let governing = schema.governing(*of, attr.name);
            let judged = judge(alloc, schema.parts, types, &item, governing)?;
            self.push(judged)?;
        }
        Ok(())
    }

    // Adds the attributes of uses, with the texts of their constraints.
    fn add_uses(
        &mut self,
        alloc: Global,
        schema: &AttrSchema<'_>,
        types: &mut SimpleTypes,
        uses: &[AddedUse<'_>],
    ) -> Result<(), AllocError>
        requires types { IsTypeSet schema.now.parts.now types.old }
        requires known { AreKnownUses schema.now.parts.now schema.now.known.now }
        requires written { All (IsUse schema.now.parts.now) uses.now }
        ensures held { OnOk result (HoldsEach (IsUseJudged schema.now.parts.now) uses.now self.old self.new) }
        ensures same { types.new ≡ types.old }
    {
        for added in uses {
            let judged = judged_use(alloc, schema, types, added)?;
            self.push(judged)?;
        }
        Ok(())
    }

    fn push(&mut self, judged: JudgedAttr) -> Result<(), AllocError>
        ensures { OnOk result (Holds self.old (judged ∷ []) self.new) }
    {
        self.records.push(judged.known)?;
        self.values.push(judged.value)
    }
}

// The attribute of a use with the text of its constraint: what is known of it, or else what it is judged to be.
fn judged_use(
    alloc: Global,
    schema: &AttrSchema<'_>,
    types: &mut SimpleTypes,
    added: &AddedUse<'_>,
) -> Result<JudgedAttr, AllocError>
    requires types { IsTypeSet schema.now.parts.now types.old }
    requires known { AreKnownUses schema.now.parts.now schema.now.known.now }
    requires written { IsUse schema.now.parts.now added.now }
    ensures judged { IfOk result (IsUseJudged schema.now.parts.now added.now) }
    ensures same { types.new ≡ types.old }
{
    match schema.known.at(added.at) {
        Some(judged) => judged.again(),
        None => judge_use(alloc, schema.parts, types, added),
    }
}

fn judge_use(
    alloc: Global,
    parts: &Components,
    types: &mut SimpleTypes,
    added: &AddedUse<'_>,
) -> Result<JudgedAttr, AllocError>
    requires types { IsTypeSet parts.now types.old }
    ensures judged { IfOk result (IsUseJudged parts.now added.now) }
    ensures same { types.new ≡ types.old }
{
    let item = AttrItem {
        name: added.name,
        source: ValueSource::Schema,
        scope: &added.constraint.scope,
        text: added.constraint.text.as_str(),
    };
    let governing = AttrGoverning::Declared {
        attribute: added.attribute,
        by: Some(added.at),
    };
    judge(alloc, parts, types, &item, governing)
}
