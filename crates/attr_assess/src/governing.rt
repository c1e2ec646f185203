//! What governs an attribute.

ghost use Rattle.std.specs.Prelude.{◌≡◌, ◌<◌, List, Bool, length, IfSome};
ghost use Rattle.component_references.specs.Heights.{IsType};
ghost use Rattle.component_tables.specs.Named.{spaces_of, attribute_with};
ghost use Rattle.xs_names.specs.Names.{space_of};
ghost use Rattle.attr_uses.specs.Uses.{AttrUses, use_named};
ghost use Rattle.attr_uses.specs.Tables.{IsStore};
ghost use Rattle.attr_uses.specs.Written.{use_at};
ghost use Rattle.attr_assess.specs.Governing as spec;
ghost use Rattle.attr_assess.specs.Schema.{IsAttrSet, IsTableIf};

use crate::AttrSchema;
use crate::instance::instance_type;
use assess_records::instance_attribute;
use attr_uses::{KeptTable, UseAt, use_at};
use xs_codes::{Builtin, Code};
use xs_components::{AttributeId, Process, TypeId};
use xs_names::NameId;

/// What governs an attribute (Structures 3.2.4, 3.4.4).
#[derive(Clone, Copy)]
pub enum AttrGoverning {
    /// It is one of the four of the namespace of schema instances, of this type.
    Instance(Builtin),
    /// A declaration, that of an attribute use where there is one.
    Declared {
        attribute: AttributeId,
        by: Option<UseAt>,
    },
    /// Nothing: it is not assessed.
    Unassessed,
    /// Nothing, which is an error.
    Refused(Code),
}

impl AttrSchema<'_> {
    /// What governs the attribute of a name, by the governing type of its element, which is `None` where the element is
    /// skipped.
    pub fn governing(&self, of: Option<TypeId>, name: NameId) -> AttrGoverning
        requires set { (ids : List Bool) × IsAttrSet self.now.parts.now self.now.tops.now ids self.now.tables.now }
        requires there { IfSome of (IsType self.now.parts.now) }
        requires named { name < length self.now.names.now.names }
        ensures governing { result ≡ spec.attr_governing self.now.parts.now self.now.names.now of name }
    {
        match of {
            Some(of) => self.governing_by(of, name),
            None => AttrGoverning::Unassessed,
        }
    }

    // The same for an element that is not skipped.
    fn governing_by(&self, of: TypeId, name: NameId) -> AttrGoverning
        requires set { (ids : List Bool) × IsAttrSet self.now.parts.now self.now.tops.now ids self.now.tables.now }
        requires there { IsType self.now.parts.now of }
        requires named { name < length self.now.names.now.names }
        ensures governing { result ≡ spec.governing_by self.now.parts.now self.now.names.now of name }
    {
        if let Some(which) = instance_attribute(self.names, name) {
            return AttrGoverning::Instance(instance_type(which));
        }
        match of {
            TypeId::Builtin(_) | TypeId::Simple(_) => AttrGoverning::Unassessed,
            TypeId::AnyType | TypeId::Complex(_) => self.governing_in(of, name),
        }
    }

    /// The attribute uses of a type; `None` where there are none, since they are refused.
    pub fn table_of(&self, of: TypeId) -> Option<KeptTable>
        requires store { IsStore self.now.tables.now.store }
        requires there { IsType self.now.parts.now of }
        ensures table { (ids : List Bool) → IsAttrSet self.now.parts.now self.now.tops.now ids self.now.tables.now → IsTableIf self.now.parts.now ids self.now.tables.now.store result (spec.uses_for self.now.parts.now of) }
    {
        match self.tables.of_type(of) {
            Ok(table) => Some(table),
            Err(_) => None,
        }
    }

    // What governs the attribute of a name by the uses of a type.
    fn governing_in(&self, of: TypeId, name: NameId) -> AttrGoverning
        requires set { (ids : List Bool) × IsAttrSet self.now.parts.now self.now.tops.now ids self.now.tables.now }
        requires there { IsType self.now.parts.now of }
        requires named { name < length self.now.names.now.names }
        ensures governing { result ≡ spec.by_uses self.now.parts.now self.now.names.now (spec.uses_for self.now.parts.now of) name }
    {
        self.governing_among(self.table_of(of), name)
    }

    // The same by a table of uses.
    fn governing_among(&self, table: Option<KeptTable>, name: NameId) -> AttrGoverning
        requires store { IsStore self.now.tables.now.store }
        requires tops { self.now.tops.now ≡ spaces_of self.now.parts.now }
        requires named { name < length self.now.names.now.names }
        requires table { (ids : List Bool) × (value : AttrUses) × IsTableIf self.now.parts.now ids self.now.tables.now.store table value }
        ensures governing { (ids : List Bool) (value : AttrUses) → IsTableIf self.now.parts.now ids self.now.tables.now.store table value → result ≡ spec.by_uses self.now.parts.now self.now.names.now value name }
    {
        match self.use_named(table, name) {
            Some(at) => self.by_written(at),
            None => self.by_wildcard(table, name),
        }
    }

    // The use of a name.
    fn use_named(&self, table: Option<KeptTable>, name: NameId) -> Option<UseAt>
        requires store { IsStore self.now.tables.now.store }
        requires table { (ids : List Bool) × (value : AttrUses) × IsTableIf self.now.parts.now ids self.now.tables.now.store table value }
        ensures of { (ids : List Bool) (value : AttrUses) → IsTableIf self.now.parts.now ids self.now.tables.now.store table value → result ≡ use_named self.now.parts.now value.uses name }
    {
        match table {
            Some(table) => self.tables.use_named(table, name),
            None => None,
        }
    }

    // The declaration of a use.
    fn by_written(&self, at: UseAt) -> AttrGoverning
        ensures { result ≡ spec.by_written at (use_at self.now.parts.now at) }
    {
        match use_at(self.parts, at) {
            Some(part) => AttrGoverning::Declared {
                attribute: part.attribute,
                by: Some(at),
            },
            None => AttrGoverning::Unassessed,
        }
    }

    // What the wildcard says of a name that no use has.
    fn by_wildcard(&self, table: Option<KeptTable>, name: NameId) -> AttrGoverning
        requires tops { self.now.tops.now ≡ spaces_of self.now.parts.now }
        requires named { name < length self.now.names.now.names }
        ensures of { (ids : List Bool) (value : AttrUses) → IsTableIf self.now.parts.now ids self.now.tables.now.store table value → result ≡ spec.by_wildcard value.wildcard (space_of self.now.names.now name) (attribute_with self.now.parts.now name) }
    {
        let Some(table) = table else {
            return AttrGoverning::Refused(Code::CvcComplexType3_2_1);
        };
        let Some(wildcard) = self.tables.wildcard(table) else {
            return AttrGoverning::Refused(Code::CvcComplexType3_2_1);
        };
        if wildcard.namespaces.admits(self.names.ns(name)) {
            by_process(wildcard.process, self.tops.attribute_with(self.parts, name))
        } else {
            AttrGoverning::Refused(Code::CvcComplexType3_2_2)
        }
    }
}

// What an attribute that a wildcard admits is governed by: the declaration at the top, if there is one.
fn by_process(process: Process, top: Option<AttributeId>) -> AttrGoverning
    ensures { result ≡ spec.by_process process top }
{
    match process {
        Process::Skip => AttrGoverning::Unassessed,
        Process::Lax => by_top(top, AttrGoverning::Unassessed),
        Process::Strict => by_top(top, AttrGoverning::Refused(Code::CvcComplexType3_2_2)),
    }
}

// By the declaration at the top, if there is one.
fn by_top(top: Option<AttributeId>, otherwise: AttrGoverning) -> AttrGoverning
    ensures { result ≡ spec.by_top top otherwise }
{
    match top {
        Some(attribute) => AttrGoverning::Declared {
            attribute,
            by: None,
        },
        None => otherwise,
    }
}
