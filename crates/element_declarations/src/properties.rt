//! The properties by which element declarations are told apart.

ghost use Rattle.std.specs.Prelude.{◌≡◌, ◌<◌, length, IfOk};
ghost use Rattle.element_declarations.specs.inside.Keys as inside;
ghost use Rattle.element_declarations.specs.inside.Numbers as numbers;

use crate::set::ElementSet;
use crate::values::{ValueKey, value_key};
use simple_types::SimpleTypes;
use std::alloc::{AllocError, Global};
use std::hash::{Hash, Hasher};
use xs_components::{ElementDecl, ElementId, Methods, TypeId};
use xs_names::NameId;

/// The properties of an element declaration without identity constraints whose value constraint is read (Structures 3.3.1).
#[derive(PartialEq, Eq, Drop)]
pub(crate) struct Properties {
    pub(crate) name: NameId,
    pub(crate) of: TypeId,
    pub(crate) value: ValueKey,
    pub(crate) nillable: bool,
    pub(crate) is_abstract: bool,
    pub(crate) finals: Methods,
    pub(crate) blocks: Methods,
}

/// By the name, the number of the type and the value: few declarations with these are told apart by what else they have.
impl Hash for Properties {
    ghost use Rattle.std.specs.Prelude.{◌++◌};
    ghost use Rattle.std.specs.Hash as fed;
    ghost use Rattle.std.specs.Hash.{and-Alike, first_alike};
    ghost use Rattle.xs_names.specs.contracts.ids.NameIdHash.TheImpl.Laws as names;
    ghost use Rattle.element_declarations.specs.contracts.values.ValueKeyHash.TheImpl.Laws as values;
    ghost use Rattle.element_declarations.specs.inside.Numbers.{type_number, types_alike};

    ghost hash_input = { λ p. ⟦<NameId as Hash>⟧.hash_input p.name ++ (fed.u32 (type_number p.of) ++ ⟦<ValueKey as Hash>⟧.hash_input p.value) };

    ghost respects_eq = { (and-Alike (record { fed = λ p q. names.respects_eq-law p.name q.name }) (and-Alike (record { fed = λ p q. types_alike p.of q.of }) (first_alike _ (record { fed = λ p q. values.respects_eq-law p.value q.value })))).fed };

    fn hash<H: Hasher>(&self, state: &mut H) {
        self.name.hash(state);
        type_number(self.of).hash(state);
        self.value.hash(state);
    }
}

// The number of a type of the tables, 0 for all others.
fn type_number(of: TypeId) -> u32
    ensures { result ≡ numbers.type_number of }
{
    match of {
        TypeId::AnyType | TypeId::Builtin(_) => 0,
        TypeId::Simple(id) => id.number(),
        TypeId::Complex(id) => id.number(),
    }
}

// The properties of a declaration of this type with this value constraint.
fn joined(part: &ElementDecl, of: TypeId, value: ValueKey) -> Properties
    ensures { result ≡ inside.joined part.now of value }
{
    Properties {
        name: part.name,
        of,
        value,
        nillable: part.nillable,
        is_abstract: part.is_abstract,
        finals: part.finals,
        blocks: part.blocks,
    }
}

// The properties of a declaration with this value constraint, where it is read.
fn properties_with(
    set: &ElementSet<'_>,
    id: ElementId,
    value: Option<ValueKey>,
) -> Option<Properties>
    requires found { inside.IsFound set.now }
    requires there { id < length set.now.parts.now.elements.parts }
    requires free { inside.HasNoConstraints set.now.parts.now id }
    requires value { inside.IsValueKey set.now.parts.now id value }
    ensures { inside.IsKeyOf set.now.parts.now id result }
{
    match value {
        None => None,
        Some(value) => Some(joined(set.parts.element(id), set.declarations.type_of(id), value)),
    }
}

/// The properties of a declaration; none where it has identity constraints, or a value constraint that is not valid.
pub(crate) fn properties_of(
    alloc: Global,
    set: &ElementSet<'_>,
    types: &mut SimpleTypes,
    id: ElementId,
) -> Result<Option<Properties>, AllocError>
    requires found { inside.IsFound set.now }
    requires read { inside.AreRead set.now.parts.now types.old }
    requires there { id < length set.now.parts.now.elements.parts }
    ensures properties { IfOk result (inside.IsKeyOf set.now.parts.now id) }
    ensures same { types.new ≡ types.old }
{
    if !set.parts.element(id).constraints.is_empty() {
        return Ok(None);
    }
    let value = value_key(alloc, set, types, id)?;
    Ok(properties_with(set, id, value))
}
