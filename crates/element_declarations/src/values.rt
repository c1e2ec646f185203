//! The value constraints of element declarations, read.

ghost use Rattle.std.specs.Prelude.{◌≡◌, ◌<◌, length, IfOk};
ghost use Rattle.xs_components.specs.Tables.{Tables};
ghost use Rattle.component_references.specs.Ranked.{IsRanked};
ghost use Rattle.component_tables.specs.ContentTypes.{content_of};
ghost use Rattle.component_tables.specs.Types.{type_of};
ghost use Rattle.simple_types.specs.SimpleTypes.{AreTypesOf, IsWhole};
ghost use Rattle.element_declarations.specs.Values as spec;
ghost use Rattle.element_declarations.specs.inside.Keys as inside;

use crate::set::ElementSet;
use component_tables::ContentType;
use simple_types::SimpleTypes;
use simple_values::{Key, Value, key_of};
use std::alloc::{AllocError, Global};
use xs_codes::{Builtin, Code};
use xs_components::{ElementId, TypeId, ValueConstraint};

/// The value constraint of an element declaration, as it is read.
#[derive(PartialEq, Eq, Hash, Drop)]
pub(crate) enum ValueKey {
    /// There is none.
    Absent,
    /// A default value.
    Default(Key),
    /// A fixed value.
    Fixed(Key),
}

/// The type by which the text of a value constraint is read, by what the type of its element contains: mixed content is a string.
pub fn read_by(of: &TypeId, content: ContentType) -> TypeId
    ensures { result ≡ spec.text_type of.now content }
{
    match content {
        ContentType::SimpleType | ContentType::SimpleContent => *of,
        ContentType::Empty | ContentType::ElementOnly | ContentType::Mixed => {
            TypeId::Builtin(Builtin::String)
        }
    }
}

// The type by which the text of a constraint on an element is read.
fn text_type(set: &ElementSet<'_>, id: ElementId) -> TypeId
    requires found { inside.IsFound set.now }
    ensures { result ≡ spec.read_type set.now.parts.now id }
{
    let of = set.declarations.type_of(id);
    let content = set.contents.content_of(of);
    read_by(&of, content)
}

// The key of what a text comes to.
fn outcome_key(alloc: Global, outcome: &Result<Value, Code>) -> Result<Option<Key>, AllocError>
    ensures { IfOk result (λ key. key ≡ spec.outcome_key outcome.now) }
{
    match outcome {
        Ok(value) => {
            let key = key_of(alloc, value)?;
            Ok(Some(key))
        }
        Err(_) => Ok(None),
    }
}

/// The key of the text of a value constraint, where it is valid by a type: it is read in the scope of the schema element that carries it.
pub fn text_key(
    alloc: Global,
    types: &mut SimpleTypes,
    of: TypeId,
    constraint: &ValueConstraint,
) -> Result<Option<Key>, AllocError>
    ensures key { (t : Tables) → IsRanked t → AreTypesOf t types.old → IsWhole types.old of → IfOk result (spec.IsTextKey t of constraint.now) }
    ensures same { types.new ≡ types.old }
{
    let outcome = types.validate(alloc, of, constraint.text.as_str(), &constraint.scope)?;
    outcome_key(alloc, &outcome)
}

// The key of a constraint by that of its value, if it has one.
fn constraint_key(fixed: bool, key: Option<Key>) -> Option<ValueKey>
    ensures { result ≡ inside.constraint_key fixed key }
{
    match key {
        None => None,
        Some(value) => {
            if fixed {
                Some(ValueKey::Fixed(value))
            } else {
                Some(ValueKey::Default(value))
            }
        }
    }
}

// The key of a constraint on an element, where its text is valid.
fn read_key(
    alloc: Global,
    set: &ElementSet<'_>,
    types: &mut SimpleTypes,
    id: ElementId,
    constraint: &ValueConstraint,
) -> Result<Option<ValueKey>, AllocError>
    requires found { inside.IsFound set.now }
    requires read { inside.AreRead set.now.parts.now types.old }
    ensures key { IfOk result (inside.IsReadKey set.now.parts.now id constraint.now) }
    ensures same { types.new ≡ types.old }
{
    let of = text_type(set, id);
    let key = text_key(alloc, types, of, constraint)?;
    Ok(constraint_key(constraint.fixed, key))
}

/// The key of the value constraint of an element declaration, where its text is valid: it is read in the scope of the schema
/// element that carries it, by the type of the element, or as a string where that is not simple and has no simple content.
pub(crate) fn value_key(
    alloc: Global,
    set: &ElementSet<'_>,
    types: &mut SimpleTypes,
    id: ElementId,
) -> Result<Option<ValueKey>, AllocError>
    requires found { inside.IsFound set.now }
    requires read { inside.AreRead set.now.parts.now types.old }
    requires there { id < length set.now.parts.now.elements.parts }
    ensures key { IfOk result (inside.IsValueKey set.now.parts.now id) }
    ensures same { types.new ≡ types.old }
{
    match &set.parts.element(id).value {
        None => Ok(Some(ValueKey::Absent)),
        Some(constraint) => read_key(alloc, set, types, id, constraint),
    }
}
