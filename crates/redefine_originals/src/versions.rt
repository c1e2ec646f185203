ghost use Rattle.std.specs.Prelude.{◌≡◌};
ghost use Rattle.std.specs.Option.{option_copied, option_map};
ghost use Rattle.redefine_originals.specs.Versions as spec;
ghost use Rattle.redefine_originals.specs.inside.Entries.{declared_entry};

use schema_shape::{Form, Shape};
use xs_names::Text;

/// The kinds of components that a redefine may hold (Structures 4.2.2). Simple and complex types are one kind.
#[derive(Clone, Copy)]
pub enum Redefinable {
    Type,
    Group,
    AttributeGroup,
}

/// What an element declares at the top of a document or in a redefine.
#[derive(Clone, Copy)]
pub struct Declared<'a> {
    pub kind: Redefinable,
    pub name: &'a Text,
}

/// An element that stands in a redefine.
#[derive(Clone, Copy)]
pub struct Child<'a> {
    /// The location of the redefine.
    pub location: &'a Text,
    pub shape: &'a Shape,
}

/// A version of a component.
#[derive(Clone, Copy)]
pub struct Version<'a> {
    /// The number of its document, from 1.
    pub document: u32,
    /// The location of the redefine in which it stands; `None` where it is a declaration at the top.
    pub location: Option<&'a Text>,
    pub shape: &'a Shape,
}

/// What an element with a name declares of this kind.
fn of_kind(kind: Redefinable, name: &Option<Text>) -> Option<Declared<'_>>
    ensures { option_map declared_entry result ≡ option_map (λ n. (kind, n)) name.now }
{
    match name {
        None => None,
        Some(name) => Some(Declared { kind, name }),
    }
}

/// The kind and the name of what an element declares, where it stands at the top of a document or in a redefine.
pub fn declared_as(form: &Form) -> Option<Declared<'_>>
    ensures { option_map declared_entry result ≡ spec.declared_as form.now }
{
    match form {
        Form::SimpleType { name, .. } => of_kind(Redefinable::Type, name),
        Form::ComplexType(head) => of_kind(Redefinable::Type, &head.name),
        Form::Group { name } => Some(Declared {
            kind: Redefinable::Group,
            name,
        }),
        Form::AttributeGroup { name } => Some(Declared {
            kind: Redefinable::AttributeGroup,
            name,
        }),
        _ => None,
    }
}

// Whether two kinds are the same.
pub(crate) fn is_same_kind(one: Redefinable, other: Redefinable) -> bool
    ensures { result ≡ spec.same_kind one other }
{
    match (one, other) {
        (Redefinable::Type, Redefinable::Type) => true,
        (Redefinable::Group, Redefinable::Group) => true,
        (Redefinable::AttributeGroup, Redefinable::AttributeGroup) => true,
        _ => false,
    }
}
