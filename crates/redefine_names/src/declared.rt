ghost use Rattle.std.specs.Prelude.{◌≡◌};
ghost use Rattle.redefine_names.specs.Components as spec;

use representations::{Representation, Represented};
use xs_names::NameId;

/// The symbol spaces whose components may be redefined (Structures 4.2.2). Simple and complex types share one.
#[derive(Clone, Copy)]
pub enum VersionKind {
    Type,
    Group,
    AttributeGroup,
}

/// What a representation declares in such a symbol space.
#[derive(Clone, Copy)]
pub struct Declared {
    pub kind: VersionKind,
    pub name: NameId,
}

// A type of this name, where it has one.
fn declared_type(name: Option<NameId>) -> Option<Declared>
    ensures { result ≡ spec.declared_type name }
{
    match name {
        None => None,
        Some(name) => Some(Declared {
            kind: VersionKind::Type,
            name,
        }),
    }
}

/// What a form declares in a symbol space whose components may be redefined, if it does.
pub fn declared_by(form: &Represented) -> Option<Declared>
    ensures { result ≡ spec.declared_by form.now }
{
    match form {
        Represented::SimpleType { name, .. } => declared_type(*name),
        Represented::ComplexType(head) => declared_type(head.name),
        Represented::Group { name } => Some(Declared {
            kind: VersionKind::Group,
            name: *name,
        }),
        Represented::AttributeGroup { name } => Some(Declared {
            kind: VersionKind::AttributeGroup,
            name: *name,
        }),
        _ => None,
    }
}

/// What the representation at a place declares in a symbol space whose components may be redefined, if it does.
pub fn declared_at(reps: &[Representation], place: usize) -> Option<Declared>
    ensures { result ≡ spec.declared_at reps.now place }
{
    match reps.get(place) {
        None => None,
        Some(rep) => declared_by(&rep.form),
    }
}
