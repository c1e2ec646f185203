//! Types that are or derive from ID, and content of such types.

ghost use Rattle.std.specs.Prelude.{◌≡◌, ◌↔◌, IsTrue};
ghost use Rattle.component_references.specs.Heights.{IsType};
ghost use Rattle.derive_faults.specs.Given.{IsFound};
ghost use Rattle.derive_faults.specs.Ids as spec;

use crate::no_methods;
use crate::set::ValueSet;
use xs_components::{ComplexType, Components, ContentForm, TypeId};

/// Whether a type is or derives from ID.
pub(crate) fn is_id_type(set: &ValueSet<'_>, of: &TypeId) -> bool
    requires found { IsFound set.now }
    requires there { IsType set.now.parts.now of.now }
    ensures id { IsTrue result ↔ spec.IsIdType set.now.parts.now of.now }
{
    set.ids.derives(set.parts, *of, &no_methods())
}

// The type whose content the content of a complex type is, or restricts by facets.
fn content_source(part: &ComplexType) -> Option<TypeId>
    ensures { result ≡ spec.content_source part.now }
{
    match &part.content {
        ContentForm::Simple { own, .. } => {
            if part.by_extension {
                Some(part.base)
            } else {
                restricted(*own, part.base)
            }
        }
        ContentForm::Complex { effective, .. } => {
            if part.by_extension && effective.is_none() {
                Some(part.base)
            } else {
                None
            }
        }
    }
}

// The simple type that stands in a restriction of simple content, if one does, else the base.
fn restricted(own: Option<TypeId>, base: TypeId) -> Option<TypeId>
    ensures { result ≡ spec.restricted own base }
{
    match own {
        Some(own) => Some(own),
        None => Some(base),
    }
}

// The same of any type; none of one that is not complex.
fn source_of(parts: &Components, of: &TypeId) -> Option<TypeId>
    requires there { IsType parts.now of.now }
    ensures { result ≡ spec.source_of parts.now of.now }
{
    match of {
        TypeId::AnyType | TypeId::Builtin(_) | TypeId::Simple(_) => None,
        TypeId::Complex(id) => content_source(parts.complex(*id)),
    }
}

// Whether a type is simple, and is or derives from ID.
fn is_simple_id(set: &ValueSet<'_>, of: &TypeId) -> bool
    requires found { IsFound set.now }
    requires there { IsType set.now.parts.now of.now }
    ensures id { IsTrue result ↔ spec.IsSimpleId set.now.parts.now of.now }
{
    match of {
        TypeId::AnyType | TypeId::Complex(_) => false,
        TypeId::Builtin(_) | TypeId::Simple(_) => is_id_type(set, of),
    }
}

/// Whether the simple type that the content of a type is of is or derives from ID.
pub(crate) fn has_id_content(set: &ValueSet<'_>, of: TypeId) -> bool
    requires found { IsFound set.now }
    requires there { IsType set.now.parts.now of }
    ensures id { IsTrue result ↔ spec.HasIdContent set.now.parts.now of }
{
    let mut at = of;
    'up: loop {
        match source_of(set.parts, &at) {
            None => return is_simple_id(set, &at),
            Some(source) => at = source,
        }
    }
}
