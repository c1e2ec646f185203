ghost use Rattle.std.specs.Prelude.{◌≡◌, None};
ghost use Rattle.std.specs.Option.{option_copied};
ghost use Rattle.redefine_faults.specs.Redefinitions as spec;

use redefine_originals::Redefinable;
use schema_set::{SetDocument, is_same, own_target};
use schema_shape::Form;
use tree_rows::Expanded;
use xs_names::Text;

// The namespace of names without one in a document of a set.
fn adopted<'a>(document: &'a SetDocument<'_>) -> Option<&'a Text>
    ensures { option_copied result ≡ spec.meant_space document.now.shaped.now.shapes document.now.target None }
{
    match own_target(document.shaped) {
        None => document.target.as_ref(),
        Some(_) => None,
    }
}

// The namespace that a reference means.
fn meant_space<'a>(document: &'a SetDocument<'_>, space: &'a Option<Text>) -> Option<&'a Text>
    ensures { option_copied result ≡ spec.meant_space document.now.shaped.now.shapes document.now.target space.now }
{
    match space {
        None => adopted(document),
        Some(space) => Some(space),
    }
}

// Whether a reference is to the component of this name in the target namespace.
pub(crate) fn is_to(document: &SetDocument<'_>, name: &str, to: &Option<Expanded>) -> bool
    ensures { result ≡ spec.is_to document.now.shaped.now.shapes document.now.target name.now to.now }
{
    match to {
        None => false,
        Some(to) => {
            is_same(
                meant_space(document, &to.namespace),
                document.target.as_ref(),
            ) && to.local.as_str() == name
        },
    }
}

// Whether an element, in what redefines a component of this kind and name, refers to the component.
pub(crate) fn is_self_reference(
    document: &SetDocument<'_>,
    kind: Redefinable,
    name: &str,
    form: &Form,
) -> bool
    ensures { result ≡ spec.is_self_reference document.now.shaped.now.shapes document.now.target kind name.now form.now }
{
    match (kind, form) {
        (Redefinable::Group, Form::GroupReference { to, .. }) => is_to(document, name, to),
        (Redefinable::AttributeGroup, Form::AttributeGroupReference { to }) => {
            is_to(document, name, to)
        },
        _ => false,
    }
}

// Whether an element is a restriction of the simple type of this name.
pub(crate) fn restricts(document: &SetDocument<'_>, name: &str, form: &Form) -> bool
    ensures { result ≡ spec.restricts document.now.shaped.now.shapes document.now.target name.now form.now }
{
    match form {
        Form::Restriction { base } => is_to(document, name, base),
        _ => false,
    }
}

// Whether an element is a restriction or an extension of the type of this name.
pub(crate) fn derives(document: &SetDocument<'_>, name: &str, form: &Form) -> bool
    ensures { result ≡ spec.derives document.now.shaped.now.shapes document.now.target name.now form.now }
{
    match form {
        Form::Derivation { base, .. } => is_to(document, name, base),
        _ => false,
    }
}
