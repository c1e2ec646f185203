ghost use Rattle.std.specs.Prelude.{◌≡◌, IfSome};
ghost use Rattle.reference_faults.specs.Imports.{IsInTable};
ghost use Rattle.reference_faults.specs.Attributes as spec;

use crate::imports::has_name;
use representations::Represented;
use xs_names::{NameId, Names};

// The namespace of schema instances (Structures 2.6).
const INSTANCE_NAMESPACE: &str = "http://www.w3.org/2001/XMLSchema-instance";

// The name of an attribute that is declared.
fn attribute_name(form: &Represented) -> Option<NameId>
    ensures { result ≡ spec.attribute_name form.now }
{
    match form {
        Represented::Attribute(attribute) => attribute.name,
        _ => None,
    }
}

/// Whether an attribute has the local name `xmlns`.
pub(crate) fn is_xmlns(names: &Names, form: &Represented) -> bool
    requires named { IfSome (spec.attribute_name form.now) (IsInTable names.now) }
    ensures { result ≡ spec.is_xmlns names.now (spec.attribute_name form.now) }
{
    match attribute_name(form) {
        None => false,
        Some(name) => names.local(name) == "xmlns",
    }
}

/// Whether an attribute is in the namespace of schema instances.
pub(crate) fn is_xsi(names: &Names, form: &Represented) -> bool
    requires named { IfSome (spec.attribute_name form.now) (IsInTable names.now) }
    ensures { result ≡ spec.is_xsi names.now (spec.attribute_name form.now) }
{
    match attribute_name(form) {
        None => false,
        Some(name) => has_name(names, names.ns(name), INSTANCE_NAMESPACE),
    }
}
