ghost use Rattle.std.specs.Prelude.{◌≡◌, IfOk};
ghost use Rattle.std.specs.Option.{option_copied};
ghost use Rattle.schema_values.specs.Attributes as spec;

use crate::names::names_in;
use crate::{AttributeName, attribute_text, boolean_of, qname_of, set_of};
use std::alloc::{AllocError, Global};
use tag_names::Prefixes;
use tree_rows::{Attribute, Expanded};
use xs_components::Methods;
use xs_lists::Listed;
use xs_names::{Text, WhiteSpace, items, normalized};

/// Whether the attribute has no namespace and this name.
pub fn is_named(name: AttributeName, attribute: &Attribute) -> bool
    ensures { result ≡ spec.is_named name attribute.now }
{
    attribute.name.namespace.is_none() && attribute.name.local.as_str() == attribute_text(name)
}

/// The attribute of a name.
pub fn attribute_of(name: AttributeName, attributes: &[Attribute]) -> Option<&Attribute>
    ensures { option_copied result ≡ spec.attribute_of name attributes.now }
{
    for attribute in attributes {
        if is_named(name, attribute) {
            return Some(attribute);
        }
    }
    None
}

/// Whether there is an attribute of the name.
pub fn has(name: AttributeName, attributes: &[Attribute]) -> bool
    ensures { result ≡ spec.has name attributes.now }
{
    attribute_of(name, attributes).is_some()
}

/// The value of an attribute as it stands.
///
/// # Errors
///
/// `AllocError` is want of memory, here and below.
pub fn raw_of(name: AttributeName, attributes: &[Attribute]) -> Result<Option<Text>, AllocError>
    ensures { IfOk result (λ value. value ≡ spec.raw_of name attributes.now) }
{
    match attribute_of(name, attributes) {
        None => Ok(None),
        Some(attribute) => Ok(Some(attribute.value.try_clone()?)),
    }
}

/// The value of an attribute, its white space collapsed.
pub fn value_of(
    alloc: Global,
    name: AttributeName,
    attributes: &[Attribute],
) -> Result<Option<Text>, AllocError>
    ensures { IfOk result (λ value. value ≡ spec.value_of name attributes.now) }
{
    match attribute_of(name, attributes) {
        None => Ok(None),
        Some(attribute) => Ok(Some(normalized(
            alloc,
            WhiteSpace::Collapse,
            attribute.value.as_str(),
        )?)),
    }
}

/// The name that an attribute refers to; `None` where it is not there, or its value is no QName with a bound prefix.
pub fn name_of(
    alloc: Global,
    name: AttributeName,
    scope: &Prefixes,
    attributes: &[Attribute],
) -> Result<Option<Expanded>, AllocError>
    ensures { IfOk result (λ value. value ≡ spec.name_of name scope.now attributes.now) }
{
    match value_of(alloc, name, attributes)? {
        None => Ok(None),
        Some(text) => qname_of(alloc, scope, text.as_str()),
    }
}

/// The names that the QNames in an attribute refer to.
pub fn names_of(
    alloc: Global,
    name: AttributeName,
    scope: &Prefixes,
    attributes: &[Attribute],
) -> Result<Listed<Expanded>, AllocError>
    ensures { IfOk result (λ names. names ≡ spec.names_of name scope.now attributes.now) }
{
    match value_of(alloc, name, attributes)? {
        None => Ok(Listed::new(alloc)),
        Some(text) => {
            let words = items(alloc, text.as_str())?;
            names_in(alloc, scope, words.as_slice())
        }
    }
}

/// The boolean that an attribute gives.
pub fn flag_of(
    alloc: Global,
    name: AttributeName,
    attributes: &[Attribute],
) -> Result<Option<bool>, AllocError>
    ensures { IfOk result (λ value. value ≡ spec.flag_of name attributes.now) }
{
    match value_of(alloc, name, attributes)? {
        None => Ok(None),
        Some(text) => Ok(boolean_of(text.as_str())),
    }
}

/// The methods that an attribute gives.
pub fn methods_of(
    alloc: Global,
    name: AttributeName,
    attributes: &[Attribute],
) -> Result<Option<Methods>, AllocError>
    ensures { IfOk result (λ value. value ≡ spec.methods_of name attributes.now) }
{
    match value_of(alloc, name, attributes)? {
        None => Ok(None),
        Some(text) => Ok(Some(set_of(alloc, text.as_str())?)),
    }
}
