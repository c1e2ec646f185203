//! The attributes that documents have from the namespace of schema instances (Structures 2.6, 3.2.7).

ghost use Rattle.std.specs.Prelude.{◌≡◌, ◌≢◌, ◌<◌, [], All, length, slice_index_or, bytes_eq, find};
ghost use Rattle.std.specs.Option.{option_map, option_copied};
ghost use Rattle.xs_names.specs.Names.{space_of};
ghost use Rattle.assess_records.specs.Instance as spec;

use crate::NamedText;
use xs_names::{NameId, Names, NsId, Text};

/// The namespace of schema instances (Structures 2.6).
pub const INSTANCE_NAMESPACE: &str = "http://www.w3.org/2001/XMLSchema-instance";

/// An attribute that any element may have.
#[derive(Clone, Copy, PartialEq)]
pub enum InstanceAttribute {
    /// `xsi:type` (Structures 2.6.1).
    TypeName,
    /// `xsi:nil` (Structures 2.6.2).
    Nil,
    /// `xsi:schemaLocation` (Structures 2.6.3).
    SchemaLocation,
    /// `xsi:noNamespaceSchemaLocation` (Structures 2.6.3).
    NoNamespaceSchemaLocation,
}

// Whether a namespace has this name, which is not empty.
fn has_name(names: &Names, space: NsId, name: &str) -> bool
    requires there { space < length names.now.spaces }
    requires some { name.now ≢ [] }
    ensures { result ≡ bytes_eq (slice_index_or names.now.spaces space []) name.now }
{
    match names.ns_text(space) {
        None => false,
        Some(text) => text == name,
    }
}

// The attribute with a local name of the namespace of schema instances.
fn attribute_named(local: &str) -> Option<InstanceAttribute>
    ensures { result ≡ spec.attribute_named local.now }
{
    if local == "type" {
        Some(InstanceAttribute::TypeName)
    } else if local == "nil" {
        Some(InstanceAttribute::Nil)
    } else if local == "schemaLocation" {
        Some(InstanceAttribute::SchemaLocation)
    } else if local == "noNamespaceSchemaLocation" {
        Some(InstanceAttribute::NoNamespaceSchemaLocation)
    } else {
        None
    }
}

/// The attribute of schema instances that has a name; `None` where none has it.
#[tactic(auto, unfolding(crate::specs::Instance::instance_attribute))]
pub fn instance_attribute(names: &Names, name: NameId) -> Option<InstanceAttribute>
    requires { name < length names.now.names }
    ensures { result ≡ spec.instance_attribute names.now name }
{
    if has_name(names, names.ns(name), INSTANCE_NAMESPACE) {
        attribute_named(names.local(name))
    } else {
        None
    }
}

/// Whether a name is that of this attribute of schema instances.
pub fn is_named(names: &Names, which: InstanceAttribute, name: NameId) -> bool
    requires { name < length names.now.names }
    ensures { result ≡ spec.is_named names.now which name }
{
    match instance_attribute(names, name) {
        None => false,
        Some(found) => found == which,
    }
}

/// The text of an attribute of schema instances among an element's attributes; `None` where it is not there.
pub fn instance_text<'a>(
    names: &Names,
    attrs: &'a [NamedText],
    which: InstanceAttribute,
) -> Option<&'a Text>
    requires { All (λ a. a.name < length names.now.names) attrs.now }
    ensures { option_map (λ t. t.now) result ≡ spec.instance_text names.now attrs.now which }
{
    for attr in attrs {
        if is_named(names, which, attr.name) {
            return Some(&attr.text);
        }
    }
    None
}
