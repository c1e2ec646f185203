//! The four attributes that every element may have.

ghost use Rattle.std.specs.Prelude.{◌≡◌};
ghost use Rattle.attr_assess.specs.Instance as spec;

use assess_records::InstanceAttribute;
use xs_codes::Builtin;

/// The type of `xsi:type`, `xsi:nil`, `xsi:noNamespaceSchemaLocation` or `xsi:schemaLocation` (Structures 3.2.7).
pub(crate) fn instance_type(which: InstanceAttribute) -> Builtin
    ensures { result ≡ spec.instance_type which }
{
    match which {
        InstanceAttribute::TypeName => Builtin::QName,
        InstanceAttribute::Nil => Builtin::Boolean,
        InstanceAttribute::SchemaLocation => Builtin::AnySimpleType,
        InstanceAttribute::NoNamespaceSchemaLocation => Builtin::AnyUri,
    }
}
