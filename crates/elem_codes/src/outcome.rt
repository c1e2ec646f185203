//! What the text of an element comes to by its governing type.

ghost use Rattle.std.specs.Prelude.{◌≡◌};
ghost use Rattle.elem_codes.specs.Used as spec;

use simple_values::Value;
use xs_codes::Code;

/// What the text of an element comes to by its governing type.
#[derive(Drop)]
pub enum TextOutcome {
    /// It is not read: the type is neither simple nor has simple content, or the element has child elements or is nil.
    NotRead,
    /// It is not valid, for this code.
    Invalid(Code),
    /// A value, and whether it is the fixed one, where the element's own text has to be that.
    Valid { value: Value, met: bool },
}

impl TextOutcome {
    /// The value of a text that is valid.
    pub fn into_value(self) -> Option<Value>
        ensures { result ≡ spec.value_in self }
    {
        match self {
            TextOutcome::Valid { value, .. } => Some(value),
            TextOutcome::NotRead | TextOutcome::Invalid(_) => None,
        }
    }
}
