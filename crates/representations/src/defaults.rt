ghost use Rattle.std.specs.Prelude.{◌≡◌};
ghost use Rattle.representations.specs.Methods as spec;

use schema_shape::{Form, Shape};
use xs_components::Methods;

/// The methods that a document's elements have where they say none: finalDefault and blockDefault of its schema element
/// (Structures 3.15.2).
#[derive(Clone, Copy)]
pub struct Defaults {
    pub finals: Methods,
    pub blocks: Methods,
}

// None of the methods.
fn no_methods() -> Methods
    ensures { result ≡ spec.no_methods }
{
    Methods {
        extension: false,
        restriction: false,
        substitution: false,
        by_list: false,
        by_union: false,
    }
}

// An attribute's methods, or the default where it is not there.
pub(crate) fn chosen(own: Option<Methods>, default: Methods) -> Methods
    ensures { result ≡ spec.chosen own default }
{
    own.unwrap_or(default)
}

impl Defaults {
    // The defaults of a document, by its first shape.
    pub(crate) fn of(shapes: &[Shape]) -> Defaults
        ensures { result ≡ spec.defaults_of shapes.now }
    {
        if let Some(shape) = shapes.first() {
            if let Form::Schema(form) = &shape.form {
                return Defaults {
                    finals: chosen(form.finals, no_methods()),
                    blocks: chosen(form.blocks, no_methods()),
                };
            }
        }
        Defaults {
            finals: no_methods(),
            blocks: no_methods(),
        }
    }
}

// The methods by which types are derived from complex types.
pub(crate) fn for_derivation(methods: Methods) -> Methods
    ensures { result ≡ spec.for_derivation methods }
{
    Methods {
        extension: methods.extension,
        restriction: methods.restriction,
        ..no_methods()
    }
}

// The methods that may be disallowed where an element is substituted.
pub(crate) fn for_substitution(methods: Methods) -> Methods
    ensures { result ≡ spec.for_substitution methods }
{
    Methods {
        extension: methods.extension,
        restriction: methods.restriction,
        substitution: methods.substitution,
        ..no_methods()
    }
}

// The methods by which simple types are made.
pub(crate) fn for_simple_type(methods: Methods) -> Methods
    ensures { result ≡ spec.for_simple_type methods }
{
    Methods {
        restriction: methods.restriction,
        by_list: methods.by_list,
        by_union: methods.by_union,
        ..no_methods()
    }
}
