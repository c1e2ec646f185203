ghost use Rattle.std.specs.Prelude.{◌≡◌, ◌<◌, length};
ghost use Rattle.xs_components.specs.Table.{with_other};

use xs_components::{ComplexType, Components};

// Puts a complex type in the place of a number.
fn put_complex(parts: &mut Components, n: u32, part: ComplexType)
    requires { n < length parts.old.complexes.parts }
    ensures { parts.new ≡ record parts.old { complexes = with_other parts.old.complexes n part } }
{
    if let Some(id) = parts.complex_at(n) {
        parts.set_complex(id, part);
    }
}

// Puts complex types in the places of all.
pub(crate) fn put_complexes(parts: &mut Components, bodies: Vec<ComplexType>)
    requires { length bodies.items ≡ length parts.old.complexes.parts }
    ensures { parts.new ≡ record parts.old { complexes = record parts.old.complexes { parts = bodies.items } } }
{
    let mut n = parts.complexes().len() as u32;
    let mut left = bodies;
    'left: while let Some(part) = left.pop() {
        n -= 1;
        put_complex(parts, n, part);
    }
}
