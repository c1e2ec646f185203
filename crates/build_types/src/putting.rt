ghost use Rattle.std.specs.Prelude.{◌≡◌, ◌<◌, length};
ghost use Rattle.xs_components.specs.Table.{with_other};

use xs_components::{Components, SimpleType};

// Puts a simple type in the place of a number.
fn put_simple(parts: &mut Components, n: u32, part: SimpleType)
    requires { n < length parts.old.simples.parts }
    ensures { parts.new ≡ record parts.old { simples = with_other parts.old.simples n part } }
{
    if let Some(id) = parts.simple_at(n) {
        parts.set_simple(id, part);
    }
}

// Puts simple types in the places of all.
pub(crate) fn put_simples(parts: &mut Components, bodies: Vec<SimpleType>)
    requires { length bodies.items ≡ length parts.old.simples.parts }
    ensures { parts.new ≡ record parts.old { simples = record parts.old.simples { parts = bodies.items } } }
{
    let mut n = parts.simples().len() as u32;
    let mut left = bodies;
    'left: while let Some(part) = left.pop() {
        n -= 1;
        put_simple(parts, n, part);
    }
}
