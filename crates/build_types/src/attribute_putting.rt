ghost use Rattle.std.specs.Prelude.{◌≡◌, ◌<◌, length};
ghost use Rattle.xs_components.specs.Table.{with_other};

use xs_components::{AttrGroupDef, Components};

// Puts an attribute group in the place of a number.
fn put_attr_group(parts: &mut Components, n: u32, part: AttrGroupDef)
    requires { n < length parts.old.attr_groups.parts }
    ensures { parts.new ≡ record parts.old { attr_groups = with_other parts.old.attr_groups n part } }
{
    if let Some(id) = parts.attr_group_at(n) {
        parts.set_attr_group(id, part);
    }
}

// Puts attribute groups in the places of all.
pub(crate) fn put_attr_groups(parts: &mut Components, bodies: Vec<AttrGroupDef>)
    requires { length bodies.items ≡ length parts.old.attr_groups.parts }
    ensures { parts.new ≡ record parts.old { attr_groups = record parts.old.attr_groups { parts = bodies.items } } }
{
    let mut n = parts.attr_groups().len() as u32;
    let mut left = bodies;
    'left: while let Some(part) = left.pop() {
        n -= 1;
        put_attr_group(parts, n, part);
    }
}
