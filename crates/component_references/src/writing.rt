ghost use Rattle.std.specs.Prelude.{◌≡◌, ◌<◌, ◌≤◌, length};
ghost use Rattle.xs_components.specs.Table.{with_rank};
ghost use Rattle.component_references.specs.Circles.{with_ranks};

use xs_components::Components;

// Writes the rank of a simple type.
fn write_simple(parts: &mut Components, n: u32, rank: u32)
    requires { n < length parts.old.simples.parts }
    ensures { parts.new ≡ record parts.old { simples = with_rank parts.old.simples n rank } }
{
    if let Some(id) = parts.simple_at(n) {
        parts.rank_simple(id, rank);
    }
}

// Writes the ranks of all simple types.
pub(crate) fn write_simples(parts: &mut Components, ranks: &[u32])
    requires { length ranks.now ≡ length parts.old.simples.parts }
    ensures { parts.new ≡ record parts.old { simples = with_ranks parts.old.simples ranks.now } }
{
    let count = parts.simple_ranks().len();
    for n in 0..count {
        write_simple(parts, n as u32, ranks[n]);
    }
}

// Writes the rank of a complex type.
fn write_complex(parts: &mut Components, n: u32, rank: u32)
    requires { n < length parts.old.complexes.parts }
    ensures { parts.new ≡ record parts.old { complexes = with_rank parts.old.complexes n rank } }
{
    if let Some(id) = parts.complex_at(n) {
        parts.rank_complex(id, rank);
    }
}

// Writes the ranks of all complex types.
pub(crate) fn write_complexes(parts: &mut Components, ranks: &[u32])
    requires { length ranks.now ≡ length parts.old.complexes.parts }
    ensures { parts.new ≡ record parts.old { complexes = with_ranks parts.old.complexes ranks.now } }
{
    let count = parts.complex_ranks().len();
    for n in 0..count {
        write_complex(parts, n as u32, ranks[n]);
    }
}

// Writes the rank of an element.
fn write_element(parts: &mut Components, n: u32, rank: u32)
    requires { n < length parts.old.elements.parts }
    ensures { parts.new ≡ record parts.old { elements = with_rank parts.old.elements n rank } }
{
    if let Some(id) = parts.element_at(n) {
        parts.rank_element(id, rank);
    }
}

// Writes the ranks of all elements.
pub(crate) fn write_elements(parts: &mut Components, ranks: &[u32])
    requires { length ranks.now ≡ length parts.old.elements.parts }
    ensures { parts.new ≡ record parts.old { elements = with_ranks parts.old.elements ranks.now } }
{
    let count = parts.element_ranks().len();
    for n in 0..count {
        write_element(parts, n as u32, ranks[n]);
    }
}

// Writes the rank of a group.
fn write_group(parts: &mut Components, n: u32, rank: u32)
    requires { n < length parts.old.groups.parts }
    ensures { parts.new ≡ record parts.old { groups = with_rank parts.old.groups n rank } }
{
    if let Some(id) = parts.group_at(n) {
        parts.rank_group(id, rank);
    }
}

// Writes the ranks of all groups.
pub(crate) fn write_groups(parts: &mut Components, ranks: &[u32])
    requires { length ranks.now ≡ length parts.old.groups.parts }
    ensures { parts.new ≡ record parts.old { groups = with_ranks parts.old.groups ranks.now } }
{
    let count = parts.group_ranks().len();
    for n in 0..count {
        write_group(parts, n as u32, ranks[n]);
    }
}

// Writes the rank of an attribute group.
fn write_attr_group(parts: &mut Components, n: u32, rank: u32)
    requires { n < length parts.old.attr_groups.parts }
    ensures { parts.new ≡ record parts.old { attr_groups = with_rank parts.old.attr_groups n rank } }
{
    if let Some(id) = parts.attr_group_at(n) {
        parts.rank_attr_group(id, rank);
    }
}

// Writes the ranks of all attribute groups.
pub(crate) fn write_attr_groups(parts: &mut Components, ranks: &[u32])
    requires { length ranks.now ≡ length parts.old.attr_groups.parts }
    ensures { parts.new ≡ record parts.old { attr_groups = with_ranks parts.old.attr_groups ranks.now } }
{
    let count = parts.attr_group_ranks().len();
    for n in 0..count {
        write_attr_group(parts, n as u32, ranks[n]);
    }
}

// Writes the rank of a particle.
fn write_particle(parts: &mut Components, n: u32, rank: u32)
    requires { n < length parts.old.particles.parts }
    ensures { parts.new ≡ record parts.old { particles = with_rank parts.old.particles n rank } }
{
    if let Some(id) = parts.particle_at(n) {
        parts.rank_particle(id, rank);
    }
}

// Writes the ranks of all particles.
pub(crate) fn write_particles(parts: &mut Components, ranks: &[u32])
    requires { length ranks.now ≡ length parts.old.particles.parts }
    ensures { parts.new ≡ record parts.old { particles = with_ranks parts.old.particles ranks.now } }
{
    let count = parts.particle_ranks().len();
    for n in 0..count {
        write_particle(parts, n as u32, ranks[n]);
    }
}
