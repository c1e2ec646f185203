//! When a key-sequence is in the table of an element, by two counts (Structures 3.11.5).

ghost use Rattle.std.specs.Prelude.{◌≡◌};
ghost use Rattle.identity_constraints.specs.Counting as spec;

/// Whether a key-sequence is in the table of an element, by how often it is one of the element's own, and how many child elements
/// have it in theirs: it is an own one, or exactly one child element has it.
pub fn is_seen(own: u32, bearers: u32) -> bool
    ensures seen { result ≡ spec.is_seen own bearers }
{
    0 < own || bearers == 1
}
