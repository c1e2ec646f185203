ghost use Rattle.std.specs.Prelude.{◌≡◌, find};
ghost use Rattle.representations.specs.Members as spec;

use crate::parts::{Representation, Represented};

/// Whether a type stands at a place.
pub fn is_type_at(reps: &[Representation], place: u32) -> bool
    ensures { result ≡ spec.is_type_at reps.now place }
{
    match reps.get(place as usize) {
        None => false,
        Some(rep) => match &rep.form {
            Represented::SimpleType { .. } => true,
            Represented::ComplexType(_) => true,
            _ => false,
        },
    }
}

/// The place of the first type among members.
pub fn first_type(reps: &[Representation], members: &[u32]) -> Option<u32>
    ensures { result ≡ find (spec.is_type_at reps.now) members.now }
{
    for member in members {
        if is_type_at(reps, *member) {
            return Some(*member);
        }
    }
    None
}
