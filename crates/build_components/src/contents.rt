ghost use Rattle.std.specs.Prelude.{◌≡◌, find, is_some, slice_get};
ghost use Rattle.std.specs.Option.{option_copied};
ghost use Rattle.set_representations.specs.Numbers.{number_at};
ghost use Rattle.build_components.specs.Contents as spec;

use build_types::{first_member, rep_at};
use representations::{Representation, Represented};
use set_representations::{first_number, number_at};
use xs_components::ParticleId;

/// Whether a complex type with these members has simpleContent.
pub fn has_simple_content(reps: &[Representation], members: &[u32]) -> bool
    ensures simple { result ≡ spec.has_simple_content reps.now members.now }
{
    match first_member(reps, members) {
        None => false,
        Some(content) => matches!(content.form, Represented::SimpleContent),
    }
}

/// Whether a complex type with these members and this attribute is mixed.
pub fn is_mixed(reps: &[Representation], own: bool, members: &[u32]) -> bool
    ensures mixed { result ≡ spec.is_mixed reps.now own members.now }
{
    match first_member(reps, members) {
        None => own,
        Some(content) => match &content.form {
            Represented::ComplexContent { mixed } => mixed.unwrap_or(own),
            _ => own,
        },
    }
}

// The restriction or extension in the content of a complex type with these members.
fn derivation<'a>(reps: &'a [Representation], members: &[u32]) -> Option<&'a Representation>
    ensures { option_copied result ≡ spec.derivation reps.now members.now }
{
    match first_member(reps, members) {
        None => None,
        Some(content) => match &content.form {
            Represented::SimpleContent => first_member(reps, content.members.as_slice()),
            Represented::ComplexContent { .. } => first_member(reps, content.members.as_slice()),
            _ => None,
        },
    }
}

/// What the particle and the attributes of a complex type stand in: the restriction or extension in its content, else the type.
pub fn holder<'a>(reps: &'a [Representation], rep: &'a Representation) -> &'a Representation
    ensures holder { result.now ≡ spec.holder reps.now rep.now }
{
    match derivation(reps, rep.members.as_slice()) {
        None => rep,
        Some(derivation) => derivation,
    }
}

// Whether the particle at a place is empty.
fn is_empty_at(reps: &[Representation], particles: &[Option<ParticleId>], place: u32) -> bool
    ensures { result ≡ spec.is_empty_in reps.now particles.now (slice_get reps.now place) }
{
    match rep_at(reps, place) {
        None => true,
        Some(rep) => {
            let has_members = first_number(particles, rep.members.as_slice()).is_some();
            match &rep.form {
                Represented::Sequence => !has_members,
                Represented::All => !has_members,
                Represented::Choice => !has_members && rep.min == 0,
                _ => false,
            }
        }
    }
}

// The place of the particle among members.
fn particle_place(particles: &[Option<ParticleId>], members: &[u32]) -> Option<u32>
    ensures { result ≡ find (λ member. is_some (number_at particles.now member)) members.now }
{
    for member in members {
        if number_at(particles, *member as usize).is_some() {
            return Some(*member);
        }
    }
    None
}

/// The explicit content of a complex type: the particle among members, where that is not empty.
pub(crate) fn explicit_content(
    reps: &[Representation],
    particles: &[Option<ParticleId>],
    members: &[u32],
) -> Option<ParticleId>
    ensures { result ≡ spec.explicit_content reps.now particles.now members.now }
{
    match particle_place(particles, members) {
        None => None,
        Some(place) => if is_empty_at(reps, particles, place) {
            None
        } else {
            number_at(particles, place as usize)
        },
    }
}

/// The effective content of the complex type at a place: the empty sequence of a mixed type, which stands in the place of the
/// type, else the explicit content.
pub fn effective_content(
    reps: &[Representation],
    particles: &[Option<ParticleId>],
    place: usize,
    rep: &Representation,
) -> Option<ParticleId>
    ensures content { result ≡ spec.effective_content reps.now particles.now place rep.now }
{
    let sequence = number_at(particles, place);
    sequence.or(explicit_content(reps, particles, holder(reps, rep).members.as_slice()))
}
