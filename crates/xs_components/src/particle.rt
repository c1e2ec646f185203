ghost use Rattle.std.specs.Prelude.{◌≡◌, ◌<◌, ◌≤◌, ◌^◌, Some, length, slice_get, option_and_then, IfSome, IfNone, IfOk, OnOk, OnErr};
ghost use Rattle.xs_components.specs.Table.{with_part, with_rank};
ghost use Rattle.xs_components.specs.Terms.{term_of};

use crate::{Components, ElementId, GroupId, Place, Wildcard};
use std::alloc::AllocError;
use std::marker::Model;
use xs_lists::Listed;

/// The number of a particle in its table, counted from 0 in the order of adding. Contracts see the number.
#[derive(Clone, Copy)]
pub struct ParticleId {
    pub(crate) number: u32,
}

impl Model for ParticleId {
    ghost use Rattle.std.specs.Prelude.{ℕ};

    ghost Value = { ℕ };

    ghost view = { λ id. id.number };

    ghost inverse = { λ n. record { number = n } };
}

impl ParticleId {
    /// The number.
    pub fn number(&self) -> u32
        ensures { result ≡ self.now }
    {
        self.number
    }
}

/// The number of a particle whose term is an element or a wildcard. Contracts see the number.
#[derive(Clone, Copy)]
pub struct TermId {
    particle: ParticleId,
}

impl Model for TermId {
    ghost use Rattle.std.specs.Prelude.{ℕ};

    ghost Value = { ℕ };

    ghost view = { λ id. id.particle };

    ghost inverse = { λ n. record { particle = n } };
}

impl TermId {
    /// The number.
    pub fn number(&self) -> u32
        ensures { result ≡ self.now }
    {
        self.particle.number
    }

    /// The particle.
    pub fn particle(&self) -> ParticleId
        ensures { result ≡ self.now }
    {
        self.particle
    }
}

/// Particles, in the order of the document.
pub type ParticleIdList = Listed<ParticleId>;

/// What a particle accepts (Structures 3.9.1). A group stands by reference.
#[derive(Drop)]
pub enum Term {
    Element(ElementId),
    Any(Wildcard),
    Group(GroupId),
    Sequence(ParticleIdList),
    Choice(ParticleIdList),
    All(ParticleIdList),
}

/// A particle (Structures 3.9.1): a term, and how often it may come.
#[derive(Drop)]
pub struct Particle {
    pub at: Place,
    pub min: u32,
    /// None where there is no bound.
    pub max: Option<u32>,
    pub term: Term,
}

impl Components {
    /// Adds a particle, of rank 0, and answers its number.
    pub fn add_particle(&mut self, part: Particle) -> Result<ParticleId, AllocError>
        ensures number { IfOk result (λ id. id ≡ length self.old.particles.parts) }
        ensures table { OnOk result (self.new ≡ record self.old { particles = with_part self.old.particles part }) }
        ensures err { OnErr result (self.new ≡ self.old) }
    {
        let number = self.particles.add(part)?;
        Ok(ParticleId { number })
    }

    /// The particle of a number.
    pub fn particle(&self, id: ParticleId) -> &Particle
        requires { id < length self.now.particles.parts }
        ensures part { slice_get self.now.particles.parts id ≡ Some result.now }
    {
        self.particles.part(id.number)
    }

    /// The number of a particle that wraps this one; `None` where the table has no such number.
    pub fn particle_at(&self, number: u32) -> Option<ParticleId>
        ensures there { IfSome result (λ id. (id ≡ number) × (number < length self.now.particles.parts)) }
        ensures past { IfNone result (length self.now.particles.parts ≤ number) }
        ensures few { length self.now.particles.parts < 2 ^ 32 }
    {
        if (number as usize) < self.particles.len() {
            Some(ParticleId { number })
        } else {
            None
        }
    }

    /// The parts of the table, in the order of adding.
    pub fn particles(&self) -> &[Particle]
        ensures parts { result.now ≡ self.now.particles.parts }
        ensures few { length self.now.particles.parts < 2 ^ 32 }
    {
        self.particles.as_slice()
    }

    /// Writes the rank of a particle, and nothing else.
    pub fn rank_particle(&mut self, id: ParticleId, rank: u32)
        requires { id < length self.old.particles.parts }
        ensures ranked { self.new ≡ record self.old { particles = with_rank self.old.particles id rank } }
    {
        self.particles.set_rank(id.number, rank);
    }

    /// The ranks of the table, in the order of adding.
    pub fn particle_ranks(&self) -> &[u32]
        ensures ranks { result.now ≡ self.now.particles.ranks }
        ensures alike { length self.now.particles.ranks ≡ length self.now.particles.parts }
        ensures few { length self.now.particles.parts < 2 ^ 32 }
    {
        self.particles.ranks()
    }

    /// The number of the term of a particle; `None` where the term is a group, by reference or in place.
    pub fn term(&self, id: ParticleId) -> Option<TermId>
        requires { id < length self.now.particles.parts }
        ensures term { result ≡ option_and_then (λ part. term_of part.term id) (slice_get self.now.particles.parts id) }
    {
        match self.particle(id).term {
            Term::Element(_) | Term::Any(_) => Some(TermId { particle: id }),
            Term::Group(_) | Term::Sequence(_) | Term::Choice(_) | Term::All(_) => None,
        }
    }
}
