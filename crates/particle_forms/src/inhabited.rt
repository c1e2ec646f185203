//! Which terms accept some name.

ghost use Rattle.std.specs.Prelude.{◌≡◌, ℕ, false, slice_index_or, IfOk};
ghost use Rattle.xs_names.specs.Names.{NameTable};
ghost use Rattle.particle_models.specs.Model.{IsInhabitedBy};
ghost use Rattle.particle_forms.specs.Accepted as spec;

use std::alloc::{AllocError, Global};
use std::marker::Model;
use xs_components::{Components, Members, NsConstraint, Term};

/// For each particle of a schema set, whether it is an element or a wildcard that accepts some name.
#[derive(Drop)]
pub struct Inhabited {
    pub(crate) flags: Vec<bool>,
}

impl Model for Inhabited {
    ghost use Rattle.std.specs.Prelude.{Bool, List};

    ghost Value = { List Bool };

    ghost view = { λ i. i.flags.items };
}

impl Inhabited {
    /// Finds this of all particles. Whatever names there are: the particles are those that accept some name.
    pub fn of(alloc: Global, parts: &Components, members: &Members) -> Result<Inhabited, AllocError>
        ensures flags { IfOk result (λ flags. (id : ℕ) → slice_index_or flags id false ≡ spec.is_inhabited members.now parts.now id) }
        ensures names { (names : NameTable) → IsInhabitedBy (spec.accepts names members.now parts.now) (spec.is_inhabited members.now parts.now) }
    {
        let mut flags = Vec::new(alloc);
        for part in parts.particles() {
            flags.push(has_name(members, &part.term))?;
        }
        Ok(Inhabited { flags })
    }
}

// Whether the term is an element or a wildcard that accepts some name.
fn has_name(members: &Members, term: &Term) -> bool
    ensures { result ≡ spec.term_is_inhabited members.now term.now }
{
    match term {
        Term::Element(element) => !members.names_of(*element).is_empty(),
        Term::Any(wildcard) => admits_some(&wildcard.namespaces),
        Term::Group(_) | Term::Sequence(_) | Term::Choice(_) | Term::All(_) => false,
    }
}

// Whether the constraint admits some namespace.
fn admits_some(constraint: &NsConstraint) -> bool
    ensures { result ≡ spec.admits_some constraint.now }
{
    match constraint {
        NsConstraint::Any | NsConstraint::Not(_) => true,
        NsConstraint::In(listed) => !listed.is_empty(),
    }
}
