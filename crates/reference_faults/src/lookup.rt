ghost use Rattle.std.specs.Prelude.{◌≡◌, ◌++◌, ◌∷◌, [], IfOk, OnOk};
ghost use Rattle.std.specs.List.{list_all};
ghost use Rattle.reference_faults.specs.Resolution as spec;

use crate::reference::Reference;
use component_tables::Symbols;
use representations::{Representation, Represented, SymbolSpaces};
use std::alloc::{AllocError, Global};
use xs_names::NameId;

/// The names of those kinds of components that share a symbol space with others, by the places of representations.
#[derive(Drop)]
pub(crate) struct Kinds {
    simples: Symbols,
    // Keys and uniques.
    keys: Symbols,
}

/// The names of all components.
#[derive(Clone, Copy)]
pub(crate) struct Lookup<'a> {
    pub(crate) spaces: &'a SymbolSpaces,
    pub(crate) kinds: &'a Kinds,
}

// The name of a simple type.
fn simple_symbol(form: &Represented) -> Option<NameId>
    ensures { result ≡ spec.simple_symbol form.now }
{
    match form {
        Represented::SimpleType { name, .. } => *name,
        _ => None,
    }
}

// The name of a key or a unique.
fn key_symbol(form: &Represented) -> Option<NameId>
    ensures { result ≡ spec.key_symbol form.now }
{
    match form {
        Represented::Unique { name } => Some(*name),
        Represented::Key { name } => Some(*name),
        _ => None,
    }
}

/// The names of simple types, and of keys and uniques.
pub(crate) fn kinds_of(alloc: Global, reps: &[Representation]) -> Result<Kinds, AllocError>
    ensures kinds { IfOk result (λ kinds. kinds ≡ spec.kinds_of reps.now) }
{
    let mut kinds = Kinds {
        simples: Symbols::new(alloc),
        keys: Symbols::new(alloc),
    };
    for rep in reps {
        kinds.simples.push(simple_symbol(&rep.form))?;
        kinds.keys.push(key_symbol(&rep.form))?;
    }
    Ok(kinds)
}

// Whether a component has the name.
fn is_named(symbols: &Symbols, name: NameId) -> bool
    ensures { result ≡ spec.is_named symbols.now name }
{
    symbols.first(name).is_some()
}

impl Lookup<'_> {
    // Whether a component of the kind that is needed has the name.
    fn resolves(&self, reference: Reference) -> bool
        ensures { result ≡ spec.resolves self.now.spaces.now self.now.kinds.now reference }
    {
        match reference {
            Reference::ToElement(name) => is_named(&self.spaces.elements, name),
            Reference::ToAttribute(name) => is_named(&self.spaces.attributes, name),
            Reference::ToType(name) => is_named(&self.spaces.types, name),
            Reference::ToSimpleType(name) => is_named(&self.kinds.simples, name),
            Reference::ToAnyTypeAsSimple => false,
            Reference::ToGroup(name) => is_named(&self.spaces.groups, name),
            Reference::ToAttributeGroup(name) => is_named(&self.spaces.attr_groups, name),
            Reference::ToKey(name) => is_named(&self.kinds.keys, name),
        }
    }

    /// Whether each reference is to a component of the kind that is needed.
    pub(crate) fn all_resolve(&self, refs: &[Reference]) -> bool
        ensures { result ≡ list_all (spec.resolves self.now.spaces.now self.now.kinds.now) refs.now }
    {
        for reference in refs {
            if !self.resolves(*reference) {
                return false;
            }
        }
        true
    }
}
