//! Automata of content models by the numbers of complex types.

ghost use Rattle.std.specs.Prelude.{◌≡◌, ◌<◌, length, slice_index_or, slice_set, option_map, None, Some, IfOk};
ghost use Rattle.schema_models.specs.inside.Steps.{AreNone};

use content_models::ContentAutomaton;
use std::alloc::{AllocError, Global};
use std::marker::Model;
use xs_components::{ComplexId, Components};

/// The automata of the content models of a schema set, by the numbers of complex types. A type whose content has no particle
/// has none.
pub struct Models {
    automata: Vec<Option<ContentAutomaton>>,
}

impl Model for Models {
    ghost use Rattle.std.specs.Prelude.{List, Option};
    ghost use Rattle.content_models.specs.declared.automaton.ContentAutomaton.{ContentAutomaton};

    ghost Value = { List (Option ContentAutomaton) };

    ghost view = { λ m. m.automata.items };
}

impl Models {
    /// No automaton for any complex type.
    pub(crate) fn none_yet(alloc: Global, parts: &Components) -> Result<Models, AllocError>
        ensures none { IfOk result AreNone }
        ensures each { IfOk result (λ models. length models ≡ length parts.now.complexes.parts) }
    {
        let mut automata = Vec::new(alloc);
        let mut number = 0;
        'types: while let Some(_) = parts.complex_at(number) {
            automata.push(None)?;
            number += 1;
        }
        Ok(Models { automata })
    }

    /// Puts the automaton of a complex type into its place.
    pub(crate) fn put(&mut self, id: ComplexId, automaton: ContentAutomaton)
        requires { id < length self.old }
        ensures put { self.new ≡ slice_set self.old id (Some automaton) }
    {
        self.automata[id.number() as usize] = Some(automaton);
    }

    /// The automaton of the content model of a complex type; `None` where its content has no particle.
    pub fn automaton(&self, id: ComplexId) -> Option<&ContentAutomaton>
        ensures { option_map (λ a. a.now) result ≡ slice_index_or self.now id None }
    {
        match self.automata.get(id.number() as usize) {
            Some(model) => model.as_ref(),
            None => None,
        }
    }
}

impl Drop for Models {
    fn drop(self) {
        let Models { automata } = self;
        drop(automata);
    }
}
