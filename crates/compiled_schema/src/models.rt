//! The content models of types.

ghost use Rattle.std.specs.Prelude.{◌≡◌, ℕ, Some, None, MatchOption};
ghost use Rattle.xs_names.specs.Names.{NameTable};
ghost use Rattle.schema_models.specs.SetModels.{content_of};
ghost use Rattle.assessment.specs.Attribution.{content_particle};
ghost use Rattle.compiled_schema.specs.Usable as spec;

use crate::Compiled;
use content_models::ContentAutomaton;
use xs_components::{ComplexId, TypeId};

impl Compiled {
    /// The automaton of the content model of a type, if it has one. The content of anyType, which admits all elements
    /// laxly, has none (Structures 3.4.7).
    pub fn model(&self, of: &Option<TypeId>) -> Option<&ContentAutomaton>
        ensures model { (first : NameTable) → spec.AreModels self.now first →
            MatchOption result (content_particle self.now.parts of.now ≡ None)
            (λ a. (p : ℕ) × (content_particle self.now.parts of.now ≡ Some p) × spec.IsModelOver first self.now p a.now) }
    {
        match of {
            None => None,
            Some(of) => self.type_model(of),
        }
    }

    // That of a type.
    fn type_model(&self, of: &TypeId) -> Option<&ContentAutomaton>
        ensures { (first : NameTable) → spec.AreModels self.now first →
            MatchOption result (content_particle self.now.parts (Some of.now) ≡ None)
            (λ a. (p : ℕ) × (content_particle self.now.parts (Some of.now) ≡ Some p) × spec.IsModelOver first self.now p a.now) }
    {
        match of {
            TypeId::AnyType | TypeId::Builtin(_) | TypeId::Simple(_) => None,
            TypeId::Complex(id) => self.complex_model(*id),
        }
    }

    // That of a complex type.
    fn complex_model(&self, id: ComplexId) -> Option<&ContentAutomaton>
        ensures { (first : NameTable) → spec.AreModels self.now first →
            MatchOption result (content_of self.now.parts id ≡ None)
            (λ a. (p : ℕ) × (content_of self.now.parts id ≡ Some p) × spec.IsModelOver first self.now p a.now) }
    {
        self.models.automaton(id)
    }
}
