//! What runs of automata say of the terms of child elements.

ghost use Rattle.std.specs.Prelude.{◌≡◌, ℕ, false, List, Option, Some, slice_index};
ghost use Rattle.content_models.specs.declared.automaton.ContentAutomaton.{ContentAutomaton};
ghost use Rattle.assessment.specs.Attribution.{SchemaSet, AreTerms};
ghost use Rattle.assessment.specs.Fitting.{Fits};
ghost use Rattle.model_terms.specs.Symbols.{child_symbols};
ghost use Rattle.model_terms.specs.Terms.{is_ambivalent_symbol, stuck_in, term_in, terms_in};

/// Law of the definitions (Structures 3.4.4, 3.8.4): along the symbols of child elements, the automaton that stands for their
/// parent's content model gives the place where they get stuck, and the term of each of them.
pub fn runs_are_terms()
    ensures { (s : SchemaSet) (p : Option ℕ) (a : Option ContentAutomaton) (children : List ℕ) → Fits s p a →
        AreTerms s p children (stuck_in a (child_symbols s.names a children)) (terms_in a (child_symbols s.names a children)) }
{}

/// Law of the definitions (Structures 3.4.4): the term of a child goes by its symbol alone, wherever the child stands, where the
/// symbol is not ambivalent.
pub fn terms_go_by_symbols()
    ensures { (a : ContentAutomaton) (xs ys : List ℕ) (i j : ℕ) → is_ambivalent_symbol a (slice_index xs i) ≡ false → slice_index xs i ≡ slice_index ys j →
        term_in (Some a) xs i ≡ term_in (Some a) ys j }
{}
