//! What automata over symbols say of the words of content models.

ghost use Rattle.std.specs.Prelude.{◌≡◌, ◌<◌, ℕ, Bool, List, Some, All};
ghost use Rattle.xs_positions.specs.PositionWords.{IsWord};
ghost use Rattle.particle_models.specs.Particles.{Particle};
ghost use Rattle.particle_models.specs.Words.{IsAmbiguous};
ghost use Rattle.particle_models.specs.Reach.{Reach};
ghost use Rattle.particle_models.specs.Unrolled.{unrolled, HasNoAll};
ghost use Rattle.particle_models.specs.Model.{UnrolledModel, IsUnrolled, IsInhabitedBy};
ghost use Rattle.content_automaton.specs.Moves.{symbol_at};
ghost use Rattle.content_automaton.specs.Automaton.{Automaton, Speaks, Accepts, run, term_of};
ghost use Rattle.content_automaton.specs.Ambiguity.{AreReachedTogether, AreReachedApart};
ghost use Rattle.content_automaton.specs.Recognized.{ExpandedName, AreSymbols, Recognizes, IsUnambiguous, GivesTerms, nth_place};

/// Laws of the definitions (Structures 3.8.4, 3.8.6, 3.4.4): an automaton over the positions of a model recognizes its words; terms that the same
/// symbols lead to are those of two places at which the model is ambiguous; and on a model that is not ambiguous the automaton's
/// terms are those at the place that ends every marked prefix.
pub fn words_of_models()
    ensures language { (accepts : ℕ → ExpandedName → Bool) (inhabited : ℕ → Bool) (model : Particle) (u : UnrolledModel) (accepted : List (List ℕ)) (symbol : ExpandedName → ℕ) (a : Automaton) →
        HasNoAll model → IsUnrolled inhabited model u → IsInhabitedBy accepts inhabited → AreSymbols accepts u.terms accepted a.symbols symbol →
        Speaks (unrolled inhabited model 0) u.table accepted a → Recognizes accepts model symbol a }
    ensures apart { (accepts : ℕ → ExpandedName → Bool) (inhabited : ℕ → Bool) (model : Particle) (u : UnrolledModel) (accepted : List (List ℕ)) (symbol : ExpandedName → ℕ) (symbols : ℕ) →
        HasNoAll model → IsUnrolled inhabited model u → IsInhabitedBy accepts inhabited → AreSymbols accepts u.terms accepted symbols symbol →
        AreReachedApart (unrolled inhabited model 0) u.table accepted symbols → IsUnambiguous accepts model }
    ensures together { (accepts : ℕ → ExpandedName → Bool) (inhabited : ℕ → Bool) (model : Particle) (u : UnrolledModel) (accepted : List (List ℕ)) (symbol : ExpandedName → ℕ) (symbols x y : ℕ) →
        HasNoAll model → IsUnrolled inhabited model u → IsInhabitedBy accepts inhabited → AreSymbols accepts u.terms accepted symbols symbol →
        AreReachedTogether (unrolled inhabited model 0) u.table accepted symbols x y → IsAmbiguous accepts model (nth_place model x) (nth_place model y) }
    ensures terms { (accepts : ℕ → ExpandedName → Bool) (inhabited : ℕ → Bool) (model : Particle) (u : UnrolledModel) (accepted : List (List ℕ)) (symbol : ExpandedName → ℕ) (a : Automaton) →
        HasNoAll model → IsUnrolled inhabited model u → IsInhabitedBy accepts inhabited → AreSymbols accepts u.terms accepted a.symbols symbol →
        ((names : List ℕ) → All (λ n. n < a.symbols) names → (p : ℕ) → Reach (Accepts u.table accepted) (IsWord (unrolled inhabited model 0) 0) names p →
        term_of a (run a 0 names) ≡ Some (symbol_at u.table p)) →
        GivesTerms accepts model symbol a }
{}
