//! What stays true of content models and their automata when names are added to the table.

ghost use Rattle.std.specs.Prelude.{◌≡◌, ◌↔◌, ℕ, List, Option};
ghost use Rattle.xs_names.specs.Names.{NameTable, Grown};
ghost use Rattle.xs_components.specs.Tables.{Tables};
ghost use Rattle.particle_models.specs.Words.{IsWordOfNames, BeginsWord};
ghost use Rattle.particle_forms.specs.Models.{model_of};
ghost use Rattle.particle_forms.specs.Accepted.{accepts};
ghost use Rattle.content_automaton.specs.Terms.{ExpandedName};
ghost use Rattle.content_automaton.specs.Attribution.{IsAmbivalent};
ghost use Rattle.content_models.specs.Terms.{model_terms};
ghost use Rattle.content_models.specs.Built.{IsBuilt, IsFirstIn};
ghost use Rattle.content_models.specs.declared.automaton.ContentAutomaton.{ContentAutomaton};
ghost use Rattle.schema_models.specs.Checks.{IsChecked};
ghost use Rattle.schema_models.specs.Named.{AreNamed};

/// Laws of the definitions (Structures 3.4.4, 3.8.4, 3.8.6): what particles accept, the words of content models, the names that
/// are ambivalent, the first terms that accept names, and the automata that are built stay as they are when names are added to
/// the table, where the members of substitution groups had their names in it.
pub fn models_keep_as_names_are_added()
    ensures accepted { (old new : NameTable) (t : Tables) (members : List (List ℕ)) → Grown old new → AreNamed old members →
        accepts old members t ≡ accepts new members t }
    ensures words { (old new : NameTable) (t : Tables) (members : List (List ℕ)) → Grown old new → AreNamed old members → (p : ℕ) (names : List ExpandedName) →
        IsWordOfNames (accepts old members t) (model_of t p) names ↔ IsWordOfNames (accepts new members t) (model_of t p) names }
    ensures beginnings { (old new : NameTable) (t : Tables) (members : List (List ℕ)) → Grown old new → AreNamed old members → (p : ℕ) (names : List ExpandedName) →
        BeginsWord (accepts old members t) (model_of t p) names ↔ BeginsWord (accepts new members t) (model_of t p) names }
    ensures ambivalent { (old new : NameTable) (t : Tables) (members : List (List ℕ)) (classes : List ℕ) → Grown old new → AreNamed old members → (p : ℕ) (name : ExpandedName) →
        IsAmbivalent old (model_terms members t classes p) name ↔ IsAmbivalent new (model_terms members t classes p) name }
    ensures first { (old new : NameTable) (t : Tables) (members : List (List ℕ)) (classes : List ℕ) → Grown old new → AreNamed old members → (p : ℕ) (name : ExpandedName) (first : Option ℕ) →
        IsFirstIn old t members classes p name first ↔ IsFirstIn new t members classes p name first }
    ensures built { (old new : NameTable) (t : Tables) (members : List (List ℕ)) (classes : List ℕ) → Grown old new → AreNamed old members → (p : ℕ) (a : ContentAutomaton) →
        IsBuilt old t members classes p a → IsBuilt new t members classes p a }
    ensures checked { (old new : NameTable) (t : Tables) (members : List (List ℕ)) (classes : List ℕ) → Grown old new → AreNamed old members → (p cells_left : ℕ) (a : ContentAutomaton) →
        IsChecked old t members classes p cells_left a → IsChecked new t members classes p cells_left a }
{}
