//! What the fits of symbols are by the names of child elements.

ghost use Rattle.std.specs.Prelude.{◌≡◌, ◌<◌, ℕ, List, length, map, take, drop};
ghost use Rattle.content_automaton.specs.Terms.{ExpandedName};
ghost use Rattle.content_automaton.specs.Symbols.{symbol_of};
ghost use Rattle.content_models.specs.Built.{symbols_of};
ghost use Rattle.content_models.specs.declared.automaton.ContentAutomaton.{ContentAutomaton as ContentAutomatonData};
ghost use Rattle.assessment.specs.Attribution.{SchemaSet};
ghost use Rattle.model_lists.specs.Lists.{ListsView, IsListOf};
ghost use Rattle.model_lists.specs.declared.handle.ModelList.{ModelList as ModelListData};
ghost use Rattle.xs_names.specs.Names.{NameTable};
ghost use Rattle.kept_next.specs.Next.{AreFits, FitsAs, IsNamed, fits_below, lines_below};
ghost use Rattle.kept_next.specs.Answers.{Answer, AreAnswers, PlaceQuestion, answers_by, answers_of, count, lines};
ghost use Rattle.kept_next.specs.Place.{AreAround, IsPlaceBy, ListPlace, children_in, fits_at, name_at, number_at};
ghost use Rattle.kept_next.specs.Words.{IsNameOf, IsWordBy, IsWordIn};

/// Law of the definitions: a list has so many children as it has symbols, so its bounds of steps go by its symbols.
pub fn lists_have_their_children()
    ensures { (v : ListsView) (list : ModelListData) (a : ContentAutomatonData) (symbols : List ℕ) → IsListOf v list a symbols → children_in v list ≡ length symbols }
{}

/// Law of the definitions (Structures 3.8.4): at a place of a list each symbol fits in some way, which the automaton tells of the
/// symbols of the child elements before the place, this one, and those from the place on.
pub fn places_have_fits()
    ensures { (v : ListPlace) (s : SchemaSet) (p : ℕ) (names : List ExpandedName) → IsPlaceBy v s p names →
        AreFits (IsWordIn v.automaton) (AreAround v) (number_at v) (length v.symbols) (fits_at v (map (symbol_of s.names (symbols_of v.automaton)) names)) }
{}

/// Law of the definitions (Structures 3.8.4): as the automaton tells of a symbol at a place of a list, so fits each name that the
/// symbol stands for, by the words of the content model and the names of the child elements.
pub fn symbols_fit_as_their_names()
    ensures { (v : ListPlace) (s : SchemaSet) (p : ℕ) (names : List ExpandedName) → IsPlaceBy v s p names → (n : ℕ) → n < length v.symbols →
        (name : ExpandedName) → IsNameOf s.names (symbols_of v.automaton) (name_at v n) name →
        FitsAs (IsWordBy s p) (take v.place names) (drop v.place names) name (fits_at v (map (symbol_of s.names (symbols_of v.automaton)) names) n) }
{}

/// Law of the definitions: what a place of a list answers is what is asked of it, and the lines that are written for its symbols are
/// those of its answers.
pub fn places_have_answers()
    ensures answers { (v : ListPlace) (s : SchemaSet) (p : ℕ) (names : List ExpandedName) → IsPlaceBy v s p names →
        AreAnswers (record { set = s; particle = p; before = take v.place names; behind = drop v.place names })
        (answers_by v s names) }
    ensures many { (v : ListPlace) (symbols : List ℕ) → length (answers_of v symbols) ≡ length v.symbols }
    ensures lines { (t : NameTable) (v : ListPlace) (symbols : List ℕ) → lines t (answers_of v symbols) ≡ lines_below t (name_at v) (fits_at v symbols) (length v.symbols) }
    ensures count { (v : ListPlace) (symbols : List ℕ) → count (answers_of v symbols) ≡ fits_below (fits_at v symbols) (length v.symbols) }
{}

/// Law of the definitions: the table of a schema set has what the symbols of a place stand for.
pub fn places_are_named()
    ensures { (v : ListPlace) (s : SchemaSet) (p : ℕ) (names : List ExpandedName) → IsPlaceBy v s p names → (n : ℕ) → n < length v.symbols → IsNamed s.names (name_at v n) }
{}

/// Law of the definitions (Structures 3.8.4): what is asked of a place has one list of answers.
pub fn answers_are_one()
    ensures only { (q : PlaceQuestion) (x y : List Answer) → AreAnswers q x → AreAnswers q y → x ≡ y }
{}
