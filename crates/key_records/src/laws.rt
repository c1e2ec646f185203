//! What counts of tuples say of the tables of elements.

ghost use Rattle.std.specs.Prelude.{◌≡◌, ◌≤◌, ◌↔◌, ℕ, List, IsTrue};
ghost use Rattle.xs_names.specs.Names.{NameTable};
ghost use Rattle.simple_values.specs.declared.key.Key.{Key};
ghost use Rattle.xs_components.specs.Tables.{Tables};
ghost use Rattle.xpath_subset.specs.declared.paths.IdentityPaths.{IdentityPaths};
ghost use Rattle.identity_constraints.specs.Counting.{Numbers, is_visible as is_seen_at};
ghost use Rattle.key_records.specs.Tables.{KeyTuple, for_key};
ghost use Rattle.identity_constraints.specs.Seen.{KeyElement, KeyForest};
ghost use Rattle.identity_constraints.specs.Satisfied.{is_visible, has_repeated};
ghost use Rattle.key_records.specs.Views.{times, IsCounted, AreCounted};

/// Where the own tuples of elements are counted under numbers of theirs, a tuple is in the table of an element exactly where its counts
/// say so (Structures 3.11.5); and two tuples are equal exactly where one is counted twice (3.11.4, clauses 4.1 and 4.2.2).
pub fn counts_are_the_tables()
    ensures visible { (names : NameTable) (t : Tables) (identities : List IdentityPaths) (own : ℕ → KeyTuple → ℕ) (n : ℕ) (under : Numbers) (e : KeyElement) (below : KeyForest)
        → IsCounted names t identities own n e below → AreCounted names t identities own under below
        → (k : ℕ) (tuple : List Key) → is_seen_at own (for_key k tuple) n under ≡ is_visible names t identities k tuple e below }
    ensures repeated { (tuples : List (List Key)) → IsTrue (has_repeated tuples) ↔ ((tuple : List Key) × (2 ≤ times tuple tuples)) }
{}
