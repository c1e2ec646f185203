//! What targets are counted by, and which elements are targets as they were.

ghost use Rattle.std.specs.Prelude.{◌≡◌, ◌≤◌, ℕ, Bool, true, false, List, []};
ghost use Rattle.xs_names.specs.Names.{Grown, NameTable};
ghost use Rattle.xs_components.specs.Tables.{Tables};
ghost use Rattle.xpath_subset.specs.declared.paths.IdentityPaths.{IdentityPaths};
ghost use Rattle.identity_constraints.specs.Seen.{KeyElement, KeyForest};
ghost use Rattle.identity_constraints.specs.Targets.{outcomes};
ghost use Rattle.identity_constraints.specs.Satisfied.{identity_codes};
ghost use Rattle.path_walk.specs.Sight.{AreNamed, IsNamed};
ghost use Rattle.scope_targets.specs.Found.{AreNamesOf};
ghost use Rattle.scope_targets.specs.Targetings.{HasWithin, outcomes_for, targetings_along, targetings_of, uses};
ghost use Rattle.scope_targets.specs.Kin.{AreAround, Kin, Leaves};

/// Each element looked at as a target of the elements above it, one finds the targets of each constraint of each element, in document
/// order (Structures 3.11.4). No two elements have one number.
pub fn targetings_are_the_outcomes()
    ensures { (names : NameTable) (t : Tables) (identities : List IdentityPaths) (f : KeyForest) (own : KeyElement) (below : KeyForest) (k : ℕ)
        → uses own.number f ≤ 1 → HasWithin own below f → outcomes_for own.number k (targetings_along names t identities [] f) ≡ outcomes names t identities k own below }
{}

/// An element that an edit does not touch has what is below it as it was, and is a target as it was, where all elements above it are
/// steady. A steady element that is a target of nothing stays so.
pub fn targetings_stay()
    ensures below { (t : Tables) (old new : Kin) (touched steady : ℕ → Bool) → Leaves t old new (λ n. touched n ≡ false) (λ n. steady n ≡ true)
        → (n : ℕ) → touched n ≡ false → (below new_below : KeyForest) (above new_above : List KeyElement) → AreAround old new n below new_below above new_above → new_below ≡ below }
    ensures targets { (names : NameTable) (t : Tables) (identities : List IdentityPaths) (old new : Kin) (touched steady : ℕ → Bool) → Leaves t old new (λ n. touched n ≡ false) (λ n. steady n ≡ true)
        → (n : ℕ) → touched n ≡ false → (below new_below : KeyForest) (above new_above : List KeyElement) → AreAround old new n below new_below above new_above
        → targetings_of names t identities new_above (new.seen n) new_below ≡ targetings_of names t identities above (old.seen n) below }
    ensures bare { (names : NameTable) (t : Tables) (identities : List IdentityPaths) (old new : Kin) (touched steady : ℕ → Bool) → Leaves t old new (λ n. touched n ≡ false) (λ n. steady n ≡ true)
        → (n : ℕ) → steady n ≡ true → (below new_below : KeyForest) (above new_above : List KeyElement) → AreAround old new n below new_below above new_above
        → targetings_of names t identities above (old.seen n) below ≡ [] → targetings_of names t identities new_above (new.seen n) new_below ≡ [] }
{}

/// An element is the target that it was, and has the codes that it had, as names are added to the table, where its names and those of the
/// elements around it are there.
pub fn targetings_stay_as_names_are_added()
    ensures targets { (old new : NameTable) (t : Tables) (identities : List IdentityPaths) → Grown old new → (own : KeyElement) (below : KeyForest) (above : List KeyElement)
        → IsNamed old own → AreNamed old below → AreNamesOf old above → targetings_of new t identities above own below ≡ targetings_of old t identities above own below }
    ensures codes { (old new : NameTable) (t : Tables) (identities : List IdentityPaths) → Grown old new → (own : KeyElement) (below : KeyForest)
        → IsNamed old own → AreNamed old below → identity_codes new t identities own below ≡ identity_codes old t identities own below }
{}
