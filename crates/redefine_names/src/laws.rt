ghost use Rattle.std.specs.Prelude.{◌≡◌, ℕ, false, List, ◌∷◌, ◌++◌, Option};
ghost use Rattle.std.specs.Str.{IsUtf8, chars};
ghost use Rattle.xs_names.specs.Characters.{is_ncname};
ghost use Rattle.xs_names.specs.Names.{NameTable};
ghost use Rattle.representations.specs.declared.parts.Representation.{Representation};
ghost use Rattle.representations.specs.Named.{AreNamed};
ghost use Rattle.redefine_names.specs.Renamed.{renamed};
ghost use Rattle.redefine_names.specs.Unnamed.{unnamed_reps};
ghost use Rattle.redefine_names.specs.VersionNames.{version_local};

/// Where versions are told apart by names, representations stay as they are but for the names of types, groups and attribute
/// groups: so do their places, scopes and occurrences, and what stands in them. Names that are in the table stay in it.
pub fn names_alone_change()
    ensures unnamed { (t : NameTable) (reps : List Representation) (originals : List (Option ℕ)) → unnamed_reps (renamed t reps originals) ≡ unnamed_reps reps }
    ensures named { (t : NameTable) (reps : List Representation) (originals : List (Option ℕ)) → AreNamed t reps → AreNamed t (renamed t reps originals) }
{}

/// No NCName has a space (Namespaces in XML 1.0, production 4), so the local part of the name of an original is none: no document can
/// write it.
pub fn originals_have_no_ncnames()
    ensures spaced { (front back : List ℕ) → is_ncname (front ++ 32 ∷ back) ≡ false }
    ensures originals { (local : List ℕ) (place : ℕ) → IsUtf8 local → is_ncname (chars (version_local local place)) ≡ false }
{}
