ghost use Rattle.std.specs.Prelude.{◌≡◌, ◌≢◌, ℕ, true, List, None, Some, Contains, slice_get};
ghost use Rattle.xs_codes.specs.Least.{IsLeast};
ghost use Rattle.xs_names.specs.Names.{NameTable};
ghost use Rattle.representations.specs.Names.{spaces_of};
ghost use Rattle.representations.specs.declared.origins.Origin.{Origin};
ghost use Rattle.representations.specs.declared.parts.Representation.{Representation};
ghost use Rattle.reference_faults.specs.Faults.{IsBroken};
ghost use Rattle.reference_faults.specs.References.{references};
ghost use Rattle.reference_faults.specs.Resolution.{kinds_of, resolves, place_of};
ghost use Rattle.reference_faults.specs.declared.reference.Reference.{Reference};

/// A law: where no constraint of names and references is broken, each reference resolves (Structures 3.15.3), and what is referred to is
/// found by its name in the symbol space of its kind.
pub fn references_are_found()
    ensures resolve { (t : NameTable) (origins : List Origin) (reps : List Representation) → IsLeast (IsBroken t origins reps) None → (place : ℕ) (rep : Representation) (to : Reference) → slice_get reps place ≡ Some rep → Contains (references rep.form) to → resolves (spaces_of reps) (kinds_of reps) to ≡ true }
    ensures found { (reps : List Representation) (to : Reference) → resolves (spaces_of reps) (kinds_of reps) to ≡ true → place_of (spaces_of reps) to ≢ None }
{}
