//! The law.

ghost use Rattle.std.specs.Prelude.{ℕ, List};
ghost use Rattle.xs_names.specs.Names.{IsSound};
ghost use Rattle.compiled_schema.specs.Usable.{set_of};
ghost use Rattle.compiled_schema.specs.declared.compiled.Compiled.{Compiled};
ghost use Rattle.schema_compile.specs.Outcomes.{IsOutcome};
ghost use Rattle.schema_compile.specs.declared.outcome.Outcome.TheVariants.{Accepted};
ghost use Rattle.schema_set.specs.declared.inputs.SchemaInput.{SchemaInput};
ghost use Rattle.kept_next.specs.Spaces.{HasSpacesNamed};

/// The namespaces that the wildcards of a set name (Structures 3.10.2) stand in its documents, so its table of names has them.
pub fn wildcards_name_spaces_of_their_table()
    ensures { (documents : List SchemaInput) (start : ℕ) (c : Compiled) → IsOutcome documents start (Accepted c) → IsSound c.names → HasSpacesNamed (set_of c) }
{}
