ghost use Rattle.std.specs.Prelude.{ℕ, List, Ok, All};
ghost use Rattle.tree_rows.specs.Whole.{IsTree};
ghost use Rattle.schema_check.specs.Compilation.{IsCompilation};
ghost use Rattle.schema_set.specs.declared.inputs.SchemaInput.{SchemaInput};
ghost use Rattle.schema_check.specs.declared.documents.CompiledSet.{CompiledSet};
ghost use Rattle.schema_compile.specs.Fit.{IsFit};

use build_components::tables_are_closed;
use elem_assess::{simple_contents_are_read, simple_types_are_simple_trees};
use schema_check::compiled_types_are_simple;

/// What the later phases and the assessment ask of components is so of what documents' trees are compiled to.
pub fn compiled_parts_are_fit()
    ensures fit { (documents : List SchemaInput) (start : ℕ) (made : CompiledSet) → All (λ input. IsTree input.tree) documents → IsCompilation documents start (Ok made) → IsFit made }
{
    tables_are_closed();
    compiled_types_are_simple();
    simple_contents_are_read();
    simple_types_are_simple_trees();
}
