ghost use Rattle.std.specs.Prelude.{ℕ, List, Option, Ok, All};
ghost use Rattle.schema_set.specs.declared.documents.SetDocument.{SetDocument};
ghost use Rattle.tree_rows.specs.Whole.{IsTree};
ghost use Rattle.schema_set.specs.declared.inputs.SchemaInput.{SchemaInput};
ghost use Rattle.schema_check.specs.Compilation.{IsCompilation};
ghost use Rattle.schema_check.specs.SetPhases.{IsSetCompiled};
ghost use Rattle.schema_check.specs.declared.documents.CompiledSet.{CompiledSet};
ghost use Rattle.schema_check.specs.OfTree.{IsOfTree};
ghost use Rattle.schema_check.specs.SimpleParts.{HasSimpleTypes};

use crate::{
    components_are_simple, names_resolve, representations_are_shaped, set_types_are_simple,
    versions_are_shaped,
};

/// What is compiled from documents' trees is a set of documents of the right shape. In the components of such a set what a simple
/// type is made of is simple, and so are the types of attributes and those that stand in simple content.
pub fn compiled_types_are_simple()
    ensures set { (set : List SetDocument) (originals : List (Option ℕ)) (made : CompiledSet) → All IsOfTree set → IsSetCompiled set originals (Ok made) → HasSimpleTypes made.parts }
    ensures shaped { (documents : List SchemaInput) (start : ℕ) (made : CompiledSet) → All (λ input. IsTree input.tree) documents → IsCompilation documents start (Ok made)
        → (set : List SetDocument) × (originals : List (Option ℕ)) × All IsOfTree set × IsSetCompiled set originals (Ok made) }
    ensures compiled { (documents : List SchemaInput) (start : ℕ) (made : CompiledSet) → All (λ input. IsTree input.tree) documents → IsCompilation documents start (Ok made) → HasSimpleTypes made.parts }
{
    names_resolve();
    components_are_simple();
    representations_are_shaped();
    versions_are_shaped();
    set_types_are_simple();
}
