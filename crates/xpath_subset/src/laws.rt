//! What a path reaches, as a test.

ghost use Rattle.std.specs.Prelude.{◌↔◌, List, Option, IsTrue};
ghost use Rattle.xpath_subset.specs.Reached.{reached};
ghost use Rattle.xpath_subset.specs.Reaches.{ExpandedName, IsReached};
ghost use Rattle.xpath_subset.specs.declared.path.Path.{Path as PathData};

/// A selector or a field reaches a node exactly where the test answers so.
pub fn reached_is_a_test()
    ensures reached { (paths : List PathData) (elements : List ExpandedName) (attribute : Option ExpandedName) → IsTrue (reached paths elements attribute) ↔ IsReached paths elements attribute }
{}
