ghost use Rattle.std.specs.Prelude.{List, All};
ghost use Rattle.xs_names.specs.Names.{NameTable};
ghost use Rattle.schema_set.specs.declared.documents.SetDocument.{SetDocument};
ghost use Rattle.set_representations.specs.Documents.{representations};
ghost use Rattle.schema_check.specs.Shaped.{AreShaped};
ghost use Rattle.schema_check.specs.OfTree.{IsOfTree};

/// In what documents of the right shape represent, a simple type is made by a restriction, a list or a union; one of the first two
/// that names no type has one in it; simpleContent and complexContent have a restriction or an extension; and complex types stand
/// in elements and at the top alone.
pub fn representations_are_shaped()
    ensures shaped { (t : NameTable) (ds : List SetDocument) → All IsOfTree ds → AreShaped (representations t ds) }
{}
