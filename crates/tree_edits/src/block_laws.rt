ghost use Rattle.std.specs.Prelude.{◌≡◌, [], List, true, Ok};
ghost use Rattle.item_listing.specs.declared.item.Item.{Item};
ghost use Rattle.tree_rows.specs.Forest.{Document};
ghost use Rattle.tree_rows.specs.declared.row.Binding.{Binding};
ghost use Rattle.tree_building.specs.Blocks.{one_element};
ghost use Rattle.tree_building.specs.Building.{block, built, document};
ghost use Rattle.tree_building.specs.Rules.{document_rules};
ghost use Rattle.tree_edits.specs.Blocks.{tags_in};
ghost use Rattle.tree_edits.specs.Names.{element_names, tag_names};

/// The elements of a block, in document order, have the names that its start tags say, each in its scope.
pub fn blocks_are_named()
    ensures { (scope : List Binding) (its : List Item) → one_element its ≡ true
        → element_names (block scope its) ≡ tag_names (tags_in scope [] its) }
{}

/// The elements of a document, in document order, have the names that the start tags of its items say, each in its scope.
pub fn documents_are_named()
    ensures { (scope : List Binding) (its : List Item) (d : Document) → document (built document_rules scope its) ≡ Ok d
        → element_names d.forest ≡ tag_names (tags_in scope [] its) }
{}
