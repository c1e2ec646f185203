ghost use Rattle.std.specs.Prelude.{◌≡◌, List, Ok};
ghost use Rattle.item_listing.specs.declared.item.Item.{Item};
ghost use Rattle.tag_names.specs.Scopes.{first_scope};
ghost use Rattle.tree_building.specs.Building.{nothing, built, document};
ghost use Rattle.tree_building.specs.Rules.{document_rules};
ghost use Rattle.tree_building.specs.Sound.{WillBeSound};
ghost use Rattle.tree_rows.specs.Forest.{Document};
ghost use Rattle.tree_rows.specs.Whole.{IsTree};
ghost use Rattle.tree_rows.specs.declared.row.Binding.{Binding};

/// What is built by the rules of a document is the rows of a tree.
pub fn documents_are_sound()
    ensures { WillBeSound (Ok (nothing document_rules first_scope)) }
{}

/// What items build by the rules of a document, in whatever scope, is a tree.
pub fn documents_are_trees()
    ensures { (scope : List Binding) (its : List Item) (d : Document) → document (built document_rules scope its) ≡ Ok d → IsTree d }
{}
