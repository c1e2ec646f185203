ghost use Rattle.std.specs.Prelude.{◌≡◌, ◌+◌, List, Ok, Err};
ghost use Rattle.item_listing.specs.declared.item.Item.{Item};
ghost use Rattle.tree_building.specs.Building.{document, built};
ghost use Rattle.tree_building.specs.Rules.{document_rules};
ghost use Rattle.tree_rows.specs.Forest.{Forest, Document, count};
ghost use Rattle.tree_rows.specs.declared.row.Binding.{Binding};
ghost use Rattle.tree_building.specs.declared.fault.TreeFault.{TreeFault};
ghost use Rattle.tree_building.specs.Refusals.{AreListed, IsRefused};
ghost use Rattle.tree_building.specs.Spelling.{IsDocument, SpellsDocument};

/// A document is built exactly of the items that spell it, in whatever scope its root stands; items that spell none are refused at
/// the first item that no document's spelling has there, or at the start of a tag for its names, for the first reason that stands.
pub fn documents_are_spelled()
    ensures read { (f : Forest) (scope : List Binding) (its : List Item) → IsDocument f → SpellsDocument f scope its
        → document (built document_rules scope its) ≡ Ok (record { forest = f; next_free = 1 + count f }) }
    ensures spelled { (d : Document) (scope : List Binding) (its : List Item) → document (built document_rules scope its) ≡ Ok d
        → IsDocument d.forest × SpellsDocument d.forest scope its × (d.next_free ≡ 1 + count d.forest) }
    ensures refused { (fault : TreeFault) (scope : List Binding) (its : List Item) → AreListed its → document (built document_rules scope its) ≡ Err fault
        → IsRefused scope its fault.item fault.reason }
{}
