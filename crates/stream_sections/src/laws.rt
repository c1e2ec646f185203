ghost use Rattle.std.specs.Prelude.{◌≡◌, ◌++◌, ℕ, List, true, Some, None};
ghost use Rattle.item_listing.specs.Listed.{Listed};
ghost use Rattle.item_listing.specs.declared.item.Item.{Item};
ghost use Rattle.tree_rows.specs.Forest.{Document};
ghost use Rattle.stream_sections.specs.Sections as sections;
ghost use Rattle.stream_sections.specs.Sections.{schemas, document, ended};
ghost use Rattle.stream_sections.specs.Spelled.{whole, so_far, given, Order, SpellsCheck, SpellsStream, has_document, stream_refusal, closing_refusal, opened_refusal};
ghost use Rattle.stream_sections.specs.inside.CommandTurns as command_turns;
ghost use Rattle.stream_sections.specs.inside.DocumentTurns as document_turns;
ghost use Rattle.stream_sections.specs.inside.SchemaTurns as schema_turns;
ghost use Rattle.stream_sections.specs.declared.asked.Asked.{Asked};
ghost use Rattle.stream_sections.specs.declared.asked.Asked.TheVariants.{Check};
ghost use Rattle.stream_sections.specs.declared.refusal.RefusedLine.{RefusedLine};
ghost use Rattle.stream_sections.specs.declared.schemas.SchemaSection.{SchemaSection};

use tree_building::documents_are_spelled;

/// A reader that takes the items of a stream one by one comes to what they give by the lists of the items.
pub fn readers_give_sections()
    ensures schemas_alone { (a : Asked) (its : Listed)
        → schema_turns.read a sections.closing 0 schema_turns.unbegun its ≡ sections.schemas_alone a its }
    ensures with_document { (a : Asked) (its : Listed)
        → schema_turns.read a (sections.document_section a) 0 schema_turns.unbegun its ≡ sections.with_document a its }
    ensures document { (a : Asked) (lines : ℕ) (its : Listed)
        → document_turns.read a lines (document_turns.unbegun lines) its ≡ sections.document_section a lines its }
    ensures commands { (lines : ℕ) (its : Listed) → command_turns.read lines command_turns.unbegun its ≡ sections.commands lines None its }
{}

/// Schema sections and a document that spell trees, and commands with their blocks, give exactly these, and no other items do; and
/// once a line is refused, no such stream begins with the items that have come.
pub fn streams_are_read()
    ensures check { (all : List SchemaSection) (its : List Item) → SpellsCheck all its → sections.schemas_alone Check (whole its) ≡ schemas all ended }
    ensures stream { (a : Asked) (all : List SchemaSection) (d : Document) (orders : List Order) (its : List Item) → SpellsStream a all d orders its
        → sections.with_document a (whole its) ≡ schemas all (document d (given orders)) }
    ensures check_spelled { (all : List SchemaSection) (its : List Item) → sections.schemas_alone Check (whole its) ≡ schemas all ended → SpellsCheck all its }
    ensures stream_spelled { (a : Asked) (all : List SchemaSection) (d : Document) (orders : List Order) (its : List Item) → has_document a ≡ true
        → sections.with_document a (whole its) ≡ schemas all (document d (given orders)) → SpellsStream a all d orders its }
    ensures check_refused { (spot : RefusedLine) (its more : List Item) (all : List SchemaSection)
        → stream_refusal closing_refusal (sections.schemas_alone Check (so_far its)) ≡ Some spot → SpellsCheck all (its ++ more) → ⊥ }
    ensures stream_refused { (a : Asked) (spot : RefusedLine) (its more : List Item) (all : List SchemaSection) (d : Document) (orders : List Order)
        → stream_refusal opened_refusal (sections.with_document a (so_far its)) ≡ Some spot → SpellsStream a all d orders (its ++ more) → ⊥ }
{
    documents_are_spelled();
}
