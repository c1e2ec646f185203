//! A child element among those of its parent.

ghost use Rattle.std.specs.Prelude.{◌≡◌, ◌⊎◌, None, Some, true, MatchOption};
ghost use Rattle.doc_nodes.specs.Nodes.{is_element_at};
ghost use Rattle.doc_changes.specs.Held.{parent_at};
ghost use Rattle.child_listing.specs.from_kept_records.Slots.{IsMade, kept_at};
ghost use Rattle.child_lists.specs.Places.{IsPlaceOf};
ghost use Rattle.child_lists.specs.Family as family;

use child_listing::kept_records::model_of;
use child_listing::kept_state::KeptState;
use compiled_schema::Compiled;
use content_models::ContentAutomaton;
use doc_tree::DocTree;
use model_lists::ModelList;

/// A child element, with its parent and its place among the child elements.
#[derive(Clone, Copy)]
pub struct ChildPlace {
    pub parent: u32,
    pub place: u32,
    pub node: u32,
}

/// Where an element stands; `None` for the root.
pub fn place_of(doc: &DocTree, node: u32) -> Option<ChildPlace>
    requires { is_element_at doc.now node ≡ true }
    ensures { MatchOption result (parent_at doc.now node ≡ None) (λ at. (at.node ≡ node) × IsPlaceOf doc.now at) }
{
    match doc.parent(node) {
        None => None,
        Some(parent) => match doc.element_place(node) {
            None => None,
            Some(place) => Some(ChildPlace {
                parent,
                place,
                node,
            }),
        },
    }
}

// The list of an element's child elements.
fn list_at(kept: &KeptState, node: u32) -> Option<ModelList>
    requires { IsMade kept.now.records.slots node }
    ensures { result ≡ (kept_at kept.now.records.slots node).list }
{
    kept.children(node).list
}

/// The list of an element's child elements and the automaton of its content model, where its type has one.
pub fn list_of<'a>(
    set: &'a Compiled,
    kept: &KeptState,
    node: u32,
) -> Option<(ModelList, &'a ContentAutomaton)>
    requires { IsMade kept.now.records.slots node }
    ensures { MatchOption result
        (((kept_at kept.now.records.slots node).list ≡ None) ⊎ (family.model_of set.now kept.now node ≡ None))
        (λ found. ((kept_at kept.now.records.slots node).list ≡ Some found.0) × (family.model_of set.now kept.now node ≡ Some found.1.now)) }
{
    match list_at(kept, node) {
        None => None,
        Some(list) => match model_of(set, kept.pair(node).of) {
            None => None,
            Some(automaton) => Some((list, automaton)),
        },
    }
}
