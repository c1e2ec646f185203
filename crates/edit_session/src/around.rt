//! The place among the children of an element at which names may stand.

ghost use Rattle.std.specs.Prelude.{◌≡◌, ◌≢◌, ℕ, Bool, List, None, Some, Err, IfOk, OnOk, IfErr};
ghost use Rattle.session_model.specs.State.{State};
ghost use Rattle.doc_changes.specs.Stands.{StandsFor};
ghost use Rattle.kept_records.specs.Fit.{IsListed, models_of};
ghost use Rattle.kept_records.specs.Slots.{IsMade, kept_at, pair_at};
ghost use Rattle.compiled_schema.specs.Usable.{set_of};
ghost use Rattle.kept_next.specs.Spaces.{HasSpacesNamed};
ghost use Rattle.edit_session.specs.Around as spec;
ghost use Rattle.edit_session.specs.Around.{IsAroundAt, IsPlaced, asked_at};
ghost use Rattle.edit_session.specs.Held.{IsPresent, state_by};
ghost use Rattle.edit_session.specs.declared.around.AroundError.TheVariants.{Memory, NoModel};

use compiled_schema::Compiled;
use doc_tree::DocTree;
use kept_inverses::kept_state::KeptState;
use kept_next::{AroundAt, ChildList};
use kept_records::model_of;
use tree_rows::NodeKind;

/// Why there is no place among the children of an element of which may be asked what may stand there.
#[derive(Clone, Copy, Debug, PartialEq, Eq)]
pub enum AroundError {
    /// There is no such node.
    UnknownNode,
    /// The node is a text.
    NotElement,
    /// The element has fewer children.
    BadIndex,
    /// The type of the element, if it has one, has no content model.
    NoModel,
    /// Memory is wanting.
    Memory,
}

impl AroundError {
    /// The number by which refusals are ordered and printed.
    pub fn number(self) -> u8
        ensures { result ≡ spec.number_of self }
    {
        match self {
            AroundError::UnknownNode => 1,
            AroundError::NotElement => 2,
            AroundError::BadIndex => 5,
            AroundError::NoModel => 32,
            AroundError::Memory => 13,
        }
    }

    /// The name as it is printed.
    pub fn name(self) -> &'static str
        ensures { result.now ≡ spec.name_of self }
    {
        match self {
            AroundError::UnknownNode => "UnknownNode",
            AroundError::NotElement => "NotElement",
            AroundError::BadIndex => "BadIndex",
            AroundError::NoModel => "NoModel",
            AroundError::Memory => "Memory",
        }
    }
}

// What of the node of a number is asked for: an element with such a place.
fn element_here(doc: &DocTree, node: u32, index: u32) -> Result<(), AroundError>
    ensures here { OnOk result (IsPlaced doc.now node index) }
    ensures refused { IfErr result (λ e. (s : State) → StandsFor s.set.names doc.now s.document → asked_at s node index ≡ Err e) }
{
    match doc.live(node) {
        None => Err(AroundError::UnknownNode),
        Some(NodeKind::Chars) => Err(AroundError::NotElement),
        Some(NodeKind::Element) => {
            if index > doc.child_count(node) {
                Err(AroundError::BadIndex)
            } else {
                Ok(())
            }
        }
    }
}

// The list of the child elements of an element, with the automaton of the content model of its type.
fn list_of<'a>(
    set: &'a Compiled,
    kept: &'a KeptState,
    node: u32,
) -> Result<ChildList<'a>, AroundError>
    requires made { IsMade kept.now.records.slots node }
    requires listed { (symbols : List ℕ) × IsListed kept.now.lists (models_of set.now (pair_at kept.now.records.slots node).of) (kept_at kept.now.records.slots node).list symbols }
    ensures lists { IfOk result (λ own. own.lists.now ≡ kept.now.lists) }
    ensures list { IfOk result (λ own. (kept_at kept.now.records.slots node).list ≡ Some own.list) }
    ensures automaton { IfOk result (λ own. models_of set.now (pair_at kept.now.records.slots node).of ≡ Some own.automaton.now) }
    ensures none { IfErr result (λ e. (e ≡ NoModel) × (models_of set.now (pair_at kept.now.records.slots node).of ≡ None)) }
{
    let own = kept.at(node);
    let Some(automaton) = model_of(set, own.found.governing.of) else {
        return Err(AroundError::NoModel);
    };
    let Some(list) = own.list else { unreachable!() };
    Ok(ChildList {
        lists: &kept.lists,
        list,
        automaton,
    })
}

// The place before the child at an index of an element that has as many children, by the content model of its type.
fn place_in<'a>(
    set: &'a Compiled,
    doc: &DocTree,
    kept: &'a KeptState,
    node: u32,
    index: u32,
) -> Result<AroundAt<'a>, AroundError>
    requires present { IsPresent set.now doc.now kept.now }
    requires spaced { HasSpacesNamed (set_of set.now) }
    requires here { IsPlaced doc.now node index }
    ensures place { IfOk result (λ v. (revision : ℕ) (closed : Bool) → IsAroundAt (state_by set.now doc.now kept.now revision closed) node index v) }
    ensures refused { IfErr result (λ e. e ≢ Memory → (revision : ℕ) (closed : Bool) → asked_at (state_by set.now doc.now kept.now revision closed) node index ≡ Err e) }
{
    let place = doc.elements_upto(node, index);
    match list_of(set, kept, node) {
        Ok(children) => match AroundAt::new(kept.alloc, &set.names, children, place) {
            Ok(place) => Ok(place),
            Err(_) => Err(AroundError::Memory),
        },
        Err(error) => Err(error),
    }
}

/// The place before the child at an index of an element, by the content model of its type.
///
/// # Errors
///
/// `UnknownNode`, `NotElement` and `BadIndex` as for an insertion; `NoModel` where the element has no content model; `Memory`.
pub(crate) fn find_place<'a>(
    set: &'a Compiled,
    doc: &DocTree,
    kept: &'a KeptState,
    node: u32,
    index: u32,
) -> Result<AroundAt<'a>, AroundError>
    requires present { IsPresent set.now doc.now kept.now }
    requires spaced { HasSpacesNamed (set_of set.now) }
    ensures place { IfOk result (λ v. (revision : ℕ) (closed : Bool) → IsAroundAt (state_by set.now doc.now kept.now revision closed) node index v) }
    ensures refused { IfErr result (λ e. e ≢ Memory → (revision : ℕ) (closed : Bool) → asked_at (state_by set.now doc.now kept.now revision closed) node index ≡ Err e) }
{
    match element_here(doc, node, index) {
        Ok(()) => place_in(set, doc, kept, node, index),
        Err(error) => Err(error),
    }
}
