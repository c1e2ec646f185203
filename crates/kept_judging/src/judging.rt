//! The records of an element by what is kept of it.

ghost use Rattle.std.specs.Prelude.{◌≡◌, ◌<◌, All, length, true, IfOk, OnOk};
ghost use Rattle.elem_governing.specs.View.{AreKnown};
ghost use Rattle.assessment.specs.Attribution.{SchemaSet};
ghost use Rattle.assessment.specs.Assessment.{AreJudged};
ghost use Rattle.compiled_schema.specs.Usable.{IsUsable, set_of};
ghost use Rattle.tree_assess.specs.Entries as entries;
ghost use Rattle.doc_nodes.specs.Nodes.{is_element_at};
ghost use Rattle.doc_changes.specs.Readers.{own_chars};
ghost use Rattle.kept_state.specs.from_kept_records.Fit.{bearer_at};
ghost use Rattle.kept_state.specs.from_kept_records.Slots.{IsMade, kept_at, pair_at};
ghost use Rattle.kept_state.specs.Kept.{CanGovern, IsBeside, IsFreeFor, children_at};
ghost use Rattle.kept_judging.specs.Judged.{IsJudgedBy, IsJudgedAnew, shape_with};

use crate::view::head_of;
use assess_records::ElementShape;
use compiled_schema::Compiled;
use doc_tree::DocTree;
use elem_assess::{AssessSet, Judged, local};
use elem_governing::{ElementHead, Governing, SchemaView};
use kept_state::kept_records::KeptElement;
use kept_state::{Governed, KeptChildren, KeptState};
use std::alloc::AllocError;
use tree_assess::ElementEntry;
use xs_names::Text;

// The number of the element that bears the IDs of an element's text (Structures 3.15.5).
fn bearer_of(doc: &DocTree, node: u32) -> u32
    ensures { result ≡ bearer_at doc.now node }
{
    match doc.parent(node) {
        None => node,
        Some(parent) => parent,
    }
}

// The entry of an element with these records.
fn entry_of(doc: &DocTree, node: u32, governing: Governing, judged: Judged) -> ElementEntry
    ensures { result ≡ record { number = node; bearer = bearer_at doc.now node; below = 0; governing = governing; element = judged.element; value = judged.value; attrs = judged.attrs; attr_values = judged.attr_values } }
{
    let Judged {
        element,
        value,
        attrs,
        attr_values,
    } = judged;
    ElementEntry {
        number: node,
        bearer: bearer_of(doc, node),
        below: 0,
        governing,
        element,
        value,
        attrs,
        attr_values,
    }
}

// What an element has to show.
fn shape_of(
    doc: &DocTree,
    kept: &KeptState,
    node: u32,
    text: &Text,
    children: &KeptChildren,
) -> Result<ElementShape, AllocError>
    requires element { is_element_at doc.now node ≡ true }
    requires text { text.now ≡ own_chars doc.now node }
    ensures { IfOk result (λ shape. (s : SchemaSet) → shape ≡ shape_with s doc.now kept.now node children.now) }
{
    let ElementHead { name, attrs, scope } = head_of(kept.alloc, doc, node)?;
    Ok(ElementShape {
        name,
        attrs,
        scope,
        text: text.try_clone()?,
        stuck: children.stuck,
        counts: children.counts,
        identity: kept.identity_codes(node)?,
        ids: kept.ids_at(node)?,
    })
}

// The entry of an element by what governs it and what it has to show (Structures 3.3.4, 3.3.5, 3.4.4).
fn judged(
    doc: &DocTree,
    set: &mut Compiled,
    kept: &KeptState,
    element: &Governed,
    shape: &ElementShape,
) -> Result<ElementEntry, AllocError>
    requires usable { IsUsable set.old }
    requires governed { CanGovern set.old.parts element.now.pair }
    requires known { AreKnown set.old.names shape.now.scope }
    requires named { All (λ a. a.name < length set.old.names.names) shape.now.attrs }
    ensures judged { IfOk result (λ entry. AreJudged (set_of set.old) shape.now (entries.entry_of entry)) }
    ensures number { IfOk result (λ entry. entry.number ≡ element.now.node) }
    ensures bearer { IfOk result (λ entry. entry.bearer ≡ bearer_at doc.now element.now.node) }
    ensures governing { IfOk result (λ entry. entry.governing ≡ element.now.pair) }
    ensures same { set.new ≡ set.old }
{
    let view = SchemaView {
        names: &set.names,
        parts: &set.parts,
        declarations: &set.declarations,
        named: &set.named,
    };
    let ground = AssessSet {
        view,
        tables: &set.attr_uses,
        known: &set.known_uses,
        contents: &set.contents,
    };
    let judged = local(kept.alloc, &ground, &mut set.types, &element.pair, shape)?;
    Ok(entry_of(doc, element.node, element.pair, judged))
}

/// Judges an element by what is kept of it, and writes what is found out about it.
///
/// # Errors
///
/// `AllocError` is want of memory, or there are too many codes.
pub fn judge(
    doc: &DocTree,
    set: &mut Compiled,
    kept: &mut KeptState,
    element: &Governed,
) -> Result<(), AllocError>
    requires beside { IsBeside set.old doc.now kept.old }
    requires made { IsMade kept.old.records.slots element.now.node }
    requires governed { CanGovern set.old.parts element.now.pair }
    requires text { (kept_at kept.old.records.slots element.now.node).text ≡ own_chars doc.now element.now.node }
    ensures judged { OnOk result (IsJudgedAnew set.old doc.now kept.old kept.new element.now.node element.now.pair (children_at kept.old.records.slots element.now.node)) }
    ensures beside { OnOk result (IsBeside set.old doc.now kept.new) }
    ensures same { set.new ≡ set.old }
{
    let node = element.node;
    let children = kept.children(node);
    let shape = shape_of(doc, kept, node, &kept.at(node).text, &children)?;
    let found = judged(doc, set, kept, element, &shape)?;
    kept.records.set_found(node, found)
}

/// Judges an element, where what is kept of its child elements was this and its records may differ by that.
///
/// # Errors
///
/// As those of `judge`.
pub fn judge_if_apart(
    doc: &DocTree,
    set: &mut Compiled,
    kept: &mut KeptState,
    node: u32,
    was: &KeptChildren,
) -> Result<(), AllocError>
    requires beside { IsBeside set.old doc.now kept.old }
    requires made { IsMade kept.old.records.slots node }
    requires was { IsJudgedBy (set_of set.old) doc.now kept.old node was.now }
    ensures judged { OnOk result (IsJudgedAnew set.old doc.now kept.old kept.new node (pair_at kept.old.records.slots node) (children_at kept.old.records.slots node)) }
    ensures beside { OnOk result (IsBeside set.old doc.now kept.new) }
    ensures same { set.new ≡ set.old }
{
    if !kept.children(node).tell_apart(was) {
        return Ok(());
    }
    let pair = kept.pair(node);
    judge(doc, set, kept, &Governed { node, pair })
}

/// Keeps an element that is governed so and has such child elements, with its records.
///
/// # Errors
///
/// As those of `judge`.
pub fn keep_judged(
    doc: &DocTree,
    set: &mut Compiled,
    kept: &mut KeptState,
    element: &Governed,
    children: KeptChildren,
) -> Result<(), AllocError>
    requires beside { IsBeside set.old doc.now kept.old }
    requires element { is_element_at doc.now element.now.node ≡ true }
    requires governed { CanGovern set.old.parts element.now.pair }
    requires list { IsFreeFor kept.old.lists kept.old.records.slots element.now.node children.list }
    ensures judged { OnOk result (IsJudgedAnew set.old doc.now kept.old kept.new element.now.node element.now.pair children) }
    ensures beside { OnOk result (IsBeside set.old doc.now kept.new) }
    ensures same { set.new ≡ set.old }
{
    let node = element.node;
    let text = doc.text_of(node)?;
    let identity = kept.identity_codes(node)?;
    let shape = shape_of(doc, kept, node, &text, &children)?;
    let found = judged(doc, set, kept, element, &shape)?;
    let element = KeptElement {
        found,
        text,
        stuck: children.stuck,
        counts: children.counts,
        list: children.list,
        identity,
    };
    kept.put(node, element)
}
