//! Edits turned into changes.

ghost use Rattle.std.specs.Prelude.{◌≡◌, ◌≢◌, true, Some, Err, IfOk, IfErr};
ghost use Rattle.xs_names.specs.Names.{NameTable, Grown, IsSound};
ghost use Rattle.tree_rows.specs.Forest.{Document};
ghost use Rattle.tree_rows.specs.Whole.{IsNamespace};
ghost use Rattle.tree_rows.specs.declared.row.NodeKind.TheVariants as kinds;
ghost use Rattle.tree_building.specs.Blocks.{one_element};
ghost use Rattle.tree_edits.specs.Edits.{can_be_made};
ghost use Rattle.tree_edits.specs.Refusals.{IsWhy};
ghost use Rattle.tree_edits.specs.Tests.{edited, is_full};
ghost use Rattle.tree_edits.specs.declared.edit.Edit.TheVariants as edits;
ghost use Rattle.tree_edits.specs.declared.edit.EditError.TheVariants.{Memory, TooManyAttributes};
ghost use Rattle.doc_changes.specs.Stands.{StandsFor};
ghost use Rattle.doc_changes.specs.Held.{kind_at};
ghost use Rattle.doc_edits.specs.Changes.{IsPrepared, IsRefused};
ghost use Rattle.doc_edits.specs.inside.Tested.{IsPart, IsSettable};

use crate::blocks::block_part;
use crate::change::Change;
use crate::names::{attribute_named, element_named, find_name, one_more, scope_inside};
use crate::places::{child_here, element_here, fit, place_here, text_here};
use doc_tree::DocTree;
use item_listing::Item;
use plain_tree::{Tree, add_name, add_names};
use std::alloc::Global;
use tree_edits::{Edit, EditError};
use tree_rows::Expanded;
use xs_names::{NameId, Names, Text};

/// The element of a block as a tree of its own, where it may be put before the child of a place.
fn insertable(
    alloc: Global,
    doc: &DocTree,
    names: &Names,
    parent: u32,
    index: u32,
    items: &[Item],
) -> Result<Tree, EditError>
    requires stands { (d : Document) × StandsFor names.now doc.now d }
    requires one { one_element items.now ≡ true }
    ensures ok { IfOk result (λ part. (d : Document) → StandsFor names.now doc.now d → IsPart d parent index items.now part) }
    ensures err { IfErr result (λ e. (d : Document) → StandsFor names.now doc.now d → IsWhy (edited d (edits.Insert parent index items.now)) e) }
{
    place_here(doc, parent, index)?;
    let scope = scope_inside(alloc, doc, names, parent)?;
    block_part(alloc, doc, parent, &scope, items)
}

/// The insertion of a block's element.
fn prepare_insert(
    alloc: Global,
    doc: &DocTree,
    names: &mut Names,
    parent: u32,
    index: u32,
    items: &[Item],
) -> Result<Change, EditError>
    requires stands { (d : Document) × StandsFor names.old doc.now d }
    requires one { one_element items.now ≡ true }
    ensures ok { IfOk result (λ change. (d : Document) → StandsFor names.old doc.now d → IsPrepared names.old names.new doc.now d (edits.Insert parent index items.now) change) }
    ensures err { IfErr result (λ e. IsRefused names.old names.new doc.now (edits.Insert parent index items.now) e) }
    ensures grown { Grown names.old names.new }
    ensures sound { IsSound names.new }
{
    let part = insertable(alloc, doc, names, parent, index, items)?;
    add_names(names, &part)?;
    Ok(Change::Insert {
        parent,
        index,
        part,
    })
}

/// The insertion of a text.
fn prepare_text(doc: &DocTree, parent: u32, index: u32, text: &Text) -> Result<Change, EditError>
    requires stands { (t : NameTable) × (d : Document) × StandsFor t doc.now d }
    ensures ok { IfOk result (λ change. (t : NameTable) (d : Document) → StandsFor t doc.now d → IsPrepared t t doc.now d (edits.AddText parent index text.now) change) }
    ensures err { IfErr result (λ e. (t : NameTable) (d : Document) → StandsFor t doc.now d → IsWhy (edited d (edits.AddText parent index text.now)) e) }
{
    place_here(doc, parent, index)?;
    fit(doc, parent, 1, 0)?;
    let text = text.try_clone()?;
    Ok(Change::AddText {
        parent,
        index,
        text,
    })
}

/// Other characters of a text.
fn prepare_chars(doc: &DocTree, node: u32, text: &Text) -> Result<Change, EditError>
    ensures ok { IfOk result (λ change. (t : NameTable) (d : Document) → StandsFor t doc.now d → IsPrepared t t doc.now d (edits.SetText node text.now) change) }
    ensures err { IfErr result (λ e. (t : NameTable) (d : Document) → StandsFor t doc.now d → IsWhy (edited d (edits.SetText node text.now)) e) }
{
    text_here(doc, node)?;
    let text = text.try_clone()?;
    Ok(Change::SetText { node, text })
}

/// The removal of a node.
fn prepare_removal(doc: &DocTree, node: u32) -> Result<Change, EditError>
    ensures ok { IfOk result (λ change. (t : NameTable) (d : Document) → StandsFor t doc.now d → IsPrepared t t doc.now d (edits.Remove node) change) }
    ensures err { IfErr result (λ e. (t : NameTable) (d : Document) → StandsFor t doc.now d → edited d (edits.Remove node) ≡ Err e) }
{
    child_here(doc, node)?;
    Ok(Change::Remove { node })
}

/// Another name of an element.
fn prepare_name(
    alloc: Global,
    doc: &DocTree,
    names: &mut Names,
    node: u32,
    name: &Text,
) -> Result<Change, EditError>
    requires stands { (d : Document) × StandsFor names.old doc.now d }
    ensures ok { IfOk result (λ change. (d : Document) → StandsFor names.old doc.now d → IsPrepared names.old names.new doc.now d (edits.Rename node name.now) change) }
    ensures err { IfErr result (λ e. IsRefused names.old names.new doc.now (edits.Rename node name.now) e) }
    ensures grown { Grown names.old names.new }
    ensures sound { IsSound names.new }
{
    element_here(doc, node)?;
    let own = element_named(alloc, doc, names, node, name)?;
    let name = add_name(names, &own)?;
    Ok(Change::Rename { node, name })
}

/// A name's number, for an attribute that an element has already or may have one more of.
fn settable(
    doc: &DocTree,
    names: &mut Names,
    node: u32,
    own: &Expanded,
) -> Result<NameId, EditError>
    requires stands { (d : Document) × StandsFor names.old doc.now d }
    requires element { kind_at doc.now node ≡ Some kinds.Element }
    requires namespace { IsNamespace own.now.namespace }
    ensures ok { IfOk result (λ name. (d : Document) → StandsFor names.old doc.now d → IsSettable names.old names.new doc.now d node own.now name) }
    ensures err { IfErr result (λ e. e ≢ Memory → (names.new ≡ names.old) × (e ≡ TooManyAttributes) × ((d : Document) → StandsFor names.old doc.now d → is_full d node own.now ≡ true)) }
    ensures grown { Grown names.old names.new }
    ensures sound { IsSound names.new }
{
    match find_name(doc, names, node, own) {
        Some(name) => Ok(name),
        None => {
            one_more(doc, node)?;
            let name = add_name(names, own)?;
            Ok(name)
        }
    }
}

/// A value of an attribute.
fn prepare_value(
    alloc: Global,
    doc: &DocTree,
    names: &mut Names,
    node: u32,
    name: &Text,
    value: &Text,
) -> Result<Change, EditError>
    requires stands { (d : Document) × StandsFor names.old doc.now d }
    ensures ok { IfOk result (λ change. (d : Document) → StandsFor names.old doc.now d → IsPrepared names.old names.new doc.now d (edits.SetAttr node name.now value.now) change) }
    ensures err { IfErr result (λ e. IsRefused names.old names.new doc.now (edits.SetAttr node name.now value.now) e) }
    ensures grown { Grown names.old names.new }
    ensures sound { IsSound names.new }
{
    element_here(doc, node)?;
    let own = attribute_named(alloc, doc, names, node, name)?;
    let value = value.try_clone()?;
    let name = settable(doc, names, node, &own)?;
    Ok(Change::SetAttr { node, name, value })
}

/// An attribute that goes.
fn prepare_unset(
    alloc: Global,
    doc: &DocTree,
    names: &Names,
    node: u32,
    name: &Text,
) -> Result<Change, EditError>
    requires stands { (d : Document) × StandsFor names.now doc.now d }
    ensures ok { IfOk result (λ change. (d : Document) → StandsFor names.now doc.now d → IsPrepared names.now names.now doc.now d (edits.UnsetAttr node name.now) change) }
    ensures err { IfErr result (λ e. (d : Document) → StandsFor names.now doc.now d → IsWhy (edited d (edits.UnsetAttr node name.now)) e) }
{
    element_here(doc, node)?;
    let own = attribute_named(alloc, doc, names, node, name)?;
    match find_name(doc, names, node, &own) {
        Some(name) => Ok(Change::UnsetAttr { node, name }),
        None => Err(EditError::NoSuchAttribute),
    }
}

/// The change that an edit is, once no test of it stands. The names that it brings are put into the table.
///
/// # Errors
///
/// The refusal of the first of the edit's tests that stands, in the order of the numbers; no name was then added. Or
/// `EditError::Memory`, which is want of memory; names may then have been added.
pub fn prepare(
    alloc: Global,
    doc: &DocTree,
    names: &mut Names,
    edit: &Edit,
) -> Result<Change, EditError>
    requires stands { (d : Document) × StandsFor names.old doc.now d }
    requires block { can_be_made edit.now ≡ true }
    ensures ok { IfOk result (λ change. (d : Document) → StandsFor names.old doc.now d → IsPrepared names.old names.new doc.now d edit.now change) }
    ensures err { IfErr result (λ e. IsRefused names.old names.new doc.now edit.now e) }
    ensures grown { Grown names.old names.new }
    ensures sound { IsSound names.new }
{
    match edit {
        Edit::Insert {
            parent,
            index,
            items,
        } => prepare_insert(alloc, doc, names, *parent, *index, items.as_slice()),
        Edit::AddText {
            parent,
            index,
            text,
        } => prepare_text(doc, *parent, *index, text),
        Edit::SetText { node, text } => prepare_chars(doc, *node, text),
        Edit::Remove { node } => prepare_removal(doc, *node),
        Edit::Rename { node, name } => prepare_name(alloc, doc, names, *node, name),
        Edit::SetAttr { node, name, value } => {
            prepare_value(alloc, doc, names, *node, name, value)
        }
        Edit::UnsetAttr { node, name } => prepare_unset(alloc, doc, names, *node, name),
    }
}
