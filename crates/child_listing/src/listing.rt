//! The child elements of an element that is governed anew, listed and attributed.

ghost use Rattle.std.specs.Prelude.{◌≡◌, ◌≤◌, ◌+◌, ◌*◌, ◌^◌, ◌<◌, ℕ, All, Some, None, true, map, length, slice_get, slice_index_or, IfOk};
ghost use Rattle.tree_rows.specs.Forest.{Document};
ghost use Rattle.content_automaton.specs.Symbols.{AreNamesOf};
ghost use Rattle.content_models.specs.Built.{symbols_of};
ghost use Rattle.compiled_schema.specs.Usable.{IsUsable, set_of};
ghost use Rattle.model_terms.specs.Symbols.{AreSymbolsBy, child_symbols};
ghost use Rattle.model_lists.specs.Lists.{KeepLists};
ghost use Rattle.doc_nodes.specs.Nodes.{element_children, is_element_at};
ghost use Rattle.doc_changes.specs.Stands.{StandsFor};
ghost use Rattle.doc_changes.specs.Readers.{name_at};
ghost use Rattle.kept_judging.specs.from_kept_records.Fit.{models_of, head_at};
ghost use Rattle.kept_judging.specs.from_kept_state.Kept.{CanGovern, IsBeside};
ghost use Rattle.kept_judging.specs.from_kept_state.Governed.{Governed as GovernedData};
ghost use Rattle.kept_judging.specs.Judged.{given_pair};
ghost use Rattle.child_listing.specs.Children.{AreListed, IsListing};

use child_terms::{Attribution, attribute, attribute_none};
use compiled_schema::Compiled;
use content_models::ContentAutomaton;
use doc_tree::DocTree;
use elem_governing::{Governing, Mode};
use kept_judging::kept_records::model_of;
use kept_judging::kept_state::{Governed, KeptState};
use kept_judging::pair_below;
use model_lists::{ModelList, ModelLists};
use std::alloc::{AllocError, Global};
use xs_components::{ElementId, TermId, TypeId};
use xs_names::{NameId, Names};
use xsv_steps::{Ledger, Steps};

/// The child elements of an element: their list, where its type has a content model, the place where they get stuck, and what governs
/// each.
#[derive(Drop)]
pub struct Listing {
    pub list: Option<ModelList>,
    pub stuck: Option<u32>,
    pub children: Vec<Governed>,
}

// The child elements of an element, in order, with the numbers of their names.
fn elements_below(alloc: Global, doc: &DocTree, node: u32) -> Result<Vec<(u32, NameId)>, AllocError>
    ensures { IfOk result (λ found. found.items ≡ map (λ child. (child, name_at doc.now child)) (element_children doc.now node)) }
{
    if doc.element_at(node, 0).is_none() {
        return Ok(Vec::new(alloc));
    }
    let children = doc.children(node)?;
    let mut found = Vec::with_capacity(alloc, children.len())?;
    for child in &children {
        if let Some(name) = doc.name(*child) {
            found.push((*child, name))?;
        }
    }
    Ok(found)
}

// The symbols of the names of child elements.
fn symbols_below(
    alloc: Global,
    automaton: &ContentAutomaton,
    names: &Names,
    elements: &[(u32, NameId)],
) -> Result<Vec<u32>, AllocError>
    requires names { All (λ e. e.1 < length names.now.names) elements.now }
    requires within { AreNamesOf names.now (symbols_of automaton.now).names }
    ensures { IfOk result (λ symbols. symbols.items ≡ child_symbols names.now (Some automaton.now) (map (λ e. e.1) elements.now)) }
{
    let mut symbols = Vec::with_capacity(alloc, elements.len())?;
    for element in elements {
        symbols.push(automaton.symbol(names, element.1))?;
    }
    Ok(symbols)
}

// Makes the list of child elements with these symbols, and attributes them.
fn list_by<L: Ledger>(
    alloc: Global,
    lists: &mut ModelLists,
    automaton: &ContentAutomaton,
    symbols: &[u32],
    steps: &mut Steps<L>,
) -> Result<(Option<ModelList>, Attribution), AllocError>
    requires symbols { AreSymbolsBy automaton.now symbols.now }
    requires few { length symbols.now < 2 ^ 32 }
    ensures listed { IfOk result (λ r. AreListed lists.old lists.new (Some automaton.now) symbols.now r.0 r.1) }
    ensures others { KeepLists lists.old lists.new (λ _. ⊥) }
    ensures least { steps.old ≤ steps.new }
    ensures steps { steps.new ≤ steps.old + 3 * length symbols.now }
{
    let list = lists.make(automaton, symbols, steps)?;
    let found = attribute(alloc, automaton, symbols, steps)?;
    Ok((Some(list), found))
}

// The list of the child elements of an element of a type, if this has a content model, and their attribution.
fn attribute_below<L: Ledger>(
    set: &Compiled,
    kept: &mut KeptState,
    of: Option<TypeId>,
    elements: &[(u32, NameId)],
    steps: &mut Steps<L>,
) -> Result<(Option<ModelList>, Attribution), AllocError>
    requires usable { IsUsable set.now }
    requires names { All (λ e. e.1 < length set.now.names.names) elements.now }
    requires few { length elements.now < 2 ^ 32 }
    ensures listed { IfOk result (λ r. AreListed kept.old.lists kept.new.lists (models_of set.now of) (child_symbols set.now.names (models_of set.now of) (map (λ e. e.1) elements.now)) r.0 r.1) }
    ensures others { KeepLists kept.old.lists kept.new.lists (λ _. ⊥) }
    ensures rest { kept.new ≡ record kept.old { lists = kept.new.lists } }
    ensures least { steps.old ≤ steps.new }
    ensures steps { steps.new ≤ steps.old + 3 * length elements.now }
{
    let Some(automaton) = model_of(set, of) else {
        return Ok((None, attribute_none(kept.alloc, elements.len())?));
    };
    let symbols = symbols_below(kept.alloc, automaton, &set.names, elements)?;
    let lists = &mut kept.lists;
    list_by(kept.alloc, lists, automaton, symbols.as_slice(), steps)
}

// What governs a child element, by what governs its parent and by its term.
fn pair_of_child(
    alloc: Global,
    doc: &DocTree,
    set: &Compiled,
    parent: &Governing,
    child: (u32, Option<TermId>),
) -> Result<Governed, AllocError>
    requires usable { IsUsable set.now }
    requires stands { (d : Document) × StandsFor set.now.names doc.now d }
    requires element { is_element_at doc.now child.0 ≡ true }
    ensures node { IfOk result (λ it. it.node ≡ child.0) }
    ensures pair { IfOk result (λ it. it.pair ≡ given_pair (set_of set.now) parent.now child.1 (head_at (set_of set.now) doc.now child.0)) }
    ensures governed { IfOk result (λ it. CanGovern set.now.parts it.pair) }
{
    pair_below(alloc, doc, set, *parent, child)
}

// What governs child elements with these terms, by what governs their parent.
fn pairs_below(
    alloc: Global,
    doc: &DocTree,
    set: &Compiled,
    parent: &Governing,
    children: (&[(u32, NameId)], &[Option<TermId>]),
) -> Result<Vec<Governed>, AllocError>
    requires usable { IsUsable set.now }
    requires stands { (d : Document) × StandsFor set.now.names doc.now d }
    requires elements { All (λ e. is_element_at doc.now e.0 ≡ true) children.0.now }
    requires each { length children.1.now ≡ length children.0.now }
    ensures nodes { IfOk result (λ pairs. map (λ child. child.node) pairs.items ≡ map (λ e. e.0) children.entry.0.now) }
    ensures pairs { IfOk result (λ pairs. (place : ℕ) (child : GovernedData) → slice_get pairs.items place ≡ Some child →
        child.pair ≡ given_pair (set_of set.now) parent.now (slice_index_or children.entry.1.now place None) (head_at (set_of set.now) doc.now child.node)) }
    ensures governed { IfOk result (λ pairs. (place : ℕ) (child : GovernedData) → slice_get pairs.items place ≡ Some child → CanGovern set.now.parts child.pair) }
{
    let (elements, terms) = children;
    // (each type that the parent's pair holds is named here, since the loop keeps the pair)
    let _declaration: &Option<ElementId> = &parent.declaration;
    let _of: &Option<TypeId> = &parent.of;
    let _mode: &Mode = &parent.mode;
    let mut pairs = Vec::with_capacity(alloc, elements.len())?;
    for (element, term) in elements.iter().zip(terms) {
        let child = pair_of_child(alloc, doc, set, parent, (element.0, *term))?;
        pairs.push(child)?;
    }
    Ok(pairs)
}

/// Lists the child elements of an element that is to be governed so. It takes at most three steps for each.
///
/// # Errors
///
/// `AllocError` is want of memory.
pub fn list_children<L: Ledger>(
    doc: &DocTree,
    set: &Compiled,
    kept: &mut KeptState,
    parent: &Governed,
    steps: &mut Steps<L>,
) -> Result<Listing, AllocError>
    requires beside { IsBeside set.now doc.now kept.old }
    ensures listing { IfOk result (IsListing set.now doc.now kept.old kept.new parent.now) }
    ensures others { KeepLists kept.old.lists kept.new.lists (λ _. ⊥) }
    ensures rest { kept.new ≡ record kept.old { lists = kept.new.lists } }
    ensures least { steps.old ≤ steps.new }
    ensures steps { steps.new ≤ steps.old + 3 * length (element_children doc.now parent.now.node) }
{
    let elements = elements_below(kept.alloc, doc, parent.node)?;
    let (list, found) = attribute_below(set, kept, parent.pair.of, elements.as_slice(), steps)?;
    let listed = (elements.as_slice(), found.terms.as_slice());
    let children = pairs_below(kept.alloc, doc, set, &parent.pair, listed)?;
    Ok(Listing {
        list,
        stuck: found.stuck,
        children,
    })
}
