//! What governs an element of a document.

ghost use Rattle.std.specs.Prelude.{◌≡◌, true, IfOk};
ghost use Rattle.tree_rows.specs.Forest.{Document};
ghost use Rattle.compiled_schema.specs.Usable.{IsUsable, set_of};
ghost use Rattle.doc_nodes.specs.Nodes.{is_element_at};
ghost use Rattle.doc_changes.specs.Stands.{StandsFor};
ghost use Rattle.kept_state.specs.from_kept_records.Fit.{head_at};
ghost use Rattle.kept_state.specs.Kept.{CanGovern};
ghost use Rattle.kept_judging.specs.Judged.{root_pair, given_pair, again_pair};

use crate::view::{head_of, local_type, view_of};
use compiled_schema::Compiled;
use doc_readers::untyped_name;
use doc_tree::DocTree;
use elem_governing::{Governing, govern_child, govern_root, govern_untyped_child, regovern};
use kept_state::Governed;
use std::alloc::{AllocError, Global};
use xs_components::TermId;

/// The root with what governs it (Structures 3.3.4, 5.2).
///
/// # Errors
///
/// `AllocError` is want of memory.
pub fn pair_of_root(alloc: Global, doc: &DocTree, set: &Compiled) -> Result<Governed, AllocError>
    requires usable { IsUsable set.now }
    requires stands { (d : Document) × StandsFor set.now.names doc.now d }
    ensures node { IfOk result (λ root. root.node ≡ 1) }
    ensures pair { IfOk result (λ root. root.pair ≡ root_pair (set_of set.now) (head_at (set_of set.now) doc.now 1)) }
    ensures governed { IfOk result (λ root. CanGovern set.now.parts root.pair) }
{
    let head = head_of(alloc, doc, 1)?;
    let xsi = local_type(set, &head);
    let pair = govern_root(alloc, &view_of(set), head.name, xsi, &head.scope)?;
    Ok(Governed { node: 1, pair })
}

/// A child element with what governs it, by what governs its parent and by the term that it is attributed to (Structures 3.3.4, 3.4.4,
/// 3.10.1).
///
/// # Errors
///
/// `AllocError` is want of memory.
pub fn pair_below(
    alloc: Global,
    doc: &DocTree,
    set: &Compiled,
    parent: Governing,
    child: (u32, Option<TermId>),
) -> Result<Governed, AllocError>
    requires usable { IsUsable set.now }
    requires stands { (d : Document) × StandsFor set.now.names doc.now d }
    requires element { is_element_at doc.now child.0 ≡ true }
    ensures node { IfOk result (λ it. it.node ≡ child.0) }
    ensures pair { IfOk result (λ it. it.pair ≡ given_pair (set_of set.now) parent child.1 (head_at (set_of set.now) doc.now child.0)) }
    ensures governed { IfOk result (λ it. CanGovern set.now.parts it.pair) }
{
    match untyped_name(&set.names, doc, child.0) {
        Some(name) => {
            let pair = govern_untyped_child(&view_of(set), parent, child.1, name);
            Ok(Governed {
                node: child.0,
                pair,
            })
        }
        None => pair_by_head(alloc, doc, set, parent, child),
    }
}

// The same by the child's head.
fn pair_by_head(
    alloc: Global,
    doc: &DocTree,
    set: &Compiled,
    parent: Governing,
    child: (u32, Option<TermId>),
) -> Result<Governed, AllocError>
    requires usable { IsUsable set.now }
    requires stands { (d : Document) × StandsFor set.now.names doc.now d }
    requires element { is_element_at doc.now child.0 ≡ true }
    ensures node { IfOk result (λ it. it.node ≡ child.0) }
    ensures pair { IfOk result (λ it. it.pair ≡ given_pair (set_of set.now) parent child.1 (head_at (set_of set.now) doc.now child.0)) }
    ensures governed { IfOk result (λ it. CanGovern set.now.parts it.pair) }
{
    let (node, term) = child;
    let head = head_of(alloc, doc, node)?;
    let xsi = local_type(set, &head);
    let view = view_of(set);
    let pair = govern_child(alloc, &view, parent, term, head.name, xsi, &head.scope)?;
    Ok(Governed { node, pair })
}

/// An element that was governed so, with what governs it by its attribute xsi:type as it is now.
///
/// # Errors
///
/// `AllocError` is want of memory.
pub fn pair_again(
    alloc: Global,
    doc: &DocTree,
    set: &Compiled,
    was: Governed,
) -> Result<Governed, AllocError>
    requires usable { IsUsable set.now }
    requires stands { (d : Document) × StandsFor set.now.names doc.now d }
    requires element { is_element_at doc.now was.node ≡ true }
    ensures node { IfOk result (λ it. it.node ≡ was.node) }
    ensures pair { IfOk result (λ it. it.pair ≡ again_pair (set_of set.now) was.pair (head_at (set_of set.now) doc.now was.node)) }
{
    let head = head_of(alloc, doc, was.node)?;
    let xsi = local_type(set, &head);
    let pair = regovern(alloc, &view_of(set), was.pair, xsi, &head.scope)?;
    Ok(Governed {
        node: was.node,
        pair,
    })
}
