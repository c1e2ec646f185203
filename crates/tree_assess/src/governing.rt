//! What governs an element, and where its child elements get stuck in its content model.

ghost use Rattle.std.specs.Prelude.{◌≡◌, ◌<◌, ◌∷◌, ◌++◌, [], All, length, IfOk, OnOk};
ghost use Rattle.std.specs.Option.{option_map};
ghost use Rattle.elem_governing.specs.View.{AreKnown};
ghost use Rattle.compiled_schema.specs.Usable.{IsUsable, set_of};
ghost use Rattle.plain_tree.specs.Found.{HasTag};
ghost use Rattle.assess_records.specs.Numbered.{head_of as head_in, heads, names_of};
ghost use Rattle.assessment.specs.Attribution.{content_particle, AreTerms};
ghost use Rattle.assessment.specs.Assessment.{governed};
ghost use Rattle.elem_governing.specs.Heads.{head_by};
ghost use Rattle.tree_assess.specs.inside.Steps.{CanAssess, IsThere, AreInner, pair_of, root_pair_of, pairs_in};

use crate::entry::{ElementEntry, begun};
use assess_records::{InstanceAttribute, instance_text};
use assessment::{ChildTerms, child_terms};
use compiled_schema::Compiled;
use elem_governing::{
    ElementHead, Governing, SchemaView, child_names, govern_child, govern_root, read_head,
};
use std::alloc::{AllocError, Global};
use tree_rows::{Content, Expanded, Row, Sibling, Siblings};
use xs_components::TermId;
use xs_names::{Scope, Text};

/// Where the child elements of an element get stuck, and their entries, begun: it is known what governs each of them.
#[derive(Drop)]
pub(crate) struct Inner {
    pub stuck: Option<u32>,
    pub begun: Vec<ElementEntry>,
}

/// What governing is read off.
pub(crate) fn view_of(compiled: &Compiled) -> SchemaView<'_>
    ensures names { result.names.now ≡ compiled.now.names }
    ensures parts { result.parts.now ≡ compiled.now.parts }
    ensures declarations { result.declarations.now ≡ compiled.now.declarations }
    ensures named { result.named.now ≡ compiled.now.named }
{
    SchemaView {
        names: &compiled.names,
        parts: &compiled.parts,
        declarations: &compiled.declarations,
        named: &compiled.named,
    }
}

// The text of the attribute xsi:type (Structures 2.6.1).
fn local_type<'a>(compiled: &Compiled, head: &'a ElementHead) -> Option<&'a Text>
    requires named { All (λ a. a.name < length compiled.now.names.names) head.now.attrs }
    ensures { option_map (λ t. t.now) result ≡ (head_by compiled.now.names head.now).xsi }
{
    let attrs = head.attrs.as_slice();
    instance_text(&compiled.names, attrs, InstanceAttribute::TypeName)
}

/// What governs the root of a document with this head (Structures 3.3.4, 5.2).
pub(crate) fn root_pair(
    alloc: Global,
    compiled: &Compiled,
    head: &ElementHead,
) -> Result<Governing, AllocError>
    requires usable { IsUsable compiled.now }
    requires known { AreKnown compiled.now.names head.now.scope }
    requires named { All (λ a. a.name < length compiled.now.names.names) head.now.attrs }
    ensures pair { IfOk result (λ pair. pair ≡ root_pair_of (set_of compiled.now) (head_by compiled.now.names head.now)) }
    ensures there { IfOk result (IsThere compiled.now.parts) }
{
    let xsi = local_type(compiled, head);
    govern_root(alloc, &view_of(compiled), head.name, xsi, &head.scope)
}

// What governs a child with this head, by the term that it is attributed to.
fn child_pair(
    alloc: Global,
    compiled: &Compiled,
    parent: &Governing,
    term: Option<TermId>,
    head: &ElementHead,
) -> Result<Governing, AllocError>
    requires usable { IsUsable compiled.now }
    requires known { AreKnown compiled.now.names head.now.scope }
    requires named { All (λ a. a.name < length compiled.now.names.names) head.now.attrs }
    ensures pair { IfOk result (λ pair. pair ≡ pair_of (set_of compiled.now) parent.now term (head_by compiled.now.names head.now)) }
{
    let xsi = local_type(compiled, head);
    let view = view_of(compiled);
    govern_child(alloc, &view, *parent, term, head.name, xsi, &head.scope)
}

// The entry of a child of this name and row, begun.
fn begin_child(
    alloc: Global,
    compiled: &mut Compiled,
    parent: &Governing,
    term: Option<TermId>,
    outer: &Scope,
    name: &Expanded,
    row: &Row,
) -> Result<ElementEntry, AllocError>
    requires usable { IsUsable compiled.old }
    requires known { AreKnown compiled.old.names outer.now }
    requires names { HasTag compiled.old.names name.now row.now.bindings row.now.attributes }
    ensures pair { IfOk result (λ entry. entry.governing ≡ pair_of (set_of compiled.old) parent.now term (head_in compiled.old.names outer.now name.now row.now.bindings row.now.attributes)) }
    ensures same { compiled.new ≡ compiled.old }
{
    let head = read_head(alloc, &mut compiled.names, outer, name, row)?;
    let governing = child_pair(alloc, compiled, parent, term, &head)?;
    Ok(begun(alloc, row.number, governing, head.name))
}

// Begins the entry of a child of this name and row, behind those that are there.
fn add_child(
    alloc: Global,
    compiled: &mut Compiled,
    parent: &Governing,
    term: Option<TermId>,
    outer: &Scope,
    name: &Expanded,
    row: &Row,
    entries: &mut Vec<ElementEntry>,
) -> Result<(), AllocError>
    requires usable { IsUsable compiled.old }
    requires known { AreKnown compiled.old.names outer.now }
    requires names { HasTag compiled.old.names name.now row.now.bindings row.now.attributes }
    ensures pair { OnOk result (pairs_in entries.new.items ≡ pairs_in entries.old.items ++ pair_of (set_of compiled.old) parent.now term (head_in compiled.old.names outer.now name.now row.now.bindings row.now.attributes) ∷ []) }
    ensures same { compiled.new ≡ compiled.old }
{
    let entry = begin_child(alloc, compiled, parent, term, outer, name, row)?;
    entries.push(entry)?;
    Ok(())
}

// The entries of child elements, begun: what governs each is found by its term.
fn begin_children(
    alloc: Global,
    compiled: &mut Compiled,
    parent: &Governing,
    scope: &Scope,
    children: &Siblings<'_>,
    terms: &[Option<TermId>],
) -> Result<Vec<ElementEntry>, AllocError>
    requires can { CanAssess compiled.old scope.now children.now }
    requires each { length terms.now ≡ length (heads compiled.old.names scope.now children.now) }
    ensures pairs { IfOk result (λ entries. pairs_in entries.items ≡ governed (set_of compiled.old) parent.now terms.now (heads compiled.old.names scope.now children.now)) }
    ensures same { compiled.new ≡ compiled.old }
{
    let mut entries = Vec::new(alloc);
    let mut left = children.again();
    'left: while let Some(Sibling { row, next, .. }) = left.first() {
        if let Content::Element(name) = &row.content {
            let place = entries.len();
            let term = terms[place];
            add_child(
                alloc,
                compiled,
                parent,
                term,
                scope,
                name,
                row,
                &mut entries,
            )?;
        }
        left = next;
    }
    Ok(entries)
}

// The terms that child elements are attributed to, all at once by their names, and where they get stuck.
fn attributed(
    alloc: Global,
    compiled: &mut Compiled,
    parent: &Governing,
    scope: &Scope,
    children: &Siblings<'_>,
) -> Result<ChildTerms, AllocError>
    requires can { CanAssess compiled.old scope.now children.now }
    ensures terms { IfOk result (λ found. AreTerms (set_of compiled.old) (content_particle compiled.old.parts parent.now.of) (names_of (heads compiled.old.names scope.now children.now)) found.stuck found.terms.items) }
    ensures same { compiled.new ≡ compiled.old }
{
    let names = child_names(alloc, &mut compiled.names, children)?;
    let model = compiled.model(&parent.of);
    child_terms(alloc, &compiled.names, model, &names)
}

/// Where the child elements of an element get stuck, and what governs them, by what governs the element and in its scope
/// (Structures 3.4.4, 3.10.1).
pub(crate) fn govern_inner(
    alloc: Global,
    compiled: &mut Compiled,
    parent: &Governing,
    scope: &Scope,
    children: &Siblings<'_>,
) -> Result<Inner, AllocError>
    requires can { CanAssess compiled.old scope.now children.now }
    ensures inner { IfOk result (λ inner. AreInner (set_of compiled.old) parent.now scope.now children.now inner.stuck (pairs_in inner.begun.items)) }
    ensures same { compiled.new ≡ compiled.old }
{
    let found = attributed(alloc, compiled, parent, scope, children)?;
    let begun = begin_children(alloc, compiled, parent, scope, children, &found.terms)?;
    Ok(Inner {
        stuck: found.stuck,
        begun,
    })
}
