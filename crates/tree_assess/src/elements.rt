//! An element by itself, before and after its child elements are assessed.

ghost use Rattle.std.specs.Prelude.{◌≡◌, ◌<◌, All, length, IfOk};
ghost use Rattle.xs_names.specs.Scope.{first_scope};
ghost use Rattle.elem_governing.specs.View.{AreKnown};
ghost use Rattle.compiled_schema.specs.Usable.{IsUsable, set_of};
ghost use Rattle.plain_tree.specs.Found.{HasTag};
ghost use Rattle.assess_records.specs.Numbered.{head_of as head_in};
ghost use Rattle.assessment.specs.Assessment.{AreJudged};
ghost use Rattle.tree_assess.specs.Entries.{entry_of};
ghost use Rattle.tree_assess.specs.inside.Steps.{CanAssess, IsThere, alone, root_pair_of};
ghost use Rattle.tree_assess.specs.inside.Entering.{IsEntered, shape_from};

use crate::ElementEntry;
use crate::governing::{Inner, govern_inner, root_pair};
use crate::judging::judge;
use assess_records::{ChildCounts, ElementShape};
use compiled_schema::Compiled;
use elem_governing::{ElementHead, Governing, read_head, text_of};
use std::alloc::{AllocError, Global};
use tree_rows::{Expanded, Row, Siblings};
use xs_lists::Listed;
use xs_names::{Scope, Text};

/// What is known of an element before its child elements are assessed.
#[derive(Drop)]
pub(crate) struct Entered {
    pub number: u32,
    /// The element that bears the IDs of its text.
    pub bearer: u32,
    pub head: ElementHead,
    pub text: Text,
    pub inner: Inner,
}

impl Entered {
    /// The scope in the element.
    pub(crate) fn scope(&self) -> &Scope
        ensures { result.now ≡ self.now.head.scope }
    {
        &self.head.scope
    }

    /// The entries of its child elements, begun.
    pub(crate) fn begun(&self) -> &[ElementEntry]
        ensures { result.now ≡ self.now.inner.begun.items }
    {
        self.inner.begun.as_slice()
    }
}

/// The root of a document, before it is assessed.
#[derive(Drop)]
pub(crate) struct Rooted {
    /// The scope outside of it.
    pub outer: Scope,
    /// What governs it.
    pub governing: Governing,
}

impl Rooted {
    /// The scope outside of the root.
    pub(crate) fn outer(&self) -> &Scope
        ensures { result.now ≡ self.now.outer }
    {
        &self.outer
    }

    /// What governs the root.
    pub(crate) fn governing(&self) -> &Governing
        ensures { result.now ≡ self.now.governing }
    {
        &self.governing
    }
}

// What governs the root of a document, by its name and row (Structures 3.3.4, 5.2).
fn govern_top(
    alloc: Global,
    compiled: &mut Compiled,
    scope: &Scope,
    name: &Expanded,
    row: &Row,
) -> Result<Governing, AllocError>
    requires usable { IsUsable compiled.old }
    requires known { AreKnown compiled.old.names scope.now }
    requires names { HasTag compiled.old.names name.now row.now.bindings row.now.attributes }
    ensures pair { IfOk result (λ pair. pair ≡ root_pair_of (set_of compiled.old) (head_in compiled.old.names scope.now name.now row.now.bindings row.now.attributes)) }
    ensures there { IfOk result (IsThere compiled.old.parts) }
    ensures same { compiled.new ≡ compiled.old }
{
    let head = read_head(alloc, &mut compiled.names, scope, name, row)?;
    root_pair(alloc, compiled, &head)
}

/// The root of a document of this name and row, before it is assessed.
pub(crate) fn root_of(
    alloc: Global,
    compiled: &mut Compiled,
    name: &Expanded,
    row: &Row,
) -> Result<Rooted, AllocError>
    requires usable { IsUsable compiled.old }
    requires known { AreKnown compiled.old.names first_scope }
    requires names { HasTag compiled.old.names name.now row.now.bindings row.now.attributes }
    ensures outer { IfOk result (λ root. root.outer ≡ first_scope) }
    ensures pair { IfOk result (λ root. root.governing ≡ root_pair_of (set_of compiled.old) (head_in compiled.old.names first_scope name.now row.now.bindings row.now.attributes)) }
    ensures there { IfOk result (λ root. IsThere compiled.old.parts root.governing) }
    ensures same { compiled.new ≡ compiled.old }
{
    let outer = Scope::new(alloc)?;
    let governing = govern_top(alloc, compiled, &outer, name, row)?;
    Ok(Rooted { outer, governing })
}

/// An element before its child elements are assessed.
pub(crate) fn enter(
    alloc: Global,
    compiled: &mut Compiled,
    bearer: u32,
    outer: &Scope,
    governing: &Governing,
    name: &Expanded,
    row: &Row,
    children: &Siblings<'_>,
) -> Result<Entered, AllocError>
    requires can { CanAssess compiled.old outer.now (alone name.now row.now children.now) }
    ensures entered { IfOk result (IsEntered compiled.old bearer outer.now governing.now name.now row.now children.now) }
    ensures same { compiled.new ≡ compiled.old }
{
    let head = read_head(alloc, &mut compiled.names, outer, name, row)?;
    let text = text_of(alloc, children)?;
    let inner = govern_inner(alloc, compiled, governing, &head.scope, children)?;
    Ok(Entered {
        number: row.number,
        bearer,
        head,
        text,
        inner,
    })
}

// What an element has to show.
fn shape_of(alloc: Global, entered: Entered, counts: ChildCounts) -> ElementShape
    ensures { result ≡ shape_from entered counts }
{
    let Entered {
        head,
        text,
        inner,
        ..
    } = entered;
    let ElementHead { name, attrs, scope } = head;
    ElementShape {
        name,
        attrs,
        text,
        scope,
        stuck: inner.stuck,
        identity: Listed::new(alloc),
        ids: Listed::new(alloc),
        counts,
    }
}

/// The entry of an element when its child elements are assessed, of which so many are of each kind (Structures 3.3.4, 3.3.5,
/// 3.4.4).
pub(crate) fn leave(
    alloc: Global,
    compiled: &mut Compiled,
    governing: &Governing,
    entered: Entered,
    counts: ChildCounts,
) -> Result<ElementEntry, AllocError>
    requires usable { IsUsable compiled.old }
    requires there { IsThere compiled.old.parts governing.now }
    requires known { AreKnown compiled.old.names entered.head.scope }
    requires named { All (λ a. a.name < length compiled.old.names.names) entered.head.attrs }
    ensures judged { IfOk result (λ entry. AreJudged (set_of compiled.old) (shape_from entered counts) (entry_of entry)) }
    ensures number { IfOk result (λ entry. entry.number ≡ entered.number) }
    ensures bearer { IfOk result (λ entry. entry.bearer ≡ entered.bearer) }
    ensures governing { IfOk result (λ entry. entry.governing ≡ governing.now) }
    ensures same { compiled.new ≡ compiled.old }
{
    let number = entered.number;
    let bearer = entered.bearer;
    let shape = shape_of(alloc, entered, counts);
    judge(alloc, compiled, number, bearer, governing, &shape)
}
