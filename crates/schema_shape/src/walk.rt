ghost use Rattle.std.specs.Prelude.{◌≡◌, ◌++◌, OnOk, IfOk};
ghost use Rattle.schema_faults.specs.Constructs.{constructs};
ghost use Rattle.schema_faults.specs.Constructs as spec;
ghost use Rattle.schema_shape.specs.Shaped.{shaped, declared, shape_fault, fault_at as spec_fault};
ghost use Rattle.schema_shape.specs.Shapes.{shapes_of};
ghost use Rattle.schema_faults.specs.Elements.{construct_of};
ghost use Rattle.schema_shape.specs.inside.Walks.{with_construct, with_constructs, element_constructs};

use crate::forms::{Reading, ShapeList, ShapedSchema};
use crate::shaped::{declares, shape_of};
use plain_tree::Tree;
use schema_faults::{Broken, Element, fault_of, lesser};
use schema_values::{Kind, kind_below, tag_of};
use std::alloc::{AllocError, Global};
use tag_names::Prefixes;
use tree_rows::{Binding, Content, Row, Sibling, Siblings};
use xs_codes::Fault;
use xs_lists::Listed;

/// What a walk has found: the fault at the least element so far, and what the elements declare.
#[derive(Drop)]
pub(crate) struct Findings {
    pub fault: Option<Broken>,
    pub shapes: ShapeList,
}

/// Puts what an element declares behind the others; some declare nothing.
fn put_shape(alloc: Global, element: &Element, shapes: &mut ShapeList) -> Result<(), AllocError>
    ensures { OnOk result (shapes.new ≡ shapes.old ++ shapes_of (construct_of element.now)) }
{
    if declares(element.kind) {
        shapes.push(shape_of(alloc, element)?)?;
    }
    Ok(())
}

/// Judges an element, and puts what it declares behind the others.
fn judge(alloc: Global, element: &Element, found: &mut Findings) -> Result<(), AllocError>
    ensures { OnOk result (found.new ≡ with_construct found.old (construct_of element.now)) }
{
    let fault = fault_of(alloc, element)?;
    put_shape(alloc, element, &mut found.shapes)?;
    found.fault = lesser(found.fault, fault);
    Ok(())
}

/// The number of the nearest element with bindings.
fn nearest(above: u32, number: u32, bindings: &[Binding]) -> u32
    ensures { result ≡ spec.nearest above number bindings.now }
{
    if bindings.is_empty() { above } else { number }
}

/// The elements of these siblings and below them.
#[cycle(walk)]
fn walk(
    alloc: Global,
    parent: Kind,
    above: u32,
    scope: &mut Prefixes,
    siblings: Siblings<'_>,
    found: &mut Findings,
) -> Result<(), AllocError>
    ensures found { OnOk result (found.new ≡ with_constructs found.old (constructs parent above scope.old siblings.entry)) }
    ensures scope { OnOk result (scope.new ≡ scope.old) }
{
    let mut left = siblings;
    'left: while let Some(
        Sibling {
            row,
            children,
            next,
        },
    ) = left.first()
    {
        if let Content::Element(name) = &row.content {
            enter(
                alloc,
                kind_below(parent, tag_of(name)),
                above,
                scope,
                row,
                children,
                found,
            )?;
        }
        left = next;
    }
    Ok(())
}

/// An element of this kind and those below it.
#[cycle(walk)]
fn enter(
    alloc: Global,
    kind: Kind,
    above: u32,
    scope: &mut Prefixes,
    row: &Row,
    children: Siblings<'_>,
    found: &mut Findings,
) -> Result<(), AllocError>
    ensures found { OnOk result (found.new ≡ with_constructs found.old (element_constructs kind above scope.old row.now children.entry)) }
    ensures scope { OnOk result (scope.new ≡ scope.old) }
{
    let mark = scope.len();
    let bindings = row.bindings.as_slice();
    scope.bind_all(bindings)?;
    let element = Element {
        item: row.number,
        kind,
        above,
        bindings,
        scope,
        attributes: row.attributes.as_slice(),
        children: children.again(),
    };
    judge(alloc, &element, found)?;
    let within = nearest(above, row.number, bindings);
    walk(alloc, kind, within, scope, children, found)?;
    scope.truncate(mark);
    Ok(())
}

/// What the elements of the schema document of this number declare by its tree, and the first constraint on its shape that it
/// breaks: the one of the least element, and of that element the first in the order of the codes (Structures, appendix A, and the
/// constraints on the representation of schemas). What an element with a fault declares is of no account.
///
/// # Errors
///
/// `AllocError` is want of memory. The fault has phase 1.
pub fn read(alloc: Global, document: u32, tree: &Tree) -> Result<Reading, AllocError>
    ensures schema { IfOk result (λ reading. reading.schema ≡ declared tree.now.forest) }
    ensures fault { IfOk result (λ reading. reading.fault ≡ shape_fault document tree.now.forest) }
{
    let index = tree.index(alloc)?;
    let mut scope = Prefixes::new(alloc)?;
    let mut found = Findings {
        fault: None,
        shapes: Listed::new(alloc),
    };
    walk(
        alloc,
        Kind::Document,
        0,
        &mut scope,
        index.top(),
        &mut found,
    )?;
    let Findings { fault, shapes } = found;
    Ok(Reading {
        schema: ShapedSchema { shapes },
        fault: phase_fault(document, fault),
    })
}

// A broken constraint as a fault of the document of this number.
fn phase_fault(document: u32, broken: Option<Broken>) -> Option<Fault>
    ensures { result ≡ spec_fault document broken }
{
    match broken {
        None => None,
        Some(Broken { item, code }) => Some(Fault {
            phase: 1,
            document,
            item,
            code,
        }),
    }
}

/// What the schema document of this number declares by its tree, or the first constraint on its shape that it breaks.
///
/// # Errors
///
/// `AllocError` is want of memory. The fault has phase 1.
pub fn shape(
    alloc: Global,
    document: u32,
    tree: &Tree,
) -> Result<Result<ShapedSchema, Fault>, AllocError>
    ensures { IfOk result (λ answer. answer ≡ shaped document tree.now.forest) }
{
    let Reading { schema, fault } = read(alloc, document, tree)?;
    match fault {
        None => Ok(Ok(schema)),
        Some(fault) => Ok(Err(fault)),
    }
}
