ghost use Rattle.std.specs.Prelude.{◌≡◌, IfOk};
ghost use Rattle.std.specs.Option.{option_and_then};
ghost use Rattle.schema_shape.specs.Shapes as spec;
ghost use Rattle.schema_faults.specs.Elements.{construct_of};

use crate::component_shapes::{component_form, qualified_of};
use crate::forms::{Form, SchemaForm, Shape};
use schema_faults::Element;
use schema_values::{AttributeName, Class, Kind, is_in, methods_of, tag_of, value_of};
use std::alloc::{AllocError, Global};
use tag_names::Prefixes;
use tree_rows::{Attribute, Binding, Content, Sibling, Siblings};
use xs_lists::Listed;
use xs_names::Text;

/// The target namespace; `None` is the absent one.
fn target_of(alloc: Global, attributes: &[Attribute]) -> Result<Option<Text>, AllocError>
    ensures { IfOk result (λ target. target ≡ spec.target_of attributes.now) }
{
    match value_of(alloc, AttributeName::TargetNamespace, attributes)? {
        None => Ok(None),
        Some(target) => {
            if target.as_str().is_empty() {
                Ok(None)
            } else {
                Ok(Some(target))
            }
        }
    }
}

/// What the schema element says of its document.
fn schema_form(alloc: Global, attributes: &[Attribute]) -> Result<SchemaForm, AllocError>
    ensures { IfOk result (λ form. form ≡ spec.schema_form attributes.now) }
{
    Ok(SchemaForm {
        target: target_of(alloc, attributes)?,
        finals: methods_of(alloc, AttributeName::FinalDefault, attributes)?,
        blocks: methods_of(alloc, AttributeName::BlockDefault, attributes)?,
        elements_qualified: qualified_of(alloc, AttributeName::ElementFormDefault, attributes)?,
        attributes_qualified: qualified_of(alloc, AttributeName::AttributeFormDefault, attributes)?,
    })
}

/// An include of a location.
fn including(location: Option<Text>) -> Form
    ensures { result ≡ spec.including location }
{
    match location {
        None => Form::Nothing,
        Some(location) => Form::Include { location },
    }
}

/// A redefine of a location.
fn redefining(location: Option<Text>) -> Form
    ensures { result ≡ spec.redefining location }
{
    match location {
        None => Form::Nothing,
        Some(location) => Form::Redefine { location },
    }
}

/// What an element of this kind declares.
fn form_of(
    alloc: Global,
    kind: Kind,
    scope: &Prefixes,
    attributes: &[Attribute],
) -> Result<Form, AllocError>
    ensures { IfOk result (λ form. form ≡ spec.form_of kind scope.now attributes.now) }
{
    match kind {
        Kind::Schema => Ok(Form::Schema(schema_form(alloc, attributes)?)),
        Kind::Include => {
            Ok(including(value_of(alloc, AttributeName::SchemaLocation, attributes)?))
        }
        Kind::Import => Ok(Form::Import {
            namespace: value_of(alloc, AttributeName::Namespace, attributes)?,
            location: value_of(alloc, AttributeName::SchemaLocation, attributes)?,
        }),
        Kind::Redefine => {
            Ok(redefining(value_of(alloc, AttributeName::SchemaLocation, attributes)?))
        }
        _ => component_form(alloc, kind, scope, attributes),
    }
}

/// The numbers of the elements among the siblings, but for annotations.
fn member_numbers(alloc: Global, siblings: Siblings<'_>) -> Result<Listed<u32>, AllocError>
    ensures { IfOk result (λ numbers. numbers ≡ spec.member_numbers siblings.entry) }
{
    let mut numbers = Listed::new(alloc);
    let mut left = siblings;
    'left: while let Some(
        Sibling {
            row,
            children,
            next,
        },
    ) = left.first()
    {
        if let Content::Element(name) = &row.content {
            if !is_in(Class::Annotation, tag_of(name)) {
                numbers.push(row.number)?;
            }
        }
        left = next;
    }
    Ok(numbers)
}

/// The bindings once more. Their texts are shared, and not copied.
fn copies_of(alloc: Global, bindings: &[Binding]) -> Result<Listed<Binding>, AllocError>
    ensures { IfOk result (λ copies. copies ≡ bindings.now) }
{
    let mut copies = Listed::new(alloc);
    for binding in bindings {
        copies.push(Binding {
            prefix: binding.prefix.try_clone()?,
            namespace: binding.namespace.try_clone()?,
        })?;
    }
    Ok(copies)
}

/// Whether an element of this kind declares something.
pub(crate) fn declares(kind: Kind) -> bool
    ensures { result ≡ spec.declares kind }
{
    !matches!(kind, Kind::Annotation | Kind::Notation | Kind::Ignored)
}

/// What an element declares.
pub(crate) fn shape_of(alloc: Global, element: &Element) -> Result<Shape, AllocError>
    ensures { IfOk result (λ shape. shape ≡ spec.shape_of (construct_of element.now)) }
{
    Ok(Shape {
        item: element.item,
        above: element.above,
        bindings: copies_of(alloc, element.bindings)?,
        members: member_numbers(alloc, element.children.again())?,
        form: form_of(alloc, element.kind, element.scope, element.attributes)?,
    })
}
