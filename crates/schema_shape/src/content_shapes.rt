ghost use Rattle.std.specs.Prelude.{◌≡◌, IfOk};
ghost use Rattle.schema_shape.specs.Shapes as spec;

use crate::forms::{Compositor, Form, WildcardForm};
use crate::simple_shapes::simple_form;
use schema_values::{
    AttributeName, Kind, Spaces, flag_of, name_of, occurs_of, spaces_of, value_of,
};
use std::alloc::{AllocError, Global};
use tag_names::Prefixes;
use tree_rows::Attribute;
use xs_components::Process;
use xs_names::Text;

/// The value of an attribute that is required.
pub(crate) fn required_of(
    alloc: Global,
    name: AttributeName,
    attributes: &[Attribute],
) -> Result<Text, AllocError>
    ensures { IfOk result (λ text. text ≡ spec.required_of name attributes.now) }
{
    match value_of(alloc, name, attributes)? {
        None => Text::new(alloc, ""),
        Some(text) => Ok(text),
    }
}

/// How a wildcard is assessed, by the value of processContents.
fn process_of(text: &str) -> Process
    ensures { result ≡ spec.process_of text.now }
{
    match text {
        "lax" => Process::Lax,
        "skip" => Process::Skip,
        _ => Process::Strict,
    }
}

/// The namespaces of a wildcard, by the value of namespace.
fn spaces_by(alloc: Global, value: &Option<Text>) -> Result<Spaces, AllocError>
    ensures { IfOk result (λ spaces. spaces ≡ spec.spaces_by value.now) }
{
    match value {
        None => Ok(Spaces::Any),
        Some(text) => spaces_of(alloc, text.as_str()),
    }
}

/// A wildcard.
fn wildcard_form(alloc: Global, attributes: &[Attribute]) -> Result<WildcardForm, AllocError>
    ensures { IfOk result (λ form. form ≡ spec.wildcard_form attributes.now) }
{
    let namespace = value_of(alloc, AttributeName::Namespace, attributes)?;
    let process = required_of(alloc, AttributeName::ProcessContents, attributes)?;
    Ok(WildcardForm {
        spaces: spaces_by(alloc, &namespace)?,
        process: process_of(process.as_str()),
    })
}

/// A restriction or an extension in simpleContent or complexContent.
fn derivation(
    alloc: Global,
    by_extension: bool,
    scope: &Prefixes,
    attributes: &[Attribute],
) -> Result<Form, AllocError>
    ensures { IfOk result (λ form. form ≡ spec.derivation by_extension scope.now attributes.now) }
{
    Ok(Form::Derivation {
        by_extension,
        base: name_of(alloc, AttributeName::Base, scope, attributes)?,
    })
}

/// A model group.
fn model_group(
    alloc: Global,
    compositor: Compositor,
    attributes: &[Attribute],
) -> Result<Form, AllocError>
    ensures { IfOk result (λ form. form ≡ spec.model_group compositor attributes.now) }
{
    Ok(Form::ModelGroup {
        compositor,
        occurs: occurs_of(alloc, attributes)?,
    })
}

/// What stands in a complex type or in a group.
pub(crate) fn content_form(
    alloc: Global,
    kind: Kind,
    scope: &Prefixes,
    attributes: &[Attribute],
) -> Result<Form, AllocError>
    ensures { IfOk result (λ form. form ≡ spec.content_form kind scope.now attributes.now) }
{
    match kind {
        Kind::SimpleContent => Ok(Form::SimpleContent),
        Kind::ComplexContent => Ok(Form::ComplexContent {
            mixed: flag_of(alloc, AttributeName::Mixed, attributes)?,
        }),
        Kind::SimpleContentRestriction => derivation(alloc, false, scope, attributes),
        Kind::SimpleContentExtension => derivation(alloc, true, scope, attributes),
        Kind::ComplexContentRestriction => derivation(alloc, false, scope, attributes),
        Kind::ComplexContentExtension => derivation(alloc, true, scope, attributes),
        Kind::GroupReference => Ok(Form::GroupReference {
            to: name_of(alloc, AttributeName::Ref, scope, attributes)?,
            occurs: occurs_of(alloc, attributes)?,
        }),
        Kind::AttributeGroupReference => Ok(Form::AttributeGroupReference {
            to: name_of(alloc, AttributeName::Ref, scope, attributes)?,
        }),
        Kind::NamedAll => model_group(alloc, Compositor::All, attributes),
        Kind::NamedChoice => model_group(alloc, Compositor::Choice, attributes),
        Kind::NamedSequence => model_group(alloc, Compositor::Sequence, attributes),
        Kind::All => model_group(alloc, Compositor::All, attributes),
        Kind::Choice => model_group(alloc, Compositor::Choice, attributes),
        Kind::Sequence => model_group(alloc, Compositor::Sequence, attributes),
        Kind::Any => Ok(Form::Any {
            wildcard: wildcard_form(alloc, attributes)?,
            occurs: occurs_of(alloc, attributes)?,
        }),
        Kind::AnyAttribute => Ok(Form::AnyAttribute(wildcard_form(alloc, attributes)?)),
        _ => simple_form(alloc, kind, scope, attributes),
    }
}
