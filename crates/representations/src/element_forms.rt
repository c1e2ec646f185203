ghost use Rattle.std.specs.Prelude.{◌≡◌, [], IfOk, OnOk};
ghost use Rattle.xs_names.specs.Names.{Grown};
ghost use Rattle.representations.specs.Named as named;
ghost use Rattle.representations.specs.Forms.{form_table};
ghost use Rattle.representations.specs.Lasting.{IsLasting};
ghost use Rattle.representations.specs.Wildcards.{KnowsTarget};
ghost use Rattle.representations.specs.ElementForms as spec;

use crate::{Reading, Represented};
use schema_shape::{Compositor, Form};
use schema_values::Occurs;
use std::alloc::{AllocError, Global};
use xs_names::Names;

/// How often what has this form may come, where it is a particle; else once (Structures 3.9.2).
pub fn occurs_in(form: &Form) -> Occurs
    ensures occurs { result ≡ spec.occurs_in form.now }
{
    match form {
        Form::Element(form) => form.occurs,
        Form::GroupReference { occurs, .. } => *occurs,
        Form::ModelGroup { occurs, .. } => *occurs,
        Form::Any { occurs, .. } => *occurs,
        _ => Occurs {
            min: 1,
            max: Some(1),
        },
    }
}

// A model group.
fn model_group(compositor: Compositor) -> Represented
    ensures form { result ≡ spec.model_group compositor }
    ensures unnamed { named.names_of result ≡ [] }
{
    match compositor {
        Compositor::All => Represented::All,
        Compositor::Choice => Represented::Choice,
        Compositor::Sequence => Represented::Sequence,
    }
}

// What has no names in it. Its texts are shared, and not copied.
fn nameless(form: &Form) -> Result<Represented, AllocError>
    ensures form { IfOk result (λ made. made ≡ spec.nameless form.now) }
    ensures unnamed { IfOk result (λ made. named.names_of made ≡ []) }
{
    match form {
        Form::Selector { path } => Ok(Represented::Selector {
            path: path.try_clone()?,
        }),
        Form::Field { path } => Ok(Represented::Field {
            path: path.try_clone()?,
        }),
        Form::SimpleContent => Ok(Represented::SimpleContent),
        Form::ComplexContent { mixed } => Ok(Represented::ComplexContent { mixed: *mixed }),
        Form::ModelGroup { compositor, .. } => Ok(model_group(*compositor)),
        Form::Facet { kind, text, fixed } => Ok(Represented::Facet {
            kind: *kind,
            text: text.try_clone()?,
            fixed: *fixed,
        }),
        _ => Ok(Represented::Nothing),
    }
}

impl Reading {
    /// What an element of a schema document represents that declares this (Structures 3). The names in it come into the table in
    /// their order.
    ///
    /// # Errors
    ///
    /// `AllocError` is want of memory.
    pub fn represented(
        &self,
        alloc: Global,
        names: &mut Names,
        form: &Form,
    ) -> Result<Represented, AllocError>
        requires target { KnowsTarget names.old self.now }
        ensures table { OnOk result (names.new ≡ form_table self.now.naming form.now names.old) }
        ensures form { IfOk result (IsLasting names.new (λ t. spec.represented t self.now.naming self.now.defaults form.now)) }
        ensures named { IfOk result (λ made. named.AreIn names.new (named.names_of made)) }
        ensures grown { Grown names.old names.new }
    {
        match form {
            Form::Import { namespace, .. } => self.import(names, namespace),
            Form::Element(form) => self.element(names, form),
            Form::Attribute(form) => self.attribute(names, form),
            Form::ComplexType(form) => self.complex_type(names, form),
            Form::SimpleType { name, finals } => self.simple_type(names, name, *finals),
            Form::Group { name } => self.group(names, name),
            Form::AttributeGroup { name } => self.attribute_group(names, name),
            Form::Identity { kind, name, refer } => self.identity(names, *kind, name, refer),
            Form::Derivation { by_extension, base } => self.derivation(names, *by_extension, base),
            Form::GroupReference { to, .. } => self.group_reference(names, to),
            Form::AttributeGroupReference { to } => self.attribute_group_reference(names, to),
            Form::Any { wildcard, .. } => self.any(alloc, names, wildcard),
            Form::AnyAttribute(wildcard) => self.any_attribute(alloc, names, wildcard),
            Form::Restriction { base } => self.restriction(names, base),
            Form::ItemType { of } => self.item_type(names, of),
            Form::Union { members } => self.union(alloc, names, members.as_slice()),
            _ => Ok(nameless(form)?),
        }
    }
}
