ghost use Rattle.std.specs.Prelude.{◌≡◌, true, IfOk, OnOk};
ghost use Rattle.xs_names.specs.Names.{Grown};
ghost use Rattle.representations.specs.declared.parts.Represented.TheVariants as made;
ghost use Rattle.representations.specs.Named as named;
ghost use Rattle.representations.specs.Forms.{element_table, attribute_table};
ghost use Rattle.representations.specs.Naming.{with_declared, with_global, with_reference_if};
ghost use Rattle.representations.specs.Lasting.{IsLasting};
ghost use Rattle.representations.specs.ElementForms as spec;

use crate::defaults::{chosen, for_derivation, for_simple_type, for_substitution};
use crate::types::type_name_if;
use crate::{
    AttributeRepresentation, ComplexTypeRepresentation, ElementRepresentation, GivenValue, Reading,
    Represented, is_in_target,
};
use schema_shape::{AttributeForm, ComplexTypeForm, ElementForm, IdentityKind, Use, ValueForm};
use std::alloc::AllocError;
use tree_rows::Expanded;
use xs_components::Methods;
use xs_names::{Names, Text};

// A default or a fixed value. Its text is shared, and not copied.
fn given_value(value: &Option<ValueForm>) -> Result<Option<GivenValue>, AllocError>
    ensures { IfOk result (λ given. given ≡ spec.given_value value.now) }
{
    match value {
        None => Ok(None),
        Some(value) => Ok(Some(GivenValue {
            fixed: value.fixed,
            text: value.text.try_clone()?,
        })),
    }
}

// A boolean, which is false where it is not given.
fn flag(given: Option<bool>) -> bool
    ensures { result ≡ spec.flag given }
{
    given.unwrap_or(false)
}

// Whether an attribute's use is required.
fn is_required(used: Use) -> bool
    ensures { result ≡ spec.is_required used }
{
    matches!(used, Use::Required)
}

// Whether an attribute's use is prohibited.
fn is_prohibited(used: Use) -> bool
    ensures { result ≡ spec.is_prohibited used }
{
    matches!(used, Use::Prohibited)
}

impl Reading {
    /// An element.
    pub(crate) fn element(
        &self,
        names: &mut Names,
        form: &ElementForm,
    ) -> Result<Represented, AllocError>
        ensures table { OnOk result (names.new ≡ element_table self.now.naming form.now names.old) }
        ensures form { IfOk result (IsLasting names.new (λ t. made.Element (spec.element_of t self.now.naming self.now.defaults form.now))) }
        ensures named { IfOk result (λ form. named.AreIn names.new (named.names_of form)) }
        ensures grown { Grown names.old names.new }
    {
        let naming = &self.naming;
        let in_target = is_in_target(form.global, form.qualified, naming.elements_qualified);
        let value = given_value(&form.value)?;
        Ok(Represented::Element(ElementRepresentation {
            global: form.global,
            name: naming.declare(names, in_target, &form.name)?,
            reference: naming.refer_if(names, &form.reference)?,
            of: type_name_if(naming, names, &form.of)?,
            head: naming.refer_if(names, &form.head)?,
            value,
            nillable: flag(form.nillable),
            is_abstract: flag(form.is_abstract),
            finals: for_derivation(chosen(form.finals, self.defaults.finals)),
            blocks: for_substitution(chosen(form.blocks, self.defaults.blocks)),
        }))
    }

    /// An attribute.
    pub(crate) fn attribute(
        &self,
        names: &mut Names,
        form: &AttributeForm,
    ) -> Result<Represented, AllocError>
        ensures table { OnOk result (names.new ≡ attribute_table self.now.naming form.now names.old) }
        ensures form { IfOk result (IsLasting names.new (λ t. made.Attribute (spec.attribute_of t self.now.naming self.now.defaults form.now))) }
        ensures named { IfOk result (λ form. named.AreIn names.new (named.names_of form)) }
        ensures grown { Grown names.old names.new }
    {
        let naming = &self.naming;
        let in_target = is_in_target(form.global, form.qualified, naming.attributes_qualified);
        let value = given_value(&form.value)?;
        Ok(Represented::Attribute(AttributeRepresentation {
            global: form.global,
            name: naming.declare(names, in_target, &form.name)?,
            reference: naming.refer_if(names, &form.reference)?,
            of: type_name_if(naming, names, &form.of)?,
            value,
            required: is_required(form.used),
            prohibited: is_prohibited(form.used),
        }))
    }

    /// A complex type.
    pub(crate) fn complex_type(
        &self,
        names: &mut Names,
        form: &ComplexTypeForm,
    ) -> Result<Represented, AllocError>
        ensures table { OnOk result (names.new ≡ with_declared self.now.naming true form.now.name names.old) }
        ensures form { IfOk result (IsLasting names.new (λ t. made.ComplexType (spec.complex_type_of t self.now.naming self.now.defaults form.now))) }
        ensures named { IfOk result (λ form. named.AreIn names.new (named.names_of form)) }
        ensures grown { Grown names.old names.new }
    {
        Ok(Represented::ComplexType(ComplexTypeRepresentation {
            name: self.naming.declare(names, true, &form.name)?,
            is_abstract: flag(form.is_abstract),
            finals: for_derivation(chosen(form.finals, self.defaults.finals)),
            blocks: for_derivation(chosen(form.blocks, self.defaults.blocks)),
            mixed: flag(form.mixed),
        }))
    }

    /// A simple type.
    pub(crate) fn simple_type(
        &self,
        names: &mut Names,
        name: &Option<Text>,
        finals: Option<Methods>,
    ) -> Result<Represented, AllocError>
        ensures table { OnOk result (names.new ≡ with_declared self.now.naming true name.now names.old) }
        ensures form { IfOk result (IsLasting names.new (λ t. spec.simple_type_of t self.now.naming self.now.defaults name.now finals)) }
        ensures named { IfOk result (λ form. named.AreIn names.new (named.names_of form)) }
        ensures grown { Grown names.old names.new }
    {
        Ok(Represented::SimpleType {
            name: self.naming.declare(names, true, name)?,
            finals: for_simple_type(chosen(finals, self.defaults.finals)),
        })
    }

    /// An identity constraint.
    pub(crate) fn identity(
        &self,
        names: &mut Names,
        kind: IdentityKind,
        name: &Text,
        refer: &Option<Expanded>,
    ) -> Result<Represented, AllocError>
        ensures table { OnOk result (names.new ≡ with_reference_if self.now.naming refer.now (with_global self.now.naming name.now names.old)) }
        ensures form { IfOk result (IsLasting names.new (λ t. spec.identity_of t self.now.naming self.now.defaults kind name.now refer.now)) }
        ensures named { IfOk result (λ form. named.AreIn names.new (named.names_of form)) }
        ensures grown { Grown names.old names.new }
    {
        let name = self.naming.declare_global(names, name)?;
        let refer = self.naming.refer_if(names, refer)?;
        Ok(match kind {
            IdentityKind::Unique => Represented::Unique { name },
            IdentityKind::Key => Represented::Key { name },
            IdentityKind::Keyref => Represented::Keyref { name, refer },
        })
    }
}
