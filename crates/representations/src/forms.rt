ghost use Rattle.std.specs.Prelude.{◌≡◌, ◌||◌, true, OnOk};
ghost use Rattle.std.specs.Option.{unwrap_or};
ghost use Rattle.representations.specs.Forms as spec;
ghost use Rattle.representations.specs.Naming.{with_space_of, with_declared, with_global, with_reference_if};

use crate::naming::{Naming, number_space};
use schema_shape::{AttributeForm, ElementForm, Form};
use schema_values::{SpaceToken, Spaces};
use std::alloc::AllocError;
use tree_rows::Expanded;
use xs_names::{Names, Text};

/// Whether a declaration is in the target namespace: one at the top is, and another by its form, else by the default.
pub fn is_in_target(global: bool, qualified: Option<bool>, default: bool) -> bool
    ensures { result ≡ (global || unwrap_or qualified default) }
{
    if global {
        return true;
    }
    match qualified {
        None => default,
        Some(form) => form,
    }
}

impl Naming {
    // The names of an element.
    fn element(&self, names: &mut Names, form: &ElementForm) -> Result<(), AllocError>
        ensures { OnOk result (names.new ≡ spec.element_table self.now form.now names.old) }
    {
        let in_target = is_in_target(form.global, form.qualified, self.elements_qualified);
        self.declare(names, in_target, &form.name)?;
        self.refer_if(names, &form.reference)?;
        self.refer_if(names, &form.of)?;
        self.refer_if(names, &form.head)?;
        Ok(())
    }

    // The names of an attribute.
    fn attribute(&self, names: &mut Names, form: &AttributeForm) -> Result<(), AllocError>
        ensures { OnOk result (names.new ≡ spec.attribute_table self.now form.now names.old) }
    {
        let in_target = is_in_target(form.global, form.qualified, self.attributes_qualified);
        self.declare(names, in_target, &form.name)?;
        self.refer_if(names, &form.reference)?;
        self.refer_if(names, &form.of)?;
        Ok(())
    }

    // The names of the members of a union.
    fn members(&self, names: &mut Names, members: &[Expanded]) -> Result<(), AllocError>
        ensures { OnOk result (names.new ≡ spec.members_table self.now members.now names.old) }
    {
        for member in members {
            self.refer(names, member)?;
        }
        Ok(())
    }

    // The name of a declaration.
    fn put(&self, names: &mut Names, name: &Option<Text>) -> Result<(), AllocError>
        ensures { OnOk result (names.new ≡ with_declared self.now true name.now names.old) }
    {
        self.declare(names, true, name)?;
        Ok(())
    }

    // The name of a global declaration.
    fn put_global(&self, names: &mut Names, name: &Text) -> Result<(), AllocError>
        ensures { OnOk result (names.new ≡ with_global self.now name.now names.old) }
    {
        self.declare_global(names, name)?;
        Ok(())
    }

    // A name that may be referred to.
    fn put_reference(&self, names: &mut Names, name: &Option<Expanded>) -> Result<(), AllocError>
        ensures { OnOk result (names.new ≡ with_reference_if self.now name.now names.old) }
    {
        self.refer_if(names, name)?;
        Ok(())
    }

    // The names in a form.
    pub(crate) fn form(&self, names: &mut Names, form: &Form) -> Result<(), AllocError>
        ensures { OnOk result (names.new ≡ spec.form_table self.now form.now names.old) }
    {
        match form {
            Form::Import { namespace, .. } => put_space(names, namespace),
            Form::Element(form) => self.element(names, form),
            Form::Attribute(form) => self.attribute(names, form),
            Form::ComplexType(form) => self.put(names, &form.name),
            Form::SimpleType { name, .. } => self.put(names, name),
            Form::Group { name } => self.put_global(names, name),
            Form::AttributeGroup { name } => self.put_global(names, name),
            Form::Identity { name, refer, .. } => {
                self.put_global(names, name)?;
                self.put_reference(names, refer)
            }
            Form::Derivation { base, .. } => self.put_reference(names, base),
            Form::GroupReference { to, .. } => self.put_reference(names, to),
            Form::AttributeGroupReference { to } => self.put_reference(names, to),
            Form::Any { wildcard, .. } => add_spaces(names, &wildcard.spaces),
            Form::AnyAttribute(wildcard) => add_spaces(names, &wildcard.spaces),
            Form::Restriction { base } => self.put_reference(names, base),
            Form::ItemType { of } => self.put_reference(names, of),
            Form::Union { members } => self.members(names, members.as_slice()),
            _ => Ok(()),
        }
    }
}

// A namespace.
fn put_space(names: &mut Names, space: &Option<Text>) -> Result<(), AllocError>
    ensures { OnOk result (names.new ≡ with_space_of names.old space.now) }
{
    number_space(names, space)?;
    Ok(())
}

// The namespace that a word in the list of a wildcard names.
fn add_token(names: &mut Names, token: &SpaceToken) -> Result<(), AllocError>
    ensures { OnOk result (names.new ≡ spec.token_table token.now names.old) }
{
    match token {
        SpaceToken::Target => Ok(()),
        SpaceToken::Local => Ok(()),
        SpaceToken::Named(space) => {
            names.namespace_id(space.as_str())?;
            Ok(())
        },
    }
}

// The namespaces that words in the list of a wildcard name.
fn add_tokens(names: &mut Names, tokens: &[SpaceToken]) -> Result<(), AllocError>
    ensures { OnOk result (names.new ≡ spec.tokens_table tokens.now names.old) }
{
    for token in tokens {
        add_token(names, token)?;
    }
    Ok(())
}

// The namespaces that a wildcard names.
fn add_spaces(names: &mut Names, spaces: &Spaces) -> Result<(), AllocError>
    ensures { OnOk result (names.new ≡ spec.spaces_table spaces.now names.old) }
{
    match spaces {
        Spaces::Any => Ok(()),
        Spaces::Other => Ok(()),
        Spaces::These(tokens) => add_tokens(names, tokens.as_slice()),
    }
}
