ghost use Rattle.std.specs.Prelude.{◌≡◌, ◌<◌, length, IfOk, IfSome, OnOk};
ghost use Rattle.xs_names.specs.Names.{Grown};
ghost use Rattle.representations.specs.Naming as spec;

use schema_shape::{Form, SchemaForm, Shape};
use std::alloc::AllocError;
use tree_rows::Expanded;
use xs_names::{NameId, Names, NsId, Text};

/// How the names in a document are meant that has this target namespace in a schema set.
#[derive(Drop)]
pub struct Naming {
    /// The target namespace; `None` is the absent one.
    pub target: Option<Text>,
    /// Whether names without a namespace are in the target: the document has no target of its own.
    pub adopts: bool,
    pub elements_qualified: bool,
    pub attributes_qualified: bool,
}

// A text that is there once more, as far as it is.
fn once_more(text: &Option<Text>) -> Result<Option<Text>, AllocError>
    ensures { IfOk result (λ more. more ≡ text.now) }
{
    match text {
        None => Ok(None),
        Some(text) => Ok(Some(text.try_clone()?)),
    }
}

// How names are meant, by the schema element.
fn naming_by(target: &Option<Text>, form: &SchemaForm) -> Result<Naming, AllocError>
    ensures { IfOk result (λ naming. naming ≡ spec.naming_by target.now form.now) }
{
    Ok(Naming {
        target: once_more(target)?,
        adopts: form.target.is_none(),
        elements_qualified: form.elements_qualified.unwrap_or(false),
        attributes_qualified: form.attributes_qualified.unwrap_or(false),
    })
}

/// How the names in a document are meant, whose first shape is that of the schema element.
pub fn naming_of(target: &Option<Text>, shapes: &[Shape]) -> Result<Naming, AllocError>
    ensures naming { IfOk result (λ naming. naming ≡ spec.naming_of target.now shapes.now) }
{
    if let Some(shape) = shapes.first() {
        if let Form::Schema(form) = &shape.form {
            return naming_by(target, form);
        }
    }
    Ok(Naming {
        target: once_more(target)?,
        adopts: false,
        elements_qualified: false,
        attributes_qualified: false,
    })
}

// The name of a namespace, empty for the absent one.
fn space_text(space: &Option<Text>) -> &str
    ensures { result.now ≡ spec.space_text space.now }
{
    match space {
        None => "",
        Some(space) => space.as_str(),
    }
}

/// The number of a namespace, which is put into the table where it is not there. `None` is the absent one.
///
/// # Errors
///
/// `AllocError` is want of memory, here and below. Names may have come into the table then.
pub fn number_space(names: &mut Names, space: &Option<Text>) -> Result<NsId, AllocError>
    ensures table { OnOk result (names.new ≡ spec.with_space_of names.old space.now) }
    ensures number { IfOk result (spec.IsSpaceNumber names.new space.now) }
    ensures within { IfOk result (λ ns. ns < length names.new.spaces) }
    ensures grown { Grown names.old names.new }
{
    let ns = names.namespace_id(space_text(space))?;
    Ok(ns)
}

/// The number of a name, which is put into the table where it is not there.
pub fn number_name(
    names: &mut Names,
    space: &Option<Text>,
    local: &Text,
) -> Result<NameId, AllocError>
    ensures table { OnOk result (names.new ≡ spec.with_expanded names.old space.now local.now) }
    ensures number { IfOk result (spec.IsNumber names.new space.now local.now) }
    ensures within { IfOk result (λ name. name < length names.new.names) }
    ensures grown { Grown names.old names.new }
{
    let ns = names.namespace_id(space_text(space))?;
    let name = names.intern(ns, local.as_str())?;
    Ok(name)
}

impl Naming {
    /// The number of the name of a declaration in the target namespace, or in none.
    pub fn declare(
        &self,
        names: &mut Names,
        in_target: bool,
        local: &Option<Text>,
    ) -> Result<Option<NameId>, AllocError>
        ensures table { OnOk result (names.new ≡ spec.with_declared self.now in_target local.now names.old) }
        ensures number { IfOk result (spec.IsDeclared names.new self.now in_target local.now) }
        ensures within { IfOk result (λ name. IfSome name (λ number. number < length names.new.names)) }
        ensures grown { Grown names.old names.new }
    {
        let Some(local) = local else {
            return Ok(None);
        };
        if in_target {
            Ok(Some(number_name(names, &self.target, local)?))
        } else {
            Ok(Some(number_name(names, &None, local)?))
        }
    }

    /// The number of the name of a global declaration.
    pub fn declare_global(&self, names: &mut Names, local: &Text) -> Result<NameId, AllocError>
        ensures table { OnOk result (names.new ≡ spec.with_global self.now local.now names.old) }
        ensures number { IfOk result (spec.IsNumber names.new self.now.target local.now) }
        ensures within { IfOk result (λ name. name < length names.new.names) }
        ensures grown { Grown names.old names.new }
    {
        number_name(names, &self.target, local)
    }

    /// The number of a name that is referred to.
    pub fn refer(&self, names: &mut Names, name: &Expanded) -> Result<NameId, AllocError>
        ensures table { OnOk result (names.new ≡ spec.with_reference self.now name.now names.old) }
        ensures number { IfOk result (spec.IsReferred names.new self.now name.now) }
        ensures within { IfOk result (λ name. name < length names.new.names) }
        ensures grown { Grown names.old names.new }
    {
        match &name.namespace {
            Some(_) => number_name(names, &name.namespace, &name.local),
            None => {
                if self.adopts {
                    number_name(names, &self.target, &name.local)
                } else {
                    number_name(names, &None, &name.local)
                }
            }
        }
    }

    /// The number of a name that may be referred to.
    pub fn refer_if(
        &self,
        names: &mut Names,
        name: &Option<Expanded>,
    ) -> Result<Option<NameId>, AllocError>
        ensures table { OnOk result (names.new ≡ spec.with_reference_if self.now name.now names.old) }
        ensures number { IfOk result (spec.IsReferredIf names.new self.now name.now) }
        ensures within { IfOk result (λ name. IfSome name (λ number. number < length names.new.names)) }
        ensures grown { Grown names.old names.new }
    {
        match name {
            None => Ok(None),
            Some(name) => Ok(Some(self.refer(names, name)?)),
        }
    }
}
