ghost use Rattle.std.specs.Prelude.{◌≡◌, IfOk, OnOk};
ghost use Rattle.representations.specs.Names as spec;

use crate::parts::{Representation, Represented};
use component_tables::Symbols;
use std::alloc::{AllocError, Global};
use xs_names::{NameId, Scope};

/// The names of a schema set in each symbol space (Structures 2.5), by the places of representations. Simple and complex types
/// share one space.
#[derive(Drop)]
pub struct SymbolSpaces {
    pub types: Symbols,
    pub elements: Symbols,
    pub attributes: Symbols,
    pub groups: Symbols,
    pub attr_groups: Symbols,
    /// Identity constraints.
    pub constraints: Symbols,
}

/// What the components of a schema set are built from: representations, names, and the scopes in which texts are read.
#[derive(Clone, Copy)]
pub struct Source<'a> {
    pub reps: &'a [Representation],
    pub spaces: &'a SymbolSpaces,
    pub scopes: &'a [Scope],
}

// The name that a type gets at the top.
fn type_symbol(form: &Represented) -> Option<NameId>
    ensures { result ≡ spec.type_symbol form.now }
{
    match form {
        Represented::SimpleType { name, .. } => *name,
        Represented::ComplexType(head) => head.name,
        _ => None,
    }
}

// The name that an element gets at the top.
fn element_symbol(form: &Represented) -> Option<NameId>
    ensures { result ≡ spec.element_symbol form.now }
{
    match form {
        Represented::Element(element) => if element.global { element.name } else { None },
        _ => None,
    }
}

// The name that an attribute gets at the top.
fn attribute_symbol(form: &Represented) -> Option<NameId>
    ensures { result ≡ spec.attribute_symbol form.now }
{
    match form {
        Represented::Attribute(attribute) => if attribute.global {
            attribute.name
        } else {
            None
        },
        _ => None,
    }
}

// The name of a group.
fn group_symbol(form: &Represented) -> Option<NameId>
    ensures { result ≡ spec.group_symbol form.now }
{
    match form {
        Represented::Group { name } => Some(*name),
        _ => None,
    }
}

// The name of an attribute group.
fn attr_group_symbol(form: &Represented) -> Option<NameId>
    ensures { result ≡ spec.attr_group_symbol form.now }
{
    match form {
        Represented::AttributeGroup { name } => Some(*name),
        _ => None,
    }
}

// The name of an identity constraint.
fn constraint_symbol(form: &Represented) -> Option<NameId>
    ensures { result ≡ spec.constraint_symbol form.now }
{
    match form {
        Represented::Unique { name } => Some(*name),
        Represented::Key { name } => Some(*name),
        Represented::Keyref { name, .. } => Some(*name),
        _ => None,
    }
}

// Adds the next representation.
fn push_symbols(spaces: &mut SymbolSpaces, form: &Represented) -> Result<(), AllocError>
    ensures { OnOk result (spaces.new ≡ spec.with_symbols spaces.old form.now) }
{
    spaces.types.push(type_symbol(form))?;
    spaces.elements.push(element_symbol(form))?;
    spaces.attributes.push(attribute_symbol(form))?;
    spaces.groups.push(group_symbol(form))?;
    spaces.attr_groups.push(attr_group_symbol(form))?;
    spaces.constraints.push(constraint_symbol(form))?;
    Ok(())
}

/// The names that representations give, in each symbol space.
///
/// # Errors
///
/// `AllocError` is want of memory.
pub fn spaces_of(alloc: Global, reps: &[Representation]) -> Result<SymbolSpaces, AllocError>
    ensures spaces { IfOk result (λ spaces. spaces ≡ spec.spaces_of reps.now) }
{
    let mut spaces = SymbolSpaces {
        types: Symbols::new(alloc),
        elements: Symbols::new(alloc),
        attributes: Symbols::new(alloc),
        groups: Symbols::new(alloc),
        attr_groups: Symbols::new(alloc),
        constraints: Symbols::new(alloc),
    };
    for rep in reps {
        push_symbols(&mut spaces, &rep.form)?;
    }
    Ok(spaces)
}
