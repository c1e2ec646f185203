//! Components at the top of schema documents, found by their names.

ghost use Rattle.std.specs.Prelude.{◌≡◌, ◌≢◌, ◌<◌, ◌++◌, length, map, slice_index_or, bytes_eq, [], IfSome, IfOk, OnOk};
ghost use Rattle.component_tables.specs.Named as spec;
ghost use Rattle.schema_values.specs.GrammarNames.{schema_namespace};
ghost use Rattle.xs_names.specs.Names.{absent_space};
ghost use Rattle.component_references.specs.Heights.{IsType};

use crate::Symbols;
use crate::own::own_type;
use schema_values::SCHEMA_NAMESPACE;
use std::alloc::{AllocError, Global};
use std::marker::Model;
use xs_components::{AttributeDecl, AttributeId, Components, TypeId};
use xs_names::{NameId, Names, NsId};

/// The names of the types and of the attribute declarations at the top of the documents of a schema set (Structures 2.5).
/// Contracts see the name in each place of both symbol spaces, if there is one.
pub struct ComponentNames {
    types: Symbols,
    attributes: Symbols,
}

impl Model for ComponentNames {
    ghost use Rattle.component_tables.specs.Named.{Spaces};

    ghost Value = { Spaces };

    ghost view = { λ n. record { types = n.types; attributes = n.attributes } };
}

impl ComponentNames {
    /// Finds the names of the types and of the attribute declarations.
    ///
    /// # Errors
    ///
    /// `AllocError` is want of memory.
    pub fn of(alloc: Global, parts: &Components) -> Result<ComponentNames, AllocError>
        ensures names { IfOk result (λ found. found ≡ spec.spaces_of parts.now) }
    {
        Ok(ComponentNames {
            types: type_names(alloc, parts)?,
            attributes: attribute_names(alloc, parts)?,
        })
    }

    /// The type definition at the top of a schema document with this name, if there is one.
    pub fn type_with(&self, parts: &Components, name: NameId) -> Option<TypeId>
        ensures of { self.now ≡ spec.spaces_of parts.now → result ≡ spec.type_with parts.now name }
        ensures there { IfSome result (IsType parts.now) }
    {
        match self.types.first(name) {
            None => None,
            Some(place) => type_at(parts, place),
        }
    }

    /// The attribute declaration at the top of a schema document with this name, if there is one.
    pub fn attribute_with(&self, parts: &Components, name: NameId) -> Option<AttributeId>
        ensures of { self.now ≡ spec.spaces_of parts.now → result ≡ spec.attribute_with parts.now name }
        ensures there { IfSome result (λ id. id < length parts.now.attributes.parts) }
    {
        match self.attributes.first(name) {
            None => None,
            Some(place) => parts.attribute_at(place),
        }
    }

    /// The type definition with this namespace and local part: one of every schema, or one that is defined at the top of a
    /// schema document (QName resolution, Structures 3.15.4).
    pub fn named_type(
        &self,
        names: &Names,
        parts: &Components,
        space: NsId,
        local: &str,
    ) -> Option<TypeId>
        requires space { space ≢ absent_space → space < length names.now.spaces }
        ensures of { self.now ≡ spec.spaces_of parts.now → result ≡ spec.named_type names.now parts.now space local.now }
        ensures there { IfSome result (IsType parts.now) }
    {
        let number = names.lookup(space, local);
        if is_schema_space(names, space) {
            return own_type(local);
        }
        match number {
            None => None,
            Some(name) => self.type_with(parts, name),
        }
    }
}

// Whether the namespace is that of schema documents.
fn is_schema_space(names: &Names, space: NsId) -> bool
    requires { space < length names.now.spaces }
    ensures { result ≡ bytes_eq (slice_index_or names.now.spaces space []) schema_namespace }
{
    match names.ns_text(space) {
        None => false,
        Some(name) => name == SCHEMA_NAMESPACE,
    }
}

// The type in a place of the symbol space of types, if there is one.
fn type_at(parts: &Components, place: u32) -> Option<TypeId>
    ensures { result ≡ spec.type_at parts.now place }
{
    if let Some(id) = parts.simple_at(place) {
        return Some(TypeId::Simple(id));
    }
    let simples = parts.simples().len() as u32;
    match parts.complex_at(place - simples) {
        None => None,
        Some(id) => Some(TypeId::Complex(id)),
    }
}

// The names of all types, the simple ones first.
fn type_names(alloc: Global, parts: &Components) -> Result<Symbols, AllocError>
    ensures { IfOk result (λ names. names ≡ spec.type_names parts.now) }
{
    let mut names = Symbols::new(alloc);
    add_simples(&mut names, parts)?;
    add_complexes(&mut names, parts)?;
    Ok(names)
}

// Adds the names of the simple types.
fn add_simples(names: &mut Symbols, parts: &Components) -> Result<(), AllocError>
    ensures { OnOk result (names.new ≡ names.old ++ map (λ part. part.name) parts.now.simples.parts) }
{
    for part in parts.simples() {
        names.push(part.name)?;
    }
    Ok(())
}

// Adds the names of the complex types.
fn add_complexes(names: &mut Symbols, parts: &Components) -> Result<(), AllocError>
    ensures { OnOk result (names.new ≡ names.old ++ map (λ part. part.name) parts.now.complexes.parts) }
{
    for part in parts.complexes() {
        names.push(part.name)?;
    }
    Ok(())
}

// The name of an attribute declaration, where it stands at the top of a schema document.
fn top_name(part: &AttributeDecl) -> Option<NameId>
    ensures { result ≡ spec.top_name part.now }
{
    if part.global { Some(part.name) } else { None }
}

// The names of the attribute declarations at the top of schema documents.
fn attribute_names(alloc: Global, parts: &Components) -> Result<Symbols, AllocError>
    ensures { IfOk result (λ names. names ≡ spec.attribute_names parts.now) }
{
    let mut names = Symbols::new(alloc);
    for part in parts.attributes() {
        names.push(top_name(part))?;
    }
    Ok(names)
}

impl Drop for ComponentNames {
    fn drop(self) {
        let ComponentNames { types, attributes } = self;
        drop(types);
        drop(attributes);
    }
}
