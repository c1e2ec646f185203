//! Element declarations: their types, and those at the top of schema documents.

ghost use Rattle.std.specs.Prelude.{◌≡◌, ℕ, ◌<◌, length, slice_get, IfOk, IfSome};
ghost use Rattle.xs_components.specs.Tables.{Tables};
ghost use Rattle.component_references.specs.Ranked.{IsRanked};
ghost use Rattle.component_tables.specs.Found.{AreTypesOf};
ghost use Rattle.component_tables.specs.Types.{own_type, known, has_name, type_of, global_of, given_declaration, AreDeclarationsOf};

use crate::bases::BaseLines;
use crate::globals::{find_globals, global_at};
use component_references::{Rule, fill, order_of};
use std::alloc::{AllocError, Global};
use std::marker::Model;
use xs_components::{Components, ElementId, TypeId};
use xs_names::NameId;

/// The types of all element declarations of a schema set, the declarations at the top of its documents by their names, and all types
/// along their bases.
pub struct Declarations {
    types: Vec<TypeId>,
    globals: Vec<Option<ElementId>>,
    bases: BaseLines,
}

impl Model for Declarations {
    ghost use Rattle.component_tables.specs.Found.{AreTypesOf};
    ghost use Rattle.component_tables.specs.Types.{DeclarationTable};

    ghost Value = { DeclarationTable };

    ghost view = { λ d. record { types = d.types.items; globals = d.globals.items; bases = d.bases } };
}

impl Declarations {
    /// Finds all, the type of each declaration once.
    pub fn of(alloc: Global, parts: &Components) -> Result<Declarations, AllocError>
        requires ranked { IsRanked parts.now }
        ensures declarations { IfOk result (AreDeclarationsOf parts.now) }
    {
        let types = find_types(alloc, parts)?;
        let globals = find_globals(alloc, parts)?;
        let bases = BaseLines::of(alloc, parts)?;
        Ok(Declarations {
            types,
            globals,
            bases,
        })
    }

    /// The type of an element declaration (Structures 3.3.2): its own, else that of its head, else anyType.
    pub fn type_of(&self, element: ElementId) -> TypeId
        ensures of { (parts : Tables) → AreDeclarationsOf parts self.now → result ≡ type_of parts element }
    {
        match self.types.get(element.number() as usize) {
            Some(of) => *of,
            None => TypeId::AnyType,
        }
    }

    /// All types along their bases.
    pub fn bases(&self) -> &BaseLines
        ensures { result.now ≡ self.now.bases }
    {
        &self.bases
    }

    /// The element declaration at the top of a schema document with this name, if there is one.
    pub fn global(&self, name: NameId) -> Option<ElementId>
        ensures global { (parts : Tables) → AreDeclarationsOf parts self.now → result ≡ global_of parts name }
    {
        global_at(&self.globals, name)
    }

    /// The declaration that the term of an element declaration gives to a name that it accepts (Structures 3.3.6): that
    /// declaration for its own name, and for the name of another member of its substitution group that member.
    pub fn given(&self, parts: &Components, element: ElementId, name: NameId) -> ElementId
        ensures given { AreDeclarationsOf parts.now self.now → result ≡ given_declaration parts.now element name }
    {
        if has_name(parts, element, name) {
            return element;
        }
        match global_at(&self.globals, name) {
            Some(member) => member,
            None => element,
        }
    }
}

// Whether the declaration has the name.
fn has_name(parts: &Components, element: ElementId, name: NameId) -> bool
    ensures { result ≡ has_name (slice_get parts.now.elements.parts element) name }
{
    match parts.elements().get(element.number() as usize) {
        Some(part) => part.name == name,
        None => false,
    }
}

// The types of all declarations, each found once from those of lower rank.
fn find_types(alloc: Global, parts: &Components) -> Result<Vec<TypeId>, AllocError>
    requires ranked { IsRanked parts.now }
    ensures types { IfOk result (λ types. AreTypesOf parts.now types.items) }
{
    let order = order_of(alloc, parts.element_ranks())?;
    let mut types = Vec::from_elem(alloc, TypeId::AnyType, parts.elements().len())?;
    fill(&TypeRule { parts }, &order, types.as_mut_slice());
    Ok(types)
}

// How the type of a declaration comes from those of lower rank.
#[derive(Clone, Copy)]
struct TypeRule<'a> {
    parts: &'a Components,
}

impl Rule<TypeId> for TypeRule<'_> {
    ghost is_valid = { λ r. IsRanked r.parts.now };

    ghost count = { λ r. length r.parts.now.elements.parts };

    ghost ranks = { λ r. r.parts.now.elements.ranks };

    ghost value_of = { λ r element. type_of r.parts.now element };

    fn value(&self, x: u32, table: &[TypeId]) -> TypeId {
        let part = &self.parts.elements()[x as usize];
        type_among(part.of, part.head, table)
    }
}

// The type that is named, else that of the head, else anyType.
fn type_among(of: Option<TypeId>, head: Option<ElementId>, table: &[TypeId]) -> TypeId
    requires there { IfSome head (λ h. h < length table.now) }
    ensures { result ≡ own_type (known table.now) of head }
{
    match of {
        Some(own) => own,
        None => match head {
            Some(head) => table[head.number() as usize],
            None => TypeId::AnyType,
        },
    }
}

impl Drop for Declarations {
    fn drop(self) {
        let Declarations {
            types,
            globals,
            bases,
        } = self;
        drop(types);
        drop(globals);
        drop(bases);
    }
}
