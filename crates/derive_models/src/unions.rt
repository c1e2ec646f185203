//! What is within the unions that are types of elements.

ghost use Rattle.std.specs.Prelude.{◌≡◌, ◌<◌, ◌==◌, ℕ, true, false, not, length, slice_get, ◌++◌, ◌∷◌, [], IfOk, IfSome, OnOk, Option};
ghost use Rattle.xs_components.specs.declared.common.TypeId.TheVariants as types;
ghost use Rattle.xs_components.specs.declared.element.ElementDecl.{ElementDecl as ElementData};
ghost use Rattle.component_references.specs.Heights.{IsType};
ghost use Rattle.component_references.specs.Ranked.{IsRanked};
ghost use Rattle.component_tables.specs.Types.{AreDeclarationsOf};
ghost use Rattle.type_derivation.specs.Derives.{members_of};
ghost use Rattle.type_derivation.specs.Within.{Marks, simples_with};
ghost use Rattle.derive_models.specs.inside.Asked.{AreAsked, IsUnionAt, AreLooked};

use component_tables::Declarations;
use std::alloc::{AllocError, Global};
use type_derivation::{Within, members_of};
use xs_components::{Components, SimpleId, TypeId};

// Whether a type has member types: it is a union, or restricts one.
fn has_members(parts: &Components, of: TypeId) -> bool
    requires ranked { IsRanked parts.now }
    requires there { IsType parts.now of }
    ensures { result ≡ not (length (members_of parts.now of) == 0) }
{
    !members_of(parts, of).is_empty()
}

// Marks a type, if it is one of the tables' simple types.
fn ask(asked: &mut Vec<bool>, of: TypeId)
    requires { (id : ℕ) → of ≡ types.Simple id → id < length asked.old.items }
    ensures { asked.new.items ≡ simples_with asked.old.items of }
{
    if let TypeId::Simple(id) = of {
        asked[id.number() as usize] = true;
    }
}

/// The simple types that are types of elements, by their numbers.
pub(crate) fn asked_simples(
    alloc: Global,
    parts: &Components,
    declarations: &Declarations,
) -> Result<Vec<bool>, AllocError>
    requires ranked { IsRanked parts.now }
    requires elements { (n : ℕ) (part : ElementData) → slice_get parts.now.elements.parts n ≡ Some part → IfSome part.of (IsType parts.now) }
    requires declarations { AreDeclarationsOf parts.now declarations.now }
    ensures asked { IfOk result (λ asked. AreAsked parts.now (length parts.now.elements.parts) asked.items) }
{
    let mut asked = Vec::from_elem(alloc, false, parts.simples().len())?;
    let mut number = 0;
    while let Some(id) = parts.element_at(number) {
        ask(&mut asked, declarations.type_of(id));
        number += 1;
    }
    Ok(asked)
}

// What is within a simple type, if it is asked for and is a union.
fn union_of(
    alloc: Global,
    parts: &Components,
    id: SimpleId,
    is_asked: bool,
) -> Result<Option<Within>, AllocError>
    requires ranked { IsRanked parts.now }
    requires there { id < length parts.now.simples.parts }
    ensures { IfOk result (IsUnionAt parts.now is_asked id) }
{
    if !is_asked || !has_members(parts, TypeId::Simple(id)) {
        return Ok(None);
    }
    let within = Within::of(alloc, parts, TypeId::Simple(id))?;
    Ok(Some(within))
}

// Puts that of the next simple type behind the others.
fn add_union(
    alloc: Global,
    parts: &Components,
    id: SimpleId,
    is_asked: bool,
    unions: &mut Vec<Option<Within>>,
) -> Result<(), AllocError>
    requires ranked { IsRanked parts.now }
    requires there { id < length parts.now.simples.parts }
    ensures { OnOk result ((union : Option Marks) × (unions.new.items ≡ unions.old.items ++ union ∷ []) × IsUnionAt parts.now is_asked id union) }
{
    let union = union_of(alloc, parts, id, is_asked)?;
    unions.push(union)?;
    Ok(())
}

/// What is within each union that is asked for, by the numbers of the simple types.
pub(crate) fn find_unions(
    alloc: Global,
    parts: &Components,
    asked: &[bool],
) -> Result<Vec<Option<Within>>, AllocError>
    requires ranked { IsRanked parts.now }
    requires len { length asked.now ≡ length parts.now.simples.parts }
    ensures { IfOk result (λ unions. AreLooked parts.now asked.now (length parts.now.simples.parts) unions.items) }
{
    let mut unions = Vec::new(alloc);
    let mut number = 0;
    while let Some(id) = parts.simple_at(number) {
        add_union(alloc, parts, id, asked[number as usize], &mut unions)?;
        number += 1;
    }
    Ok(unions)
}
