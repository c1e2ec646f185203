ghost use Rattle.std.specs.Prelude.{◌≡◌, ◌<◌, ◌∷◌, ◌++◌, [], ℕ, length, map, slice_get, slice_set, IfOk, IfSome, OnOk, Some, true};
ghost use Rattle.xs_components.specs.Tables.{Tables};
ghost use Rattle.xs_components.specs.declared.element.ElementDecl.{ElementDecl};
ghost use Rattle.xs_components.specs.Heads.{names_of};
ghost use Rattle.component_references.specs.Heights.{IsType};
ghost use Rattle.component_references.specs.Ranked.{IsRanked};
ghost use Rattle.component_tables.specs.Types.{AreDeclarationsOf};
ghost use Rattle.type_derivation.specs.Within.{AreSimple};
ghost use Rattle.element_declarations.specs.Groups as spec;
ghost use Rattle.element_declarations.specs.inside.Steps.{IsOffered, IsJoined, IsGroupSoFar};
ghost use Rattle.element_declarations.specs.inside.Nearest.{AreNearest};

use crate::named::{nearest_at, nearest_heads};
use crate::order::in_order;
use crate::standing::may_stand;
use component_tables::Declarations;
use std::alloc::{AllocError, Global};
use xs_components::{Components, ElementId, Members, NameIdList};
use xs_names::NameId;

// A list of one name.
fn one_name(alloc: Global, name: NameId) -> Result<NameIdList, AllocError>
    ensures { IfOk result (λ names. names ≡ name ∷ []) }
{
    let mut names = NameIdList::new(alloc);
    names.push(name)?;
    Ok(names)
}

// For each element the list of its own name.
fn own_names(alloc: Global, parts: &Components) -> Result<Vec<NameIdList>, AllocError>
    ensures { IfOk result (λ lists. lists.items ≡ map (λ part. part.name ∷ []) parts.now.elements.parts) }
{
    let mut lists = Vec::new(alloc);
    for element in parts.elements() {
        lists.push(one_name(alloc, element.name)?)?;
    }
    Ok(lists)
}

// Puts a name to the list of an element.
fn put_name(lists: &mut Vec<NameIdList>, element: ElementId, name: NameId) -> Result<(), AllocError>
    requires { element < length lists.old.items }
    ensures { OnOk result (lists.new.items ≡ slice_set lists.old.items element (names_of lists.old.items element ++ name ∷ [])) }
{
    lists[element.number() as usize].push(name)
}

// Puts an element to the group of one head, which a content model names, if the element may stand for it.
fn offer(
    alloc: Global,
    parts: &Components,
    declarations: &Declarations,
    element: ElementId,
    head: ElementId,
    lists: &mut Vec<NameIdList>,
) -> Result<(), AllocError>
    requires ranked { IsRanked parts.now }
    requires simple { AreSimple parts.now }
    requires types { (n : ℕ) (part : ElementDecl) → slice_get parts.now.elements.parts n ≡ Some part → IfSome part.of (IsType parts.now) }
    requires declarations { AreDeclarationsOf parts.now declarations.now }
    requires element { element < length parts.now.elements.parts }
    requires head { head < length parts.now.elements.parts }
    requires named { spec.is_named parts.now head ≡ true }
    requires count { length lists.old.items ≡ length parts.now.elements.parts }
    ensures { OnOk result (IsOffered parts.now element head lists.old.items lists.new.items) }
{
    if may_stand(alloc, parts, declarations, element, head)? {
        put_name(lists, head, parts.element(element).name)?;
    }
    Ok(())
}

// Puts an element to the groups of which it is a member, of those whose heads content models name, from each to the nearest above.
fn join(
    alloc: Global,
    parts: &Components,
    declarations: &Declarations,
    nearest: &[Option<ElementId>],
    element: ElementId,
    lists: &mut Vec<NameIdList>,
) -> Result<(), AllocError>
    requires ranked { IsRanked parts.now }
    requires simple { AreSimple parts.now }
    requires types { (n : ℕ) (part : ElementDecl) → slice_get parts.now.elements.parts n ≡ Some part → IfSome part.of (IsType parts.now) }
    requires declarations { AreDeclarationsOf parts.now declarations.now }
    requires nearest { AreNearest parts.now nearest.now }
    requires there { element < length parts.now.elements.parts }
    requires count { length lists.old.items ≡ length parts.now.elements.parts }
    ensures { OnOk result (IsJoined parts.now element lists.old.items lists.new.items) }
{
    let mut above = nearest_at(nearest, element);
    'up: while let Some(head) = above {
        offer(alloc, parts, declarations, element, head, lists)?;
        above = nearest_at(nearest, head);
    }
    Ok(())
}

// The names of the members of each group whose head a content model names.
fn member_names(
    alloc: Global,
    parts: &Components,
    declarations: &Declarations,
) -> Result<Vec<NameIdList>, AllocError>
    requires ranked { IsRanked parts.now }
    requires simple { AreSimple parts.now }
    requires types { (n : ℕ) (part : ElementDecl) → slice_get parts.now.elements.parts n ≡ Some part → IfSome part.of (IsType parts.now) }
    requires declarations { AreDeclarationsOf parts.now declarations.now }
    ensures { IfOk result (λ lists. spec.AreGroups parts.now lists.items) }
{
    let order = in_order(alloc, parts)?;
    let nearest = nearest_heads(alloc, parts)?;
    let mut lists = own_names(alloc, parts)?;
    for element in &order {
        join(alloc, parts, declarations, &nearest, *element, &mut lists)?;
    }
    Ok(lists)
}

// The lists as members by the numbers of heads.
fn as_members(alloc: Global, lists: Vec<NameIdList>) -> Result<Members, AllocError>
    ensures { IfOk result (λ members. members ≡ lists.items) }
{
    let mut members = Members::new(alloc);
    for names in lists {
        members.push(names)?;
    }
    Ok(members)
}

/// The substitution groups of a schema set (Structures 3.3.6): for each element that a content model names, the names of those that
/// may stand for it, its own first, and then the others by document, item and number; for another its own name alone.
/// `declarations` are those of the components.
///
/// # Errors
///
/// `AllocError` is want of memory.
pub fn groups(
    alloc: Global,
    parts: &Components,
    declarations: &Declarations,
) -> Result<Members, AllocError>
    requires ranked { IsRanked parts.now }
    requires simple { AreSimple parts.now }
    requires types { (n : ℕ) (part : ElementDecl) → slice_get parts.now.elements.parts n ≡ Some part → IfSome part.of (IsType parts.now) }
    requires declarations { AreDeclarationsOf parts.now declarations.now }
    ensures groups { IfOk result (spec.AreGroups parts.now) }
{
    let lists = member_names(alloc, parts, declarations)?;
    as_members(alloc, lists)
}
