//! The classes of all element declarations.

ghost use Rattle.std.specs.Prelude.{◌≡◌, ◌⊎◌, ℕ, Some, length, slice_get, IfOk, IfSome, OnOk};
ghost use Rattle.std.specs.HashMap.{get};
ghost use Rattle.xs_components.specs.declared.common.TypeId.{TypeId as TypeData};
ghost use Rattle.xs_components.specs.declared.element.ElementDecl.{ElementDecl as ElementData};
ghost use Rattle.component_references.specs.Heights.{IsType};
ghost use Rattle.component_references.specs.Ranked.{IsRanked};
ghost use Rattle.component_tables.specs.ContentTypes.{AreContentsOf, content_of};
ghost use Rattle.component_tables.specs.declared.content_types.ContentType.TheVariants.{SimpleType, SimpleContent};
ghost use Rattle.component_tables.specs.Types.{AreDeclarationsOf};
ghost use Rattle.simple_types.specs.SimpleTypes.{AreTypesOf, IsWhole};
ghost use Rattle.element_declarations.specs.Classes as spec;
ghost use Rattle.element_declarations.specs.inside.Keys.{IsFound, AreRead};
ghost use Rattle.element_declarations.specs.inside.Firsts.{AreNoted, HasNone};

use crate::firsts::class_of;
use crate::properties::Properties;
use crate::set::ElementSet;
use component_tables::{ContentTypes, Declarations};
use simple_types::SimpleTypes;
use std::alloc::{AllocError, Global};
use std::collections::HashMap;
use xs_components::Components;

// Puts the classes of all declarations into an empty list, one after another.
fn fill_classes(
    alloc: Global,
    set: &ElementSet<'_>,
    types: &mut SimpleTypes,
    firsts: &mut HashMap<Properties, u32>,
    classes: &mut Vec<u32>,
) -> Result<(), AllocError>
    requires found { IsFound set.now }
    requires read { AreRead set.now.parts.now types.old }
    requires none { HasNone (get (⟦<Properties as PartialEq>⟧.eq) firsts.old) }
    requires empty { length classes.old.items ≡ 0 }
    ensures classes { OnOk result (spec.AreClassesOf set.now.parts.now classes.new.items) }
    ensures same { types.new ≡ types.old }
{
    let mut number = 0;
    while let Some(id) = set.parts.element_at(number) {
        let class = class_of(alloc, set, types, id, firsts)?;
        classes.push(class)?;
        number += 1;
    }
    Ok(())
}

/// The class of each element declaration: the number of the first with its properties (Structures 3.3.1), or its own. Each text of a
/// value constraint is read once.
///
/// The declarations, content types and simple types are those of the components, and the literals of types of elements are known.
///
/// # Errors
///
/// `AllocError` is want of memory.
pub fn classes_of(
    alloc: Global,
    parts: &Components,
    declarations: &Declarations,
    contents: &ContentTypes,
    types: &mut SimpleTypes,
) -> Result<Vec<u32>, AllocError>
    requires ranked { IsRanked parts.now }
    requires elements { (n : ℕ) (part : ElementData) → slice_get parts.now.elements.parts n ≡ Some part → IfSome part.of (IsType parts.now) }
    requires judged { AreTypesOf parts.now types.old }
    requires whole { (of : TypeData) → IsType parts.now of → (content_of parts.now of ≡ SimpleType) ⊎ (content_of parts.now of ≡ SimpleContent) → IsWhole types.old of }
    requires declarations { AreDeclarationsOf parts.now declarations.now }
    requires contents { AreContentsOf parts.now contents.now }
    ensures classes { IfOk result (λ classes. spec.AreClassesOf parts.now classes.items) }
    ensures same { types.new ≡ types.old }
{
    let set = ElementSet {
        parts,
        declarations,
        contents,
    };
    let mut firsts = HashMap::new(alloc);
    let mut classes = Vec::new(alloc);
    let filled = fill_classes(alloc, &set, types, &mut firsts, &mut classes);
    drop(firsts);
    match filled {
        Ok(()) => Ok(classes),
        Err(error) => Err(error),
    }
}
