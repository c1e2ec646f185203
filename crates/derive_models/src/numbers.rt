//! The fixed values of all element declarations.

ghost use Rattle.std.specs.Prelude.{◌≡◌, ◌<◌, ◌⊎◌, ◌++◌, ◌∷◌, [], ℕ, Option, Some, length, slice_get, IfOk, IfSome, OnOk};
ghost use Rattle.xs_components.specs.declared.common.TypeId.{TypeId as TypeData};
ghost use Rattle.xs_components.specs.declared.element.ElementDecl.{ElementDecl as ElementData};
ghost use Rattle.component_references.specs.Heights.{IsType};
ghost use Rattle.component_references.specs.Ranked.{IsRanked};
ghost use Rattle.component_tables.specs.ContentTypes.{AreContentsOf, content_of};
ghost use Rattle.component_tables.specs.declared.content_types.ContentType.TheVariants.{SimpleType, SimpleContent};
ghost use Rattle.component_tables.specs.Types.{AreDeclarationsOf};
ghost use Rattle.simple_types.specs.SimpleTypes.{AreTypesOf, IsWhole};
ghost use Rattle.derive_models.specs.Fixed.{AreFixedNumbers};
ghost use Rattle.derive_models.specs.inside.Numbered.{IsFound, AreRead, IsNumbered, Grows};

use crate::fixed::fixed_key;
use crate::keys::number_in;
use crate::set::ElementSet;
use component_tables::{ContentTypes, Declarations};
use indexmap::IndexSet;
use simple_types::SimpleTypes;
use simple_values::Key;
use std::alloc::{AllocError, Global};
use xs_components::{Components, ElementId};

// The number of the fixed value of an element declaration, if it has one.
fn number_of(
    alloc: Global,
    set: &ElementSet<'_>,
    types: &mut SimpleTypes,
    id: ElementId,
    keys: &mut IndexSet<Key>,
) -> Result<Option<u32>, AllocError>
    requires found { IsFound set.now }
    requires read { AreRead set.now.parts.now types.old }
    requires there { id < length set.now.parts.now.elements.parts }
    ensures grows { OnOk result (Grows keys.old.keys keys.new.keys) }
    ensures number { IfOk result (IsNumbered set.now.parts.now keys.new.keys id) }
    ensures same { types.new ≡ types.old }
{
    match fixed_key(alloc, set, types, id)? {
        None => Ok(None),
        Some(key) => {
            let number = number_in(keys, key)?;
            Ok(Some(number))
        }
    }
}

// Puts the number of the next declaration behind the others.
fn add_number(
    alloc: Global,
    set: &ElementSet<'_>,
    types: &mut SimpleTypes,
    id: ElementId,
    keys: &mut IndexSet<Key>,
    numbers: &mut Vec<Option<u32>>,
) -> Result<(), AllocError>
    requires found { IsFound set.now }
    requires read { AreRead set.now.parts.now types.old }
    requires there { id < length set.now.parts.now.elements.parts }
    ensures grows { OnOk result (Grows keys.old.keys keys.new.keys) }
    ensures number { OnOk result ((number : Option ℕ) × (numbers.new.items ≡ numbers.old.items ++ number ∷ []) × IsNumbered set.now.parts.now keys.new.keys id number) }
    ensures same { types.new ≡ types.old }
{
    let number = number_of(alloc, set, types, id, keys)?;
    numbers.push(number)?;
    Ok(())
}

/// Numbers of the fixed values of element declarations, by the numbers of the declarations: two of them share one exactly where
/// their values are the same. A declaration without a fixed value, or whose text is not valid, has none. Each text is read once.
///
/// The declarations, content types and simple types are those of the components, and the literals of types of elements are known.
///
/// # Errors
///
/// `AllocError` is want of memory.
pub fn fixed_numbers(
    alloc: Global,
    parts: &Components,
    declarations: &Declarations,
    contents: &ContentTypes,
    types: &mut SimpleTypes,
) -> Result<Vec<Option<u32>>, AllocError>
    requires ranked { IsRanked parts.now }
    requires elements { (n : ℕ) (part : ElementData) → slice_get parts.now.elements.parts n ≡ Some part → IfSome part.of (IsType parts.now) }
    requires judged { AreTypesOf parts.now types.old }
    requires whole { (of : TypeData) → IsType parts.now of → (content_of parts.now of ≡ SimpleType) ⊎ (content_of parts.now of ≡ SimpleContent) → IsWhole types.old of }
    requires declarations { AreDeclarationsOf parts.now declarations.now }
    requires contents { AreContentsOf parts.now contents.now }
    ensures numbers { IfOk result (λ numbers. AreFixedNumbers parts.now numbers.items) }
    ensures same { types.new ≡ types.old }
{
    let set = ElementSet {
        parts,
        declarations,
        contents,
    };
    let mut keys = IndexSet::new(alloc);
    let mut numbers = Vec::new(alloc);
    let mut number = 0;
    while let Some(id) = parts.element_at(number) {
        add_number(alloc, &set, types, id, &mut keys, &mut numbers)?;
        number += 1;
    }
    Ok(numbers)
}
