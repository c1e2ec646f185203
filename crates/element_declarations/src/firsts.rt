//! The first declarations with their properties.

ghost use Rattle.std.specs.Prelude.{◌≡◌, ◌+◌, ◌<◌, length, IfOk, OnOk};
ghost use Rattle.std.specs.HashMap.{get};
ghost use Rattle.element_declarations.specs.Classes.{IsClassOf};
ghost use Rattle.element_declarations.specs.inside.Keys.{IsFound, AreRead};
ghost use Rattle.element_declarations.specs.inside.Firsts as spec;

use crate::properties::{Properties, properties_of};
use crate::set::ElementSet;
use simple_types::SimpleTypes;
use std::alloc::{AllocError, Global};
use std::collections::HashMap;
use xs_components::ElementId;

// The number that was noted for some properties.
fn number_of(firsts: &HashMap<Properties, u32>, own: &Properties) -> Option<u32>
    ensures { result ≡ get (⟦<Properties as PartialEq>⟧.eq) firsts.now own.now }
{
    firsts.get(own).copied()
}

// The number that was noted for some properties, which is this one where there was none.
fn first_with(
    firsts: &mut HashMap<Properties, u32>,
    own: Properties,
    number: u32,
) -> Result<u32, AllocError>
    ensures { IfOk result (spec.Notes (get (⟦<Properties as PartialEq>⟧.eq) firsts.old) (get (⟦<Properties as PartialEq>⟧.eq) firsts.new) own number) }
{
    match number_of(firsts, &own) {
        Some(first) => Ok(first),
        None => {
            firsts.insert(own, number)?;
            Ok(number)
        }
    }
}

/// The class of the next declaration, which is noted where it is the first with its properties.
pub(crate) fn class_of(
    alloc: Global,
    set: &ElementSet<'_>,
    types: &mut SimpleTypes,
    id: ElementId,
    firsts: &mut HashMap<Properties, u32>,
) -> Result<u32, AllocError>
    requires found { IsFound set.now }
    requires read { AreRead set.now.parts.now types.old }
    requires there { id < length set.now.parts.now.elements.parts }
    requires noted { spec.AreNoted set.now.parts.now id (get (⟦<Properties as PartialEq>⟧.eq) firsts.old) }
    ensures class { IfOk result (IsClassOf set.now.parts.now id) }
    ensures noted { OnOk result (spec.AreNoted set.now.parts.now (id + 1) (get (⟦<Properties as PartialEq>⟧.eq) firsts.new)) }
    ensures same { types.new ≡ types.old }
{
    match properties_of(alloc, set, types, id)? {
        None => Ok(id.number()),
        Some(own) => first_with(firsts, own, id.number()),
    }
}
