//! The first fault of value constraints.

ghost use Rattle.std.specs.Prelude.{◌≡◌, IfOk};
ghost use Rattle.xs_codes.specs.Least.{IsLeast};
ghost use Rattle.component_tables.specs.ContentTypes.{AreContentsOf};
ghost use Rattle.component_tables.specs.Types.{AreDeclarationsOf};
ghost use Rattle.derive_faults.specs.Given.{AreGiven, AreRead, IsFound};
ghost use Rattle.derive_faults.specs.ValueFaults as spec;

use crate::attributes::first_of_attributes;
use crate::elements::first_of_elements;
use crate::set::ValueSet;
use component_tables::{ContentTypes, Declarations};
use particle_forms::Ranges;
use simple_types::SimpleTypes;
use std::alloc::{AllocError, Global};
use type_derivation::Within;
use xs_codes::{Builtin, Fault, sooner};
use xs_components::{Components, TypeId};

/// The phase of compiling that looks at attributes and value constraints.
pub(crate) const PHASE: u8 = 6;

// The first fault of attributes and of elements.
fn first_of_both(
    alloc: Global,
    set: &ValueSet<'_>,
    types: &mut SimpleTypes,
) -> Result<Option<Fault>, AllocError>
    requires found { IsFound set.now }
    requires read { AreRead set.now.parts.now types.old }
    ensures least { IfOk result (IsLeast (spec.IsValueFault set.now.parts.now)) }
    ensures same { types.new ≡ types.old }
{
    let of_attributes = first_of_attributes(alloc, set, types)?;
    let of_elements = first_of_elements(alloc, set, types)?;
    Ok(sooner(of_attributes, of_elements))
}

/// The first fault of the value constraints of attribute declarations, attribute uses and element declarations: a text that is
/// not valid (a-props-correct.2, e-props-correct.2) or passes a limit (x-limit.value), a constraint on a type of IDs
/// (a-props-correct.3, e-props-correct.5), a fixed value that a use does not keep (au-props-correct.2), a constraint on an element
/// whose content is neither simple nor mixed (cos-valid-default.2.1), or mixed and not emptiable (cos-valid-default.2.2.2). The
/// declarations, content types and simple types are those of the components.
///
/// # Errors
///
/// `AllocError` is want of memory.
pub fn first_value_fault(
    alloc: Global,
    parts: &Components,
    declarations: &Declarations,
    contents: &ContentTypes,
    types: &mut SimpleTypes,
) -> Result<Option<Fault>, AllocError>
    requires given { AreGiven parts.now }
    requires read { AreRead parts.now types.old }
    requires declarations { AreDeclarationsOf parts.now declarations.now }
    requires contents { AreContentsOf parts.now contents.now }
    ensures least { IfOk result (IsLeast (spec.IsValueFault parts.now)) }
    ensures same { types.new ≡ types.old }
{
    let ranges = Ranges::of(alloc, parts)?;
    let ids = Within::of(alloc, parts, TypeId::Builtin(Builtin::Id))?;
    let set = ValueSet {
        parts,
        declarations,
        contents,
        ranges: &ranges,
        ids: &ids,
    };
    first_of_both(alloc, &set, types)
}
