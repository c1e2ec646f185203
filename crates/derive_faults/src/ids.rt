//! Attribute declarations of types of IDs.

ghost use Rattle.std.specs.Prelude.{◌≡◌, ℕ, Some, slice_get, IfOk};
ghost use Rattle.xs_components.specs.declared.attribute.AttributeDecl.{AttributeDecl};
ghost use Rattle.component_references.specs.Heights.{IsType};
ghost use Rattle.component_references.specs.Ranked.{IsRanked};
ghost use Rattle.type_derivation.specs.Within.{AreSimple};
ghost use Rattle.derive_faults.specs.AttrFaults as spec;

use crate::no_methods;
use std::alloc::{AllocError, Global};
use type_derivation::Within;
use xs_codes::Builtin;
use xs_components::{Components, TypeId};
use xs_lists::Listed;

/// Which attribute declarations are of a type that is or derives from ID, by their numbers.
///
/// # Errors
///
/// `AllocError` is want of memory.
pub fn id_marks(alloc: Global, parts: &Components) -> Result<Listed<bool>, AllocError>
    requires ranked { IsRanked parts.now }
    requires simple { AreSimple parts.now }
    requires types { (n : ℕ) (decl : AttributeDecl) → slice_get parts.now.attributes.parts n ≡ Some decl → IsType parts.now decl.of }
    ensures marks { IfOk result (spec.AreIdMarks parts.now) }
{
    let within = Within::of(alloc, parts, TypeId::Builtin(Builtin::Id))?;
    let none = no_methods();
    let mut marks = Listed::new(alloc);
    for decl in parts.attributes() {
        marks.push(within.derives(parts, decl.of, &none))?;
    }
    Ok(marks)
}
