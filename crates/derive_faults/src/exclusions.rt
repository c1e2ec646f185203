ghost use Rattle.std.specs.Prelude.{◌≡◌, ◌<◌, ◌↔◌, ℕ, length, slice_get, IfOk, IfSome, IsTrue, Some};
ghost use Rattle.xs_components.specs.Tables.{Tables};
ghost use Rattle.xs_components.specs.declared.element.ElementDecl.{ElementDecl as Declared};
ghost use Rattle.xs_codes.specs.Least.{IsLeast};
ghost use Rattle.component_references.specs.Heights.{IsType};
ghost use Rattle.component_references.specs.Ranked.{IsRanked};
ghost use Rattle.component_tables.specs.Types.{AreDeclarationsOf, type_of};
ghost use Rattle.type_derivation.specs.Chains.{Derives};
ghost use Rattle.type_derivation.specs.Within.{AreSimple};
ghost use Rattle.derive_faults.specs.Exclusions as spec;

use component_tables::Declarations;
use std::alloc::{AllocError, Global};
use type_derivation::derives;
use xs_codes::{Code, Fault, sooner};
use xs_components::{Components, ElementId, Place};

// The phase of compiling that looks at derivation.
const PHASE: u8 = 7;

// The fault of a declaration at a place.
fn exclusion_fault(at: Place) -> Fault
    ensures { result ≡ spec.exclusion_fault at }
{
    Fault {
        phase: PHASE,
        document: at.document,
        item: at.item,
        code: Code::EPropsCorrect4,
    }
}

// Whether the type of an element derives from that of a head without what the head excludes.
fn is_derived(
    alloc: Global,
    parts: &Components,
    declarations: &Declarations,
    element: ElementId,
    head: ElementId,
) -> Result<bool, AllocError>
    requires ranked { IsRanked parts.now }
    requires simple { AreSimple parts.now }
    requires types { (n : ℕ) (part : Declared) → slice_get parts.now.elements.parts n ≡ Some part → IfSome part.of (IsType parts.now) }
    requires declarations { AreDeclarationsOf parts.now declarations.now }
    requires there { head < length parts.now.elements.parts }
    ensures { IfOk result (λ answer. IsTrue answer ↔ Derives parts.now (spec.exclusions parts.now head) (type_of parts.now element) (type_of parts.now head)) }
{
    let base = declarations.type_of(head);
    let sub = declarations.type_of(element);
    let excluded = &parts.element(head).finals;
    derives(alloc, parts, declarations.bases(), sub, base, excluded)
}

// The fault of a declaration, if its type is excluded by its head.
fn fault_of(
    alloc: Global,
    parts: &Components,
    declarations: &Declarations,
    element: ElementId,
) -> Result<Option<Fault>, AllocError>
    requires ranked { IsRanked parts.now }
    requires simple { AreSimple parts.now }
    requires types { (n : ℕ) (part : Declared) → slice_get parts.now.elements.parts n ≡ Some part → IfSome part.of (IsType parts.now) }
    requires declarations { AreDeclarationsOf parts.now declarations.now }
    requires there { element < length parts.now.elements.parts }
    ensures { IfOk result (IsLeast (spec.IsExcludedAt parts.now element)) }
{
    let part = parts.element(element);
    let Some(head) = part.head else {
        return Ok(None);
    };
    if is_derived(alloc, parts, declarations, element, head)? {
        return Ok(None);
    }
    Ok(Some(exclusion_fault(part.at)))
}

/// The first declaration whose type does not derive from the type of its head without the methods that the head excludes
/// (e-props-correct.4). `declarations` are those of the components.
///
/// # Errors
///
/// `AllocError` is want of memory.
pub fn first_excluded(
    alloc: Global,
    parts: &Components,
    declarations: &Declarations,
) -> Result<Option<Fault>, AllocError>
    requires ranked { IsRanked parts.now }
    requires simple { AreSimple parts.now }
    requires types { (n : ℕ) (part : Declared) → slice_get parts.now.elements.parts n ≡ Some part → IfSome part.of (IsType parts.now) }
    requires declarations { AreDeclarationsOf parts.now declarations.now }
    ensures least { IfOk result (IsLeast (spec.IsExcluded parts.now)) }
{
    let mut best = None;
    let mut number = 0;
    while let Some(element) = parts.element_at(number) {
        let found = fault_of(alloc, parts, declarations, element)?;
        best = sooner(best, found);
        number += 1;
    }
    Ok(best)
}
