//! The first fault of phase 9.

ghost use Rattle.std.specs.Prelude.{◌≡◌, IfOk};
ghost use Rattle.derive_models.specs.ModelFaults.{AreKnown, AreRead, IsFirstModelFault};

use crate::{Derivations, ModelSet, first_restriction_fault, fixed_numbers};
use redefine_names::RedefinedPair;
use simple_types::SimpleTypes;
use std::alloc::{AllocError, Global};
use xs_codes::Fault;

/// The first complex type whose content model its base does not allow (Structures 3.4.6, Derivation Valid (Restriction, Complex),
/// 5.4.2): a restriction with complexContent, whose base is not anyType, and whose particle is no valid restriction of the base's
/// (3.9.6), with the code of the case of the two particles; or model group definition that redefines another without a reference
/// to itself, and whose model group is no valid restriction of that of the other (src-redefine.6.2.2). `pairs` has the numbers of
/// these and of what they redefine.
///
/// # Errors
///
/// `AllocError` is want of memory.
pub fn first_model_fault(
    alloc: Global,
    set: &ModelSet<'_>,
    pairs: &[RedefinedPair],
    types: &mut SimpleTypes,
) -> Result<Option<Fault>, AllocError>
    requires known { AreKnown set.now }
    requires read { AreRead set.now.parts.now types.old }
    ensures first { IfOk result (IsFirstModelFault set.now.parts.now set.now.names.now set.now.members.now pairs.now) }
    ensures same { types.new ≡ types.old }
{
    let fixed = fixed_numbers(alloc, set.parts, set.declarations, set.contents, types)?;
    let derivations = Derivations::of(alloc, set.parts, set.declarations)?;
    first_restriction_fault(alloc, set, &fixed, pairs, &derivations)
}
