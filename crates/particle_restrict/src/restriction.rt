//! Whether a particle restricts another.

ghost use Rattle.std.specs.Prelude.{◌↔◌, All, IfOk, IfErr, IsTrue};
ghost use Rattle.particle_models.specs.Parts.{IsForm, form_in};
ghost use Rattle.particle_restrict.specs.Restricts.{FormRestricts};
ghost use Rattle.particle_restrict.specs.Codes.{code_of, form_case, IsFault};
ghost use Rattle.particle_restrict.specs.Tables.{HasType};

use crate::cases::case_of_forms;
use crate::cells::{Sides, cell_at, cells_of};
use crate::terms::{Derivation, Term};
use crate::totals::{total_at, totals_of};
use particle_models::Form;
use std::alloc::{AllocError, Global};
use xs_codes::Code;

/// Why it is not said that a particle restricts another.
#[derive(Drop)]
pub enum RestrictFault {
    /// It does not: the code of the case of the two particles.
    Broken(Code),
    /// Memory ran out.
    Memory,
}

/// Whether a particle without pointless groups is a valid restriction of another (Structures 3.9.6, Particle Valid
/// (Restriction)). `terms` has the declarations and wildcards by the numbers of the leaves of both.
///
/// # Errors
/// `Broken` with the code of the case of the two particles, where the one does not restrict the other. `Memory` where memory
/// runs out.
pub fn restricts<T: Derivation>(
    alloc: Global,
    derived: &Form,
    base: &Form,
    terms: &[Term],
    types: &T,
) -> Result<(), RestrictFault>
    requires derived { IsForm derived.now.parts.items derived.now.root }
    requires base { IsForm base.now.parts.items base.now.root }
    requires valid { T.is_valid types.now }
    requires types { All (HasType (T.is_type types.now)) terms.now }
    ensures ok { IfOk result (λ done. FormRestricts terms.now (T.derives types.now) (form_in derived.now.parts.items derived.now.root) (form_in base.now.parts.items base.now.root)) }
    ensures broken { IfErr result (IsFault (FormRestricts terms.now (T.derives types.now) (form_in derived.now.parts.items derived.now.root) (form_in base.now.parts.items base.now.root))
        (code_of (form_case terms.now (form_in derived.now.parts.items derived.now.root) (form_in base.now.parts.items base.now.root)))) }
{
    let Ok(fits) = form_restricts(alloc, derived, base, terms, types) else {
        return Err(RestrictFault::Memory);
    };
    if fits {
        return Ok(());
    }
    Err(RestrictFault::Broken(case_of_forms(derived, base, terms).code()))
}

/// Whether a particle restricts another; either may be none.
fn form_restricts<T: Derivation>(
    alloc: Global,
    derived: &Form,
    base: &Form,
    terms: &[Term],
    types: &T,
) -> Result<bool, AllocError>
    requires derived { IsForm derived.now.parts.items derived.now.root }
    requires base { IsForm base.now.parts.items base.now.root }
    requires valid { T.is_valid types.now }
    requires types { All (HasType (T.is_type types.now)) terms.now }
    ensures { IfOk result (λ fits. IsTrue fits ↔ FormRestricts terms.now (T.derives types.now) (form_in derived.now.parts.items derived.now.root) (form_in base.now.parts.items base.now.root)) }
{
    let Some(b) = base.root else {
        return Ok(derived.root.is_none());
    };
    let base_totals = totals_of(alloc, &base.parts)?;
    let Some(d) = derived.root else {
        return Ok(total_at(&base_totals, b).may_be_nothing());
    };
    if derived.parts.len() > u32::MAX as usize {
        return Err(AllocError);
    }
    let totals = totals_of(alloc, &derived.parts)?;
    let sides = Sides {
        types,
        terms,
        derived: &derived.parts,
        base: &base.parts,
        totals: &totals,
        base_totals: &base_totals,
    };
    let cells = cells_of(alloc, &sides)?;
    Ok(cell_at(&cells, base.parts.len(), d, b).restricts)
}
