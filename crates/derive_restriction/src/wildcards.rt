//! The attribute wildcard of a restriction against that of its base.

ghost use Rattle.std.specs.Prelude.{◌≡◌, Some};
ghost use Rattle.std.specs.Option.{option_copied};
ghost use Rattle.derive_faults.specs.TypeFaults.{IsFirstCode};
ghost use Rattle.derive_restriction.specs.Wildcards as spec;

use derive_faults::{earlier, when, when_not};
use xs_codes::Code;
use xs_components::{Process, Wildcard};

// Whether what is admitted is assessed less strictly.
fn is_weaker(process: Process, base: Process) -> bool
    ensures { result ≡ spec.is_weaker process base }
{
    match process {
        Process::Strict => false,
        Process::Lax => base == Process::Strict,
        Process::Skip => base != Process::Skip,
    }
}

// The first code of a wildcard against another.
fn both_code(of_any_type: bool, own: &Wildcard, base: &Wildcard) -> Option<Code>
    ensures first { IsFirstCode (spec.BreaksWildcard of_any_type (Some own.now) (Some base.now)) result }
{
    let within = own.namespaces.subset(&base.namespaces);
    let weaker = is_weaker(own.process, base.process);
    earlier(
        when(!within, Code::DerivationOkRestriction4_2),
        when_not(weaker, of_any_type, Code::DerivationOkRestriction4_3),
    )
}

/// The first code of the wildcard of a type against that of its base.
pub(crate) fn wildcard_code(
    of_any_type: bool,
    own: Option<&Wildcard>,
    base: Option<&Wildcard>,
) -> Option<Code>
    ensures first { IsFirstCode (spec.BreaksWildcard of_any_type (option_copied own.entry) (option_copied base.entry)) result }
{
    match own {
        None => None,
        Some(own) => match base {
            None => Some(Code::DerivationOkRestriction4_1),
            Some(base) => both_code(of_any_type, own, base),
        },
    }
}
