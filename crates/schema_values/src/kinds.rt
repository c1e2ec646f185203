ghost use Rattle.std.specs.Prelude.{◌≡◌, IfOk};
ghost use Rattle.xs_names.specs.WhiteSpace.{items};
ghost use Rattle.schema_values.specs.Fits as spec;
ghost use Rattle.schema_values.specs.Names.{are_qnames};

use crate::names::are_qnames;
use crate::values::is_positive;
use crate::words::{is_set, is_word};
use crate::{ValueKind, boolean_of, digits_of, qname_of};
use std::alloc::{AllocError, Global};
use tag_names::Prefixes;
use xs_names::{WhiteSpace, is_ncname, items, normalized};

/// Whether the text is a list of QNames whose prefixes are bound.
fn are_names(alloc: Global, scope: &Prefixes, text: &str) -> Result<bool, AllocError>
    ensures { IfOk result (λ found. found ≡ are_qnames scope.now (items text.now)) }
{
    let words = items(alloc, text)?;
    are_qnames(alloc, scope, words.as_slice())
}

/// Whether a text, its white space collapsed, is a value of the kind.
fn fits_collapsed(
    alloc: Global,
    scope: &Prefixes,
    kind: ValueKind,
    text: &str,
) -> Result<bool, AllocError>
    ensures { IfOk result (λ found. found ≡ spec.fits_collapsed scope.now kind text.now) }
{
    match kind {
        ValueKind::NcName => Ok(is_ncname(text)),
        ValueKind::QName => Ok(qname_of(alloc, scope, text)?.is_some()),
        ValueKind::QNames => are_names(alloc, scope, text),
        ValueKind::Boolean => Ok(boolean_of(text).is_some()),
        ValueKind::Form => Ok(is_word(kind, text)),
        ValueKind::Use => Ok(is_word(kind, text)),
        ValueKind::Process => Ok(is_word(kind, text)),
        ValueKind::Digits => Ok(digits_of(text).is_some()),
        ValueKind::Bound => Ok(text == "unbounded" || digits_of(text).is_some()),
        ValueKind::Block => is_set(alloc, kind, text),
        ValueKind::ComplexFinal => is_set(alloc, kind, text),
        ValueKind::SimpleFinal => is_set(alloc, kind, text),
        ValueKind::AnyFinal => is_set(alloc, kind, text),
        _ => Ok(true),
    }
}

/// Whether a text is a value of the kind, where these bindings are in scope.
///
/// # Errors
///
/// `AllocError` is want of memory.
pub fn fits(
    alloc: Global,
    scope: &Prefixes,
    kind: ValueKind,
    text: &str,
) -> Result<bool, AllocError>
    ensures { IfOk result (λ found. found ≡ spec.fits scope.now kind text.now) }
{
    match kind {
        ValueKind::Raw => Ok(true),
        ValueKind::FacetDigits => Ok(digits_of(text).is_some()),
        ValueKind::PositiveDigits => Ok(is_positive(digits_of(text))),
        ValueKind::WhiteSpace => Ok(is_word(kind, text)),
        _ => {
            let collapsed = normalized(alloc, WhiteSpace::Collapse, text)?;
            fits_collapsed(alloc, scope, kind, collapsed.as_str())
        }
    }
}
