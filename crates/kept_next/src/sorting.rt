//! Symbols by the texts that they are sorted by.

ghost use Rattle.std.specs.Prelude.{◌≡◌, map, IfOk, OnOk, IsPermutation, IsSortedBy};
ghost use Rattle.kept_next.specs.inside.Sorting as inside;
ghost use Rattle.kept_next.specs.inside.Sorting.{symbol_of};
ghost use Rattle.kept_next.specs.Order as spec;

use crate::SymbolName;
use crate::listing::ListedSymbol;
use crate::order::Symbol;
use std::alloc::{AllocError, Global};
use std::cmp::Ordering;
use xs_lists::Listed;

/// Puts the symbols in the order in which they are printed.
pub(crate) fn sort_symbols(listed: &mut Vec<ListedSymbol<'_>>) -> Result<(), AllocError>
    ensures same { IsPermutation listed.old.items listed.new.items }
    ensures sorted { OnOk result (IsSortedBy inside.is_text_before listed.new.items) }
{
    listed.sort_by(|a, b| by_texts(a, b))
}

/// The symbols alone.
pub(crate) fn symbols_of(
    alloc: Global,
    listed: &[ListedSymbol<'_>],
) -> Result<Listed<Symbol>, AllocError>
    ensures { IfOk result (λ symbols. symbols ≡ map symbol_of listed.now) }
{
    let mut symbols = Listed::new(alloc);
    for one in listed {
        symbols.push(one.symbol)?;
    }
    Ok(symbols)
}

// By kind, then by the name of the namespace, and then by the local part.
fn by_texts(a: &ListedSymbol<'_>, b: &ListedSymbol<'_>) -> Ordering
    ensures { result ≡ inside.text_order a.now b.now }
{
    let kinds = kind_of(&a.symbol.name).cmp(&kind_of(&b.symbol.name));
    kinds.then(a.space.cmp(b.space).then(a.local.cmp(b.local)))
}

// Names come first, then namespaces, then all other names.
fn kind_of(name: &SymbolName) -> u8
    ensures { result ≡ spec.kind_of name.now }
{
    match name {
        SymbolName::Name(_) => 0,
        SymbolName::Namespace(_) => 1,
        SymbolName::Other => 2,
    }
}
