//! What all terms of a model accept, by symbols.

ghost use Rattle.std.specs.Prelude.{◌≡◌, IfOk};
ghost use Rattle.content_automaton.specs.Symbols.{AreSymbolsOf, AreNamesOf};
ghost use Rattle.content_automaton.specs.Listed.{IsListing};

use crate::attribution::{Attribution, note_row};
use crate::rows::{accepted_of, row_of};
use crate::symbol_terms::Accepts;
use crate::symbols::Symbols;
use std::alloc::{AllocError, Global};
use xs_lists::Listed;
use xs_names::Names;

/// For each term of a model the symbols that it accepts, rising; and for each symbol what is attributed to its names.
#[derive(Drop)]
pub struct Listing {
    pub accepted: Vec<Listed<u32>>,
    pub attributions: Vec<Attribution>,
}

/// What these terms accept, by the symbols that they have.
pub fn list_terms(
    alloc: Global,
    symbols: &Symbols,
    names: &Names,
    terms: &[Accepts],
) -> Result<Listing, AllocError>
    requires symbols { AreSymbolsOf terms.now symbols.now }
    requires within { AreNamesOf names.now symbols.now.names }
    ensures { IfOk result (λ l. IsListing names.now symbols.now terms.now l.accepted.items l.attributions.items) }
{
    let count = symbols.count() as usize;
    let mut accepted = Vec::new(alloc);
    let mut attributions = vec![in alloc; Attribution::Nothing; count]?;
    for (number, term) in terms.iter().enumerate() {
        let row = row_of(alloc, symbols, names, term)?;
        let entries = row.as_slice();
        accepted.push(accepted_of(alloc, entries)?)?;
        note_row(&mut attributions, number, entries);
    }
    Ok(Listing {
        accepted,
        attributions,
    })
}
