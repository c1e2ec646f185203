//! The symbols that a term accepts.

ghost use Rattle.std.specs.Prelude.{◌≡◌, ℕ, ◌<◌, map, length, All, Contains, IfOk, ◌↔◌};
ghost use Rattle.std.specs.List.Sorted.{IsStrictlyIncreasing};
ghost use Rattle.xs_names.specs.Numbering.{HasNoRepeats};
ghost use Rattle.content_automaton.specs.declared.symbol_terms.Given.{Given as GivenData};
ghost use Rattle.content_automaton.specs.declared.rows.Entry.{Entry as EntryData};
ghost use Rattle.content_automaton.specs.Terms.{names_of, spaces_of};
ghost use Rattle.content_automaton.specs.Symbols.{AreNamesOf, count_of};
ghost use Rattle.content_automaton.specs.Rows.{IsRow, entry_of, AreAdmitted, AreSymbolsIn};

use crate::spaces::listed_spaces;
use crate::symbol_terms::{Accepts, Given};
use crate::symbols::Symbols;
use std::alloc::{AllocError, Global};
use xs_components::NsConstraint;
use xs_lists::Listed;
use xs_names::Names;

/// A symbol that a term accepts, and the class of what it then gives.
#[derive(Clone, Copy)]
pub(crate) struct Entry {
    pub(crate) symbol: u32,
    pub(crate) class: u32,
}

/// The symbols that a term of the model accepts, each with the class of what it then gives.
pub(crate) fn row_of(
    alloc: Global,
    symbols: &Symbols,
    names: &Names,
    term: &Accepts,
) -> Result<Vec<Entry>, AllocError>
    requires within { AreNamesOf names.now symbols.now.names }
    requires own_names { All (Contains symbols.now.names) (names_of term.now) }
    requires own_spaces { All (Contains symbols.now.spaces) (spaces_of term.now) }
    ensures gives { IfOk result (λ row. HasNoRepeats names.now.names → IsRow names.now symbols.now term.now row.items) }
    ensures below { IfOk result (λ row. All (λ (e : EntryData). e.symbol < count_of symbols.now) row.items) }
{
    match term {
        Accepts::Element(given) => element_row(alloc, symbols, names, given.as_slice()),
        Accepts::Wildcard(namespaces, class) => {
            wildcard_row(alloc, symbols, names, namespaces, *class)
        }
    }
}

fn element_row(
    alloc: Global,
    symbols: &Symbols,
    names: &Names,
    given: &[Given],
) -> Result<Vec<Entry>, AllocError>
    requires within { AreNamesOf names.now symbols.now.names }
    requires own_names { All (Contains symbols.now.names) (map (λ (g : GivenData). g.name) given.now) }
    ensures { IfOk result (λ row. row.items ≡ map (entry_of names.now symbols.now) given.now) }
{
    let mut row = Vec::new(alloc);
    for one in given {
        let symbol = symbols.symbol(names, one.name);
        let class = one.class;
        row.push(Entry { symbol, class })?;
    }
    Ok(row)
}

fn wildcard_row(
    alloc: Global,
    symbols: &Symbols,
    names: &Names,
    namespaces: &NsConstraint,
    class: u32,
) -> Result<Vec<Entry>, AllocError>
    requires { AreNamesOf names.now symbols.now.names }
    ensures { IfOk result (λ row. AreAdmitted names.now symbols.now namespaces.now class (count_of symbols.now) row.items) }
{
    let listed = listed_spaces(alloc, namespaces)?;
    let mut row = Vec::new(alloc);
    for symbol in 0..symbols.count() {
        if symbols.is_admitted(names, namespaces, &listed, symbol) {
            row.push(Entry { symbol, class })?;
        }
    }
    Ok(row)
}

/// The symbols of a row, each once, rising.
pub(crate) fn accepted_of(alloc: Global, row: &[Entry]) -> Result<Listed<u32>, AllocError>
    ensures members { IfOk result (AreSymbolsIn row.now) }
    ensures below { IfOk result (λ list. (m : ℕ) → All (λ (e : EntryData). e.symbol < m) row.now → All (λ n. n < m) list) }
    ensures rises { IfOk result IsStrictlyIncreasing }
{
    let mut list = Vec::new(alloc);
    for entry in row {
        list.push(entry.symbol)?;
    }
    sort_unique(&mut list);
    Ok(Listed::from_vec(list))
}

/// Brings the numbers in order, each of them once.
pub(crate) fn sort_unique(list: &mut Vec<u32>)
    ensures rises { IsStrictlyIncreasing list.new.items }
    ensures members { (p : ℕ) → Contains list.new.items p ↔ Contains list.old.items p }
{
    list.sort_unstable();
    list.dedup();
}
