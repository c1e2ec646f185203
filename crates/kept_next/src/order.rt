ghost use Rattle.std.specs.Prelude.{◌+◌, ◌-◌, ◌<◌, ◌^◌, All, length, IfOk};
ghost use Rattle.kept_next.specs.Order.{IsOrderOf};

use crate::SymbolName;
use crate::listing::list_symbols;
use crate::sorting::{sort_symbols, symbols_of};
use std::alloc::{AllocError, Global};
use xs_lists::Listed;
use xs_names::{NameId, Names, NsId};

/// A symbol of a content model: its number by the automaton, and what it stands for.
#[derive(Clone, Copy)]
pub struct Symbol {
    pub number: u32,
    pub name: SymbolName,
}

/// The symbols of a content model in the order in which they are printed: names by namespace, the absent one first, and local part;
/// then the namespaces in that order; then the one of all other names. `own` are the names with symbols of their own and `spaces` the
/// namespaces with one, in the order of their numbers: first those of names, then those of namespaces, then the one more.
pub fn symbol_order(
    alloc: Global,
    names: &Names,
    own: &[NameId],
    spaces: &[NsId],
) -> Result<Listed<Symbol>, AllocError>
    requires few { length own.now + length spaces.now < 2 ^ 32 - 1 }
    requires names { All (λ name. name < length names.now.names) own.now }
    requires spaces { All (λ space. space < length names.now.spaces) spaces.now }
    ensures { IfOk result (IsOrderOf names.now own.now spaces.now) }
{
    let mut listed = list_symbols(alloc, names, own, spaces)?.into_vec();
    sort_symbols(&mut listed)?;
    symbols_of(alloc, &listed)
}
