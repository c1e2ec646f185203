//! The symbols in the order of their numbers.

ghost use Rattle.std.specs.Prelude.{◌≡◌, ◌+◌, ◌-◌, ◌<◌, ◌^◌, ◌++◌, [], All, length, map, slice_index_or, IfOk, OnOk};
ghost use Rattle.kept_next.specs.declared.symbol.SymbolName.TheVariants.{Name, Namespace};
ghost use Rattle.kept_next.specs.Order.{numbered, symbols_of};
ghost use Rattle.kept_next.specs.inside.Sorting.{HasTexts, symbol_of};

use crate::SymbolName;
use crate::order::Symbol;
use std::alloc::{AllocError, Global};
use xs_lists::Listed;
use xs_names::{NameId, Names, NsId};

/// A symbol with the name of its namespace and the local part that it is sorted by.
#[derive(Clone, Copy)]
pub(crate) struct ListedSymbol<'a> {
    pub symbol: Symbol,
    pub space: &'a str,
    pub local: &'a str,
}

/// All symbols, with the texts that they are sorted by.
pub(crate) fn list_symbols<'a>(
    alloc: Global,
    names: &'a Names,
    own: &[NameId],
    spaces: &[NsId],
) -> Result<Listed<ListedSymbol<'a>>, AllocError>
    requires few { length own.now + length spaces.now < 2 ^ 32 - 1 }
    requires names { All (λ name. name < length names.now.names) own.now }
    requires spaces { All (λ space. space < length names.now.spaces) spaces.now }
    ensures symbols { IfOk result (λ listed. map symbol_of listed ≡ symbols_of own.now spaces.now) }
    ensures texts { IfOk result (λ listed. All (HasTexts names.now) listed) }
{
    let mut listed = Listed::new(alloc);
    add_names(&mut listed, names, own)?;
    add_spaces(&mut listed, names, spaces, own.len() as u32)?;
    listed.push(ListedSymbol {
        symbol: Symbol {
            number: (own.len() + spaces.len()) as u32,
            name: SymbolName::Other,
        },
        space: "",
        local: "",
    })?;
    Ok(listed)
}

// Puts the symbols of names at the end.
fn add_names<'a>(
    listed: &mut Listed<ListedSymbol<'a>>,
    names: &'a Names,
    own: &[NameId],
) -> Result<(), AllocError>
    requires few { length own.now < 2 ^ 32 }
    requires names { All (λ name. name < length names.now.names) own.now }
    requires texts { All (HasTexts names.now) listed.old }
    ensures symbols { OnOk result (map symbol_of listed.new ≡ map symbol_of listed.old ++ numbered Name 0 own.now) }
    ensures texts { OnOk result (All (HasTexts names.now) listed.new) }
{
    for (number, name) in own.iter().enumerate() {
        listed.push(ListedSymbol {
            symbol: Symbol {
                number: number as u32,
                name: SymbolName::Name(*name),
            },
            space: space_name(names, names.ns(*name)),
            local: names.local(*name),
        })?;
    }
    Ok(())
}

// Puts the symbols of namespaces at the end, numbered from this one on.
fn add_spaces<'a>(
    listed: &mut Listed<ListedSymbol<'a>>,
    names: &'a Names,
    spaces: &[NsId],
    first: u32,
) -> Result<(), AllocError>
    requires few { first + length spaces.now < 2 ^ 32 }
    requires spaces { All (λ space. space < length names.now.spaces) spaces.now }
    requires texts { All (HasTexts names.now) listed.old }
    ensures symbols { OnOk result (map symbol_of listed.new ≡ map symbol_of listed.old ++ numbered Namespace first spaces.now) }
    ensures texts { OnOk result (All (HasTexts names.now) listed.new) }
{
    for (place, space) in spaces.iter().enumerate() {
        listed.push(ListedSymbol {
            symbol: Symbol {
                number: first + place as u32,
                name: SymbolName::Namespace(*space),
            },
            space: space_name(names, *space),
            local: "",
        })?;
    }
    Ok(())
}

// The name of a namespace, empty for the absent one.
fn space_name(names: &Names, space: NsId) -> &str
    requires { space < length names.now.spaces }
    ensures { result.now ≡ slice_index_or names.now.spaces space [] }
{
    match names.ns_text(space) {
        Some(name) => name,
        None => "",
    }
}
