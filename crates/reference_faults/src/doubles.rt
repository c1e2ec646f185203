ghost use Rattle.std.specs.Prelude.{◌≡◌};
ghost use Rattle.reference_faults.specs.Doubles as spec;

use component_tables::Symbols;
use representations::SymbolSpaces;
use xs_names::NameId;

// Whether a name stands before a place.
fn is_earlier(symbols: &Symbols, name: Option<NameId>, place: usize) -> bool
    ensures { result ≡ spec.is_earlier symbols.now name place }
{
    let Some(name) = name else {
        return false;
    };
    match symbols.first(name) {
        None => false,
        Some(first) => (first as usize) < place,
    }
}

// Whether the name of a place stands before it too.
fn is_later_one(symbols: &Symbols, place: usize) -> bool
    ensures { result ≡ spec.is_later_one symbols.now place }
{
    match symbols.names().get(place) {
        None => false,
        Some(name) => is_earlier(symbols, *name, place),
    }
}

/// Whether an earlier component of the same symbol space has the name of a place.
pub(crate) fn is_double(spaces: &SymbolSpaces, place: usize) -> bool
    ensures { result ≡ spec.is_double spaces.now place }
{
    is_later_one(&spaces.types, place)
        || is_later_one(&spaces.elements, place)
        || is_later_one(&spaces.attributes, place)
        || is_later_one(&spaces.groups, place)
        || is_later_one(&spaces.attr_groups, place)
        || is_later_one(&spaces.constraints, place)
}
