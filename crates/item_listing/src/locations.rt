ghost use Rattle.std.specs.Prelude.{◌≡◌, IfOk};
ghost use Rattle.item_listing.specs.Locations.{between_tabs};

use crate::Locations;
use std::alloc::{AllocError, Global};
use xs_names::{Text, Texts};

/// The locations that tabs part; there is at least one, which may be empty.
pub fn read_locations(alloc: Global, text: &str) -> Result<Locations, AllocError>
    ensures { IfOk result (λ locations. locations ≡ between_tabs text.now) }
{
    let mut locations = Texts::new(alloc);
    let mut rest = text;
    'tabs: while let Some((front, after)) = rest.split_once('\t') {
        locations.push(Text::new(alloc, front)?)?;
        rest = after;
    }
    locations.push(Text::new(alloc, rest)?)?;
    Ok(locations)
}
