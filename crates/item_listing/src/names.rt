ghost use Rattle.std.specs.Prelude.{◌≡◌, ◌<◌, ◌≤◌, IfOk, IfSome, OnOk, vec_len};

use std::alloc::{AllocError, Global};
use xs_names::Text;

/// So many names are kept at most, each in a place that its characters give it.
const PLACES: usize = 256;

/// The names that came of late. One that comes again shares the characters of the one before, where none came since that has its place.
#[derive(Drop)]
pub struct RecentNames {
    alloc: Global,
    places: Vec<Option<Text>>,
}

/// The place of a name.
fn place_of(name: &str) -> usize
    ensures { result < 256 }
{
    let mut mixed = 0u8;
    for byte in name.as_bytes() {
        mixed = mixed.wrapping_mul(31).wrapping_add(*byte);
    }
    mixed as usize
}

impl RecentNames {
    /// No names.
    pub fn new(alloc: Global) -> Self {
        RecentNames {
            alloc,
            places: Vec::new(alloc),
        }
    }

    /// The memory that texts take.
    pub fn alloc(&self) -> Global {
        self.alloc
    }

    /// Makes all places, where they are not there.
    fn make_places(&mut self) -> Result<(), AllocError>
        ensures { OnOk result (256 ≤ vec_len self.new.places) }
    {
        while self.places.len() < PLACES {
            self.places.push(None)?;
        }
        Ok(())
    }

    /// The name in a place, if it has these characters.
    fn known(&self, place: usize, name: &str) -> Option<&Text>
        requires { place < vec_len self.now.places }
        ensures { IfSome result (λ known. known.now ≡ name.now) }
    {
        match &self.places[place] {
            Some(known) if known.as_str() == name => Some(known),
            _ => None,
        }
    }

    /// A text of these characters.
    pub fn text(&mut self, name: &str) -> Result<Text, AllocError>
        ensures { IfOk result (λ t. t ≡ name.now) }
    {
        self.make_places()?;
        let place = place_of(name);
        if let Some(known) = self.known(place, name) {
            return known.try_clone();
        }
        let text = Text::new(self.alloc, name)?;
        self.places[place] = Some(text.try_clone()?);
        Ok(text)
    }
}
