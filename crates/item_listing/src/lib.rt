//! The items of a listing, from its bytes.
//!
//! A stream is lines in UTF-8, each ended by a line feed. A line is one item: the start of an element, an
//! attribute, characters, the end of an element, a processing instruction, a section word or a command.
//! Nothing follows the line `end`. A stream has at most 67,108,864 bytes, and a line at most 1,048,576 before
//! its line feed: the first byte past a limit is refused at its line.
#![tactic(auto)]

mod escape;
mod item;
mod limits;
mod line;
mod listing;
mod locations;
mod names;
mod past;

pub use escape::unescape;
pub use item::{Item, Items, Locations, Reason};
pub use limits::{MOST_BYTES, MOST_LINE};
pub use line::read_item;
pub use listing::{Listing, faults_stay, lines_are_cut};
pub use past::ListingFault;
