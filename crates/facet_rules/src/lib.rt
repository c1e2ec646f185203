//! The rules that the facets of one step of restriction keep among themselves and with those in force for its base, and what
#![tactic(auto)]

mod applicable;
mod bound_rules;
mod count_rules;
mod defects;
mod first;
mod merge;
mod read;
mod step;
mod texts;

pub use applicable::{Family, family_of, fits};
pub use first::{noted, sooner};
pub use merge::{Judged, judge, restricted};
pub use read::{FacetRead, push_read};
pub use step::{ReadFacet, ReadFacets, ReadStep, Reading};
pub use texts::read_text;
