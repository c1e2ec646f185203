//! The content models of all types of a schema set: whether the declarations of each agree, whether each attributes a child to one particle; the limits on all groups.
#![tactic(auto)]

mod agreement;
mod checks;
mod consistency;
mod fault;
mod faults;
mod filling;
mod finding;
mod found;
mod judging;
mod laws;
mod limit_order;
mod limits;
mod models;
mod order;
mod places;
mod standing;
mod whole;

pub use checks::{check, judge};
pub use consistency::consistent;
pub use fault::ModelFault;
pub use laws::models_keep_as_names_are_added;
pub use limits::first_unlimited;
pub use models::Models;
pub use whole::build_models;
