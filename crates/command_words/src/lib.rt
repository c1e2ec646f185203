//! The words of the program's command line, and what they ask for.
#![tactic(auto)]

mod grammar;
mod laws;
mod number;
mod parsing;
mod request;
mod words;

pub use laws::the_rest_is_positional;
pub use request::{Request, Task, USUAL_MOST};
pub use words::{WordsFault, read_words};
