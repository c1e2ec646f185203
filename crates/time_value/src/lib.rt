//! The moments and durations of XML Schema's built-in types.
#![tactic(auto)]

mod digits;
mod duration;
mod fault;
mod literal;
mod moment;
mod reference;
mod span;

pub use fault::TimeFault;
pub use literal::MomentKind;
pub use moment::Moment;
pub use span::Span;
