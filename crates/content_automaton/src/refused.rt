//! Why there is no automaton.

/// Why a model has no automaton.
#[derive(Clone, Copy)]
pub enum BuildError {
    /// There are more than 2,048 states.
    TooManyStates,
    /// States times symbols are more than the cells that are left.
    TableTooLarge,
}
