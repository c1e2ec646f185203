//! Why a content model has no automaton.

/// Why a content model has no automaton.
#[derive(Clone, Copy)]
pub enum ModelError {
    /// There are more than 2,048 positions.
    TooManyPositions,
    /// There are more than 2,048 states.
    TooManyStates,
    /// States times symbols are more than the cells that are left.
    TableTooLarge,
}
