//! What is broken of a content model.

/// What is broken of a content model.
#[derive(Clone, Copy)]
pub enum ModelFault {
    /// There are more than 2,048 positions (x-limit.positions).
    TooManyPositions,
    /// There are more than 2,048 states (x-limit.states).
    TooManyStates,
    /// States times symbols are more than the cells that are left (x-limit.table).
    TableTooLarge,
    /// Terms of one name have different types (cos-element-consistent).
    Inconsistent,
    /// Words with the same names end at different places (cos-nonambig).
    Ambiguous,
}
