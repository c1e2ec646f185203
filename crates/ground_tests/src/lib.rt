//! Tests of the ground, and of the summary of children by the members of an all.
#![tactic(auto)]

#[cfg(test)]
mod held;
#[cfg(test)]
mod list_held;
#[cfg(test)]
mod list_tests;
#[cfg(test)]
mod lists;
#[cfg(test)]
mod members;
#[cfg(test)]
mod nothing;
#[cfg(test)]
mod rows;
