//! Tests of sessions: the one that keeps what it found beside the one that assesses the document anew after each edit.
#![tactic(auto)]

#[cfg(test)]
mod alike;
#[cfg(test)]
mod drawn;
#[cfg(test)]
mod opening;
#[cfg(test)]
mod random;
#[cfg(test)]
mod rows;
#[cfg(test)]
mod same;
#[cfg(test)]
mod steps;
