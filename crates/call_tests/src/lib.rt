//! Tests of public calls that the program does not make: on words, tags and trees, on values and tables of keys, on tables of components,
//! on the log of undo and redo, on turns of authors, and on generated streams.
#![tactic(auto)]

#[cfg(test)]
mod bases;
#[cfg(test)]
mod ids;
#[cfg(test)]
mod keys;
#[cfg(test)]
mod logs;
#[cfg(test)]
mod parts;
#[cfg(test)]
mod requests;
#[cfg(test)]
mod streams;
#[cfg(test)]
mod summaries;
#[cfg(test)]
mod tables;
#[cfg(test)]
mod tags;
#[cfg(test)]
mod trees;
#[cfg(test)]
mod turns;
#[cfg(test)]
mod values;
