//! Tests of batches, of lists of names, and of machines' texts. They are a crate of their own,
//! since a crate with tests is proved twice.
#![tactic(auto)]

#[cfg(test)]
mod batches;
#[cfg(test)]
mod lists;
#[cfg(test)]
mod machines;
