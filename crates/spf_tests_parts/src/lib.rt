//! Tests of single crates: texts, files, ranges, formats, the words of the command line,
//! predictors, runs in order, and plans. They have a crate of their own, since a crate with tests
//! is proved twice. What a command line shows is a row of `spf_examples/data/answers.txt`.
#![tactic(auto)]

#[cfg(test)]
mod edge;
#[cfg(test)]
mod formats;
#[cfg(test)]
mod host_words;
#[cfg(test)]
mod parsing;
#[cfg(test)]
mod pieces;
#[cfg(test)]
mod planning;
#[cfg(test)]
mod predictors;
#[cfg(test)]
mod region;
#[cfg(test)]
mod text;
#[cfg(test)]
mod usage;
