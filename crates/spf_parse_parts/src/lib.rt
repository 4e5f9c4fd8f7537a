//! The parsers of the grammar's parts: expressions, rows, statements, functions and arrays.
//!
//! Each reads one part from the front of some tokens. What it answers is the same for all of them
//! (`specs/Answers.antt`): the part's value with the tokens after it, or the token at which no
//! program goes on.
#![tactic(auto)]

mod expression;
pub mod fault;
pub mod function;
mod row;
pub mod statement;
pub mod step;
