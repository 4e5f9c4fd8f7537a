//! From raw expressions and statements to resolved ones, at a point whose names are known.
#![tactic(auto)]

mod expression;
mod header;
mod simple;
pub mod statement;
