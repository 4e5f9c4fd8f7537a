//! Lowering of programs to code.
//!
//! An expression is computed into a register, the condition of an `if` is jumps and that of a loop
//! a register that is 1 or 0, and a statement is instructions that change the slots as it does.
//! What was appended asks the memory for what its source asks, and ends as it does;
//! `specs/Computes.antt` and `specs/Decision.antt` say so form by form, and `specs/Lowering.antt`
//! what the functions of this crate promise.
#![tactic(auto)]

mod choice;
mod condition;
mod expression;
pub mod function;
mod inline;
mod jump;
pub mod program;
mod statement;
