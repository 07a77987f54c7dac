//! Reads a token list from left to right: its tree, or its first fault.
#![tactic(auto)]

mod binary;
mod control_head;
mod cursor;
mod declaration;
mod expression;
mod expression_rules;
mod for_clauses;
mod initialiser;
mod limits;
mod node;
mod operator;
mod parameter;
mod postfix;
mod primary;
mod simple_statement;
mod statement;
mod types;
mod unit;
mod variable;
mod whole;

pub use whole::{fault_line, parse};
