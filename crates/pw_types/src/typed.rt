//! What judging a phrase without faults gives.

use pw_tree::{TExpr, TStmt};
use sqlite_items::{Boxed, Items};

/// A typed expression. Its tree is in a box, so that it can wait for others and be a part of one as it is.
#[derive(Drop)]
pub struct Typed {
    pub tree: Boxed<TExpr>,
    /// How many values it holds at a time, or one more than the limit where these are more.
    pub held: u32,
}

/// The typed statements of a function's body.
#[derive(Drop)]
pub struct Body {
    pub statements: Items<TStmt>,
    /// The greatest number of values that one of its expressions holds at a time, no more than the limit.
    pub held: u32,
    /// How many parameters and locals the function has after them.
    pub count: u32,
}
