//! What is still to be done when a part of an expression is judged.

use crate::role::Role;
use crate::typed::Typed;
use pw_tree::{Bin, Expr, Ref, TExpr, Ty, Un};
use sqlite_items::Items;

/// Where an expression stands: its role, its last token and its line.
#[derive(Clone, Copy)]
pub(crate) struct Head {
    pub role: Role,
    pub last: u32,
    pub line: u32,
}

/// An array that a name designates: how the unit names it, its elements' type and its size.
#[derive(Drop)]
pub(crate) struct Array {
    pub reference: Ref,
    pub ty: Ty,
    pub size: u32,
}

/// What is called: a function by its name, with its result's type, or a pointer.
#[derive(Drop)]
pub(crate) enum CallTarget {
    Direct(Ref, Ty),
    Through(Typed),
}

/// A call: where it stands, what it calls, and whether it has another number of arguments than that takes.
#[derive(Drop)]
pub(crate) struct Call {
    pub head: Head,
    pub target: CallTarget,
    pub other_count: bool,
}

/// The arguments that were judged so far, and how many values they hold at a time, or one more than the limit where these are more.
#[derive(Drop)]
pub(crate) struct Arguments {
    pub trees: Items<TExpr>,
    pub held: u32,
}

/// The types of the parameters that are left: those of a list, or this many longs.
#[derive(Clone, Copy)]
pub(crate) enum Parameters<'a> {
    Listed(&'a [Ty]),
    Longs(u8),
}

/// An expression that waits for a part: where it stands, what was judged before the part, and what comes after it.
#[derive(Drop)]
pub(crate) enum ExpressionFrame<'a> {
    /// The operand of a unary operator.
    Operand(Head, Un),
    /// The left operand of a binary operator; the right one comes after it.
    Left(Head, Bin, &'a Expr),
    /// The right operand, after the left one.
    Right(Head, Bin, Typed),
    /// The condition of a choice; its two values come after it.
    Condition(Head, &'a Expr, &'a Expr),
    /// The first value of a choice, after the condition; the second comes after it.
    First(Head, Typed, &'a Expr),
    /// The second value of a choice, after the condition and the first.
    Second(Head, Typed, Typed),
    /// A callee; the arguments come after it.
    Callee(Head, &'a [Expr]),
    /// An argument, after those before it; others come after it, for the parameters that are left.
    Argument(Call, Arguments, Parameters<'a>, &'a [Expr]),
    /// The index of an array's element.
    Index(Head, Array),
    /// What `__out` writes.
    Written(Head),
}

/// What is to be done next.
#[derive(Drop)]
pub(crate) enum ExpressionStep<'a> {
    /// To judge a part in its role, for which the frame waits.
    Part(ExpressionFrame<'a>, Role, &'a Expr),
    /// To judge another expression in its role, in the stead of the one at hand.
    Instead(Role, &'a Expr),
    /// Nothing: the expression at hand is judged.
    Done(Typed),
}
