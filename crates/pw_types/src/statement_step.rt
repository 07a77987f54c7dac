//! What is still to be done when a part of a statement is judged.
ghost use Rattle.std.specs.Prelude.{◌≡◌, [], ◌∷◌, ◌++◌, true, false, IfOk};

use pw_base::NoMemory;
use pw_tree::{Expr, Stmt, TExpr, TStmt, Ty};
use sqlite_items::{Boxed, Items};

/// An item after others.
pub(crate) fn push<T: Drop>(items: &mut Items<T>, item: T) -> Result<(), NoMemory>
    ensures { IfOk result (λ _. items.new ≡ items.old ++ item ∷ []) }
{
    items.push(item)?;
    Ok(())
}

/// Where a statement stands: its first and last token, and its first token's line.
#[derive(Clone, Copy)]
pub(crate) struct StatementSpan {
    pub first: u32,
    pub last: u32,
    pub line: u32,
}

/// What a function's statements have in common: its result's type and the line of each token of the unit. And whether a
/// loop is round a statement, and whether it is a part of a `for`, which ends without `;`.
#[derive(Clone, Copy)]
pub(crate) struct Setting<'a> {
    pub result: Ty,
    pub lines: &'a [u32],
    pub in_loop: bool,
    pub in_head: bool,
}

/// Where a statement stands that holds others: its setting, where the locals of the block round it begin among those that
/// are visible, and how many these are.
#[derive(Clone, Copy)]
pub(crate) struct Outer<'a> {
    pub setting: Setting<'a>,
    pub start: usize,
    pub visible: usize,
}

/// A statement that waits for a part: where it stands, and what it waits for.
#[derive(Drop)]
pub(crate) struct StatementFrame<'a> {
    pub outer: Outer<'a>,
    pub form: StatementForm<'a>,
}

/// What was judged of a statement before the part that it waits for, and what comes after the part.
#[derive(Drop)]
pub(crate) enum StatementForm<'a> {
    /// A statement of a block: those before it, and those after it.
    Block(Items<TStmt>, &'a [Stmt]),
    /// The first part of an `if`, after the condition; the second may come after it.
    Then(Boxed<TExpr>, &'a Option<Boxed<Stmt>>),
    /// The second part of an `if`, after the condition and the first.
    Else(Boxed<TExpr>, Boxed<TStmt>),
    /// The body of a `while`, after the condition.
    While(Boxed<TExpr>),
    /// The body of a `do`; the condition comes after it.
    Do(&'a Expr),
    /// The first part of a `for`; the condition, the last part and the body come after it.
    First(&'a Option<Expr>, &'a Option<Boxed<Stmt>>, &'a Stmt),
    /// The last part of a `for`, after the first part and the condition; the body comes after it.
    Last(Option<Boxed<TStmt>>, Option<Boxed<TExpr>>, &'a Stmt),
    /// The body of a `for`, after the first part, the condition and the last part.
    For(Option<Boxed<TStmt>>, Option<Boxed<TExpr>>, Option<Boxed<TStmt>>),
}

/// What is to be done next.
#[derive(Drop)]
pub(crate) enum StatementStep<'a> {
    /// To judge a part in its setting, for which the frame waits.
    Part(StatementFrame<'a>, Setting<'a>, &'a Stmt),
    /// Nothing: the statement at hand is judged.
    Done(Boxed<TStmt>),
}

impl<'a> Setting<'a> {
    /// That of a statement in this one.
    pub fn part(&self) -> Setting<'a>
        ensures { result ≡ record self.now { in_head = false } }
    {
        Setting {
            in_head: false,
            ..*self
        }
    }

    /// That of a loop's body.
    pub fn body(&self) -> Setting<'a>
        ensures { result ≡ record self.now { in_loop = true; in_head = false } }
    {
        Setting {
            in_loop: true,
            in_head: false,
            ..*self
        }
    }

    /// That of a part of a `for`.
    pub fn head(&self) -> Setting<'a>
        ensures { result ≡ record self.now { in_head = true } }
    {
        Setting {
            in_head: true,
            ..*self
        }
    }
}
