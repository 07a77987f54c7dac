//! The expressions of statements.
ghost use Rattle.std.specs.Prelude.{◌≡◌, ◌≢◌, max, nat_lt, option_map, [], ◌∷◌, OnOk};
ghost use Rattle.pw_base.specs.Limits as limits;
ghost use Rattle.pw_tree.specs.Expressions.{expression_of};
ghost use Rattle.pw_types.specs.Faults.{broken};
ghost use Rattle.pw_types.specs.Steps.StatementValues.{JudgesWhole, JudgesValue, JudgesMaybeValue, Notes};
ghost use Rattle.pw_types.specs.Steps.Refusals.{Judges};

use crate::expression::judge;
use crate::fault::Refusal;
use crate::refuse::broken;
use crate::role::Role;
use crate::rule::Rule;
use crate::statement_walk::Walk;
use pw_base::{Limits, NoMemory};
use pw_tree::{Expr, TExpr};
use sqlite_items::Boxed;

/// A tree out of its box, where there is one.
pub(crate) fn unboxed(tree: Option<Boxed<TExpr>>) -> Option<TExpr>
    ensures { result ≡ tree }
{
    match tree {
        Some(tree) => Some(tree.into_inner()),
        None => None,
    }
}

impl<'a> Walk<'a> {
    /// An expression holds so many values. Refusal: `TooDeep`.
    pub fn hold(&mut self, held: u32, at: u64) -> Result<(), Refusal>
        ensures { Judges (broken Rule.TooDeep at (nat_lt limits.held_values held)) (λ _. self.new ≡ record self.old { held = max self.old.held held }) result }
    {
        if held > Limits::HELD_VALUES {
            return Err(broken(Rule::TooDeep, at));
        }
        self.held = self.held.max(held);
        Ok(())
    }

    /// The typed tree of an expression with nothing round it; where it holds too many values, this is the token to blame.
    pub fn whole(&mut self, role: Role, e: &Expr, end: u64) -> Result<Boxed<TExpr>, Refusal>
        requires { role ≢ Role.Base }
        ensures { JudgesWhole role (expression_of e.now) end self.old self.new result }
    {
        let typed = judge(self.alloc, &self.scope, &mut self.used, role, e)?;
        self.hold(typed.held, end)?;
        Ok(typed.tree)
    }

    /// The typed tree of a whole expression of a statement.
    pub fn value(&mut self, role: Role, e: &Expr) -> Result<Boxed<TExpr>, Refusal>
        requires { role ≢ Role.Base }
        ensures { JudgesValue role (expression_of e.now) self.old self.new result }
    {
        self.whole(role, e, u64::from(e.last))
    }

    /// The same where there is one.
    pub fn maybe_value(
        &mut self,
        role: Role,
        e: &Option<Expr>,
    ) -> Result<Option<Boxed<TExpr>>, Refusal>
        requires { role ≢ Role.Base }
        ensures { JudgesMaybeValue role (option_map expression_of e.now) self.old self.new result }
    {
        match e {
            Some(e) => Ok(Some(self.value(role, e)?)),
            None => Ok(None),
        }
    }

    /// Notes that a name at file scope is used.
    pub fn note(&mut self, number: usize) -> Result<(), NoMemory>
        ensures { OnOk result (Notes (number ∷ []) 0 self.old self.new) }
    {
        match self.used.push(number) {
            Ok(()) => Ok(()),
            Err(_) => Err(NoMemory),
        }
    }
}
