//! Statements that hold others, up to their first part.
ghost use Rattle.std.specs.Prelude.{◌≡◌, ◌+◌, ◌<◌, IfOk, Some, None, option_map};
ghost use Rattle.pw_tree.specs.Expressions.{Span, expression_of};
ghost use Rattle.pw_tree.specs.Statements as statement;
ghost use Rattle.pw_tree.specs.Statements.{statement_of, statements_of, optional_statement};
ghost use Rattle.pw_types.specs.Steps.CheckingStatements.{Leads, Steps, IsWhole, outcome_at, after_first_at, typed_maybe};
ghost use Rattle.pw_types.specs.Steps.StatementWeights.{weight, weight_of_all, weight_of_maybe, weight_of_step};

use crate::fault::Refusal;
use crate::role::Role;
use crate::statement_simple::{break_off, empty, go_on};
use crate::statement_step::{
    Outer, Setting, StatementForm, StatementFrame, StatementSpan, StatementStep,
};
use crate::statement_walk::Walk;
use pw_tree::{Expr, Stmt, StmtKind, TStmt};
use sqlite_items::{Boxed, Items};
use std::alloc::Global;

/// A statement that is judged as a whole.
pub(crate) fn done<'s>(
    alloc: Global,
    judged: Result<TStmt, Refusal>,
) -> Result<StatementStep<'s>, Refusal>
    ensures { IsWhole judged result }
{
    match judged {
        Ok(typed) => Ok(StatementStep::Done(Boxed::new(alloc, typed)?)),
        Err(refusal) => Err(refusal),
    }
}

impl<'a> Walk<'a> {
    /// `{ body }`
    fn enter_block<'s>(
        &mut self,
        setting: &Setting<'s>,
        body: &'s [Stmt],
    ) -> Result<StatementStep<'s>, Refusal>
        ensures judged { (at : Span) → Steps (outcome_at setting.now self.old (statement.block at (statements_of body.now))) self.new result }
        ensures less { IfOk result (λ step. weight_of_step step < 2 + weight_of_all (statements_of body.now)) }
    {
        let outer = self.outer(setting);
        let before = Items::new(self.alloc);
        match body {
            [] => done(self.alloc, Ok(TStmt::Block(before))),
            [first, rest @ ..] => {
                self.start = outer.visible;
                let form = StatementForm::Block(before, rest);
                Ok(StatementStep::Part(StatementFrame { outer, form }, setting.part(), first))
            }
        }
    }

    /// `if (c) a`, and `else b` where there is one.
    fn enter_if<'s>(
        &mut self,
        setting: &Setting<'s>,
        c: &Expr,
        a: &'s Stmt,
        b: &'s Option<Boxed<Stmt>>,
    ) -> Result<StatementStep<'s>, Refusal>
        ensures judged { (at : Span) → Steps (outcome_at setting.now self.old (statement.if_else at (expression_of c.now) (statement_of a.now) (optional_statement (option_map statement_of b.now)))) self.new result }
        ensures less { IfOk result (λ step. weight_of_step step < weight (statement_of a.now) + (3 + weight_of_maybe (optional_statement (option_map statement_of b.now)))) }
    {
        let c = self.value(Role::Value, c)?;
        let outer = self.outer(setting);
        let form = StatementForm::Then(c, b);
        Ok(StatementStep::Part(StatementFrame { outer, form }, setting.part(), a))
    }

    /// `while (c) body`
    fn enter_while<'s>(
        &mut self,
        setting: &Setting<'s>,
        c: &Expr,
        body: &'s Stmt,
    ) -> Result<StatementStep<'s>, Refusal>
        ensures judged { (at : Span) → Steps (outcome_at setting.now self.old (statement.while_loop at (expression_of c.now) (statement_of body.now))) self.new result }
        ensures less { IfOk result (λ step. weight_of_step step < weight (statement_of body.now) + 2) }
    {
        let c = self.value(Role::Value, c)?;
        let outer = self.outer(setting);
        let form = StatementForm::While(c);
        Ok(StatementStep::Part(StatementFrame { outer, form }, setting.body(), body))
    }

    /// `do body while (c) ;`
    fn enter_do<'s>(&self, setting: &Setting<'s>, body: &'s Stmt, c: &'s Expr) -> StatementStep<'s>
        ensures judged { (at : Span) → Leads (outcome_at setting.now self.now (statement.do_loop at (statement_of body.now) (expression_of c.now))) self.now result }
        ensures less { weight_of_step result < weight (statement_of body.now) + 2 }
    {
        let outer = self.outer(setting);
        let form = StatementForm::Do(c);
        StatementStep::Part(StatementFrame { outer, form }, setting.body(), body)
    }

    /// `for (first; c; last) body`, from after its first part.
    pub fn after_first<'s>(
        &mut self,
        outer: &Outer<'s>,
        first: Option<Boxed<TStmt>>,
        c: &Option<Expr>,
        last: &'s Option<Boxed<Stmt>>,
        body: &'s Stmt,
    ) -> Result<StatementStep<'s>, Refusal>
        ensures judged { Steps (after_first_at outer.now (typed_maybe first) (option_map expression_of c.now) (optional_statement (option_map statement_of last.now)) (statement_of body.now) self.old) self.new result }
        ensures less { IfOk result (λ step. weight_of_step step < weight_of_maybe (optional_statement (option_map statement_of last.now)) + (weight (statement_of body.now) + 3)) }
    {
        let c = self.maybe_value(Role::Value, c)?;
        let outer = *outer;
        match last {
            Some(last) => {
                let form = StatementForm::Last(first, c, body);
                Ok(StatementStep::Part(
                    StatementFrame { outer, form },
                    outer.setting.head(),
                    last.get(),
                ))
            }
            None => {
                let form = StatementForm::For(first, c, None);
                Ok(StatementStep::Part(StatementFrame { outer, form }, outer.setting.body(), body))
            }
        }
    }

    /// `for (first; c; last) body`
    fn enter_for<'s>(
        &mut self,
        setting: &Setting<'s>,
        first: &'s Option<Boxed<Stmt>>,
        c: &'s Option<Expr>,
        last: &'s Option<Boxed<Stmt>>,
        body: &'s Stmt,
    ) -> Result<StatementStep<'s>, Refusal>
        ensures judged { (at : Span) → Steps (outcome_at setting.now self.old (statement.for_loop at (optional_statement (option_map statement_of first.now)) (option_map expression_of c.now) (optional_statement (option_map statement_of last.now)) (statement_of body.now))) self.new result }
        ensures less { IfOk result (λ step. weight_of_step step < weight_of_maybe (optional_statement (option_map statement_of first.now)) + (weight_of_maybe (optional_statement (option_map statement_of last.now)) + (weight (statement_of body.now) + 4))) }
    {
        let outer = self.outer(setting);
        self.start = outer.visible;
        match first {
            Some(first) => {
                let form = StatementForm::First(c, last, body);
                Ok(StatementStep::Part(StatementFrame { outer, form }, setting.head(), first.get()))
            }
            None => self.after_first(&outer, None, c, last, body),
        }
    }

    /// A statement, up to its first part, or the whole of it where it has none.
    pub fn enter<'s>(
        &mut self,
        setting: &Setting<'s>,
        stmt: &'s Stmt,
    ) -> Result<StatementStep<'s>, Refusal>
        ensures judged { Steps (outcome_at setting.now self.old (statement_of stmt.now)) self.new result }
        ensures less { IfOk result (λ step. weight_of_step step < weight (statement_of stmt.now)) }
    {
        let at = StatementSpan {
            first: stmt.first,
            last: stmt.last,
            line: stmt.line,
        };
        match &stmt.kind {
            StmtKind::Empty => done(self.alloc, Ok(empty(self, setting, at))),
            StmtKind::Block(body) => self.enter_block(setting, body.as_slice()),
            StmtKind::Local(ty, name, value) => done(
                self.alloc,
                self.local(setting, at, *ty, name, value),
            ),
            StmtKind::Set(name, index, value) => {
                done(self.alloc, self.assign(setting, at, name, index, value))
            }
            StmtKind::Eval(e) => done(self.alloc, self.evaluate(setting, at, e)),
            StmtKind::If(c, a, b) => self.enter_if(setting, c, a.get(), b),
            StmtKind::While(c, body) => self.enter_while(setting, c, body.get()),
            StmtKind::Do(body, c) => Ok(self.enter_do(setting, body.get(), c)),
            StmtKind::For(first, c, last, body) => {
                self.enter_for(setting, first, c, last, body.get())
            }
            StmtKind::Return(value) => done(self.alloc, self.leave_function(setting, at, value)),
            StmtKind::Break => done(self.alloc, break_off(self, setting, at)),
            StmtKind::Continue => done(self.alloc, go_on(self, setting, at)),
        }
    }
}
