//! Statements that hold others, from after a part.
ghost use Rattle.std.specs.Prelude.{◌≡◌, ◌+◌, ◌<◌, [], ◌∷◌, ◌++◌, Some, IfOk, map, option_map};
ghost use Rattle.pw_tree.specs.Expressions.{expression_of};
ghost use Rattle.pw_tree.specs.TypedExpressions.{typed_expression_of};
ghost use Rattle.pw_tree.specs.TypedStatements.{typed_statement_of, present};
ghost use Rattle.pw_tree.specs.Statements.{statement_of, statements_of, optional_statement};
ghost use Rattle.pw_types.specs.Steps.CheckingStatements.{Finishes, Leads, Steps, after_first_at, block_at, judged_at, leave, rest_of_do, rest_of_for, rest_of_if, resumed, resumed_at, setting_of, typed_maybe};
ghost use Rattle.pw_types.specs.Steps.StatementWeights.{weight, weight_of_all, weight_of_maybe, weight_of_form, weight_of_step};

use crate::fault::Refusal;
use crate::role::Role;
use crate::statement_enter::done;
use crate::statement_step::{Outer, StatementForm, StatementFrame, StatementStep, push};
use crate::statement_value::unboxed;
use crate::statement_walk::Walk;
use pw_tree::{Expr, Stmt, TExpr, TStmt};
use sqlite_items::{Boxed, Items};

impl<'a> Walk<'a> {
    /// A block, after one of its statements.
    fn resume_block<'s>(
        &mut self,
        outer: &Outer<'s>,
        mut before: Items<TStmt>,
        rest: &'s [Stmt],
        typed: Boxed<TStmt>,
    ) -> Result<StatementStep<'s>, Refusal>
        ensures judged { Steps (block_at before rest.now outer.now (judged_at (typed_statement_of typed) self.old)) self.new result }
        ensures less { IfOk result (λ step. weight_of_step step < 1 + weight_of_all (statements_of rest.now)) }
    {
        push(&mut before, typed.into_inner())?;
        match rest {
            [] => {
                self.leave(outer);
                done(self.alloc, Ok(TStmt::Block(before)))
            }
            [first, rest @ ..] => {
                let outer = *outer;
                let form = StatementForm::Block(before, rest);
                Ok(StatementStep::Part(StatementFrame { outer, form }, outer.setting.part(), first))
            }
        }
    }

    /// An `if`, after its first part.
    fn resume_then<'s>(
        &mut self,
        outer: &Outer<'s>,
        c: Boxed<TExpr>,
        b: &'s Option<Boxed<Stmt>>,
        typed: Boxed<TStmt>,
    ) -> Result<StatementStep<'s>, Refusal>
        ensures judged { Steps (rest_of_if (setting_of outer.now.setting) (leave outer.now.start outer.now.visible) (typed_expression_of c) (optional_statement (option_map statement_of b.now)) (judged_at (typed_statement_of typed) self.old)) self.new result }
        ensures less { IfOk result (λ step. weight_of_step step < 2 + weight_of_maybe (optional_statement (option_map statement_of b.now))) }
    {
        match b {
            Some(b) => {
                let outer = *outer;
                let form = StatementForm::Else(c, typed);
                Ok(StatementStep::Part(
                    StatementFrame { outer, form },
                    outer.setting.part(),
                    b.get(),
                ))
            }
            None => {
                self.leave(outer);
                done(self.alloc, Ok(TStmt::If(c.into_inner(), typed, None)))
            }
        }
    }

    /// An `if`, after its second part.
    fn resume_else(
        &mut self,
        outer: &Outer<'_>,
        c: Boxed<TExpr>,
        a: Boxed<TStmt>,
        typed: Boxed<TStmt>,
    ) -> Result<TStmt, Refusal>
        ensures { Finishes (resumed_at outer.now (StatementForm.Else c a) (judged_at (typed_statement_of typed) self.old)) self.new result }
    {
        self.leave(outer);
        Ok(TStmt::If(c.into_inner(), a, Some(typed)))
    }

    /// A `while`, after its body.
    fn resume_while(
        &mut self,
        outer: &Outer<'_>,
        c: Boxed<TExpr>,
        typed: Boxed<TStmt>,
    ) -> Result<TStmt, Refusal>
        ensures { Finishes (resumed_at outer.now (StatementForm.While c) (judged_at (typed_statement_of typed) self.old)) self.new result }
    {
        self.leave(outer);
        Ok(TStmt::While(c.into_inner(), typed))
    }

    /// A `do`, after its body.
    fn resume_do(
        &mut self,
        outer: &Outer<'_>,
        c: &Expr,
        typed: Boxed<TStmt>,
    ) -> Result<TStmt, Refusal>
        ensures { Finishes (rest_of_do (leave outer.now.start outer.now.visible) (expression_of c.now) (judged_at (typed_statement_of typed) self.old)) self.new result }
    {
        self.leave(outer);
        let c = self.value(Role::Value, c)?;
        Ok(TStmt::Do(typed, c.into_inner()))
    }

    /// A `for`, after its last part.
    fn resume_last<'s>(
        &self,
        outer: &Outer<'s>,
        first: Option<Boxed<TStmt>>,
        c: Option<Boxed<TExpr>>,
        body: &'s Stmt,
        typed: Boxed<TStmt>,
    ) -> StatementStep<'s>
        ensures judged { Leads (rest_of_for (setting_of outer.now.setting) (leave outer.now.start outer.now.visible) (typed_maybe first) (option_map typed_expression_of c) (present (typed_statement_of typed)) (statement_of body.now) (judged_at (typed_statement_of typed) self.now)) self.now result }
        ensures less { weight_of_step result < weight (statement_of body.now) + 2 }
    {
        let outer = *outer;
        let form = StatementForm::For(first, c, Some(typed));
        StatementStep::Part(StatementFrame { outer, form }, outer.setting.body(), body)
    }

    /// A `for`, after its body.
    fn resume_for(
        &mut self,
        outer: &Outer<'_>,
        first: Option<Boxed<TStmt>>,
        c: Option<Boxed<TExpr>>,
        last: Option<Boxed<TStmt>>,
        typed: Boxed<TStmt>,
    ) -> Result<TStmt, Refusal>
        ensures { Finishes (resumed_at outer.now (StatementForm.For first c last) (judged_at (typed_statement_of typed) self.old)) self.new result }
    {
        self.leave(outer);
        Ok(TStmt::For(first, unboxed(c), last, typed))
    }

    /// A `for`, after its first part.
    fn resume_first<'s>(
        &mut self,
        outer: &Outer<'s>,
        c: &Option<Expr>,
        last: &'s Option<Boxed<Stmt>>,
        body: &'s Stmt,
        typed: Boxed<TStmt>,
    ) -> Result<StatementStep<'s>, Refusal>
        ensures judged { Steps (after_first_at outer.now (present (typed_statement_of typed)) (option_map expression_of c.now) (optional_statement (option_map statement_of last.now)) (statement_of body.now) self.old) self.new result }
        ensures less { IfOk result (λ step. weight_of_step step < weight_of_maybe (optional_statement (option_map statement_of last.now)) + (weight (statement_of body.now) + 3)) }
    {
        self.after_first(outer, Some(typed), c, last, body)
    }

    /// A statement, after the part that it waits for, of which this is the typed statement.
    pub fn resume<'s>(
        &mut self,
        frame: StatementFrame<'s>,
        typed: Boxed<TStmt>,
    ) -> Result<StatementStep<'s>, Refusal>
        ensures judged { Steps (resumed frame.entry (judged_at (typed_statement_of typed) self.old)) self.new result }
        ensures less { IfOk result (λ step. weight_of_step step < weight_of_form frame.entry.form) }
    {
        let StatementFrame { outer, form } = frame;
        match form {
            StatementForm::Block(before, rest) => self.resume_block(&outer, before, rest, typed),
            StatementForm::Then(c, b) => self.resume_then(&outer, c, b, typed),
            StatementForm::Else(c, a) => done(self.alloc, self.resume_else(&outer, c, a, typed)),
            StatementForm::While(c) => done(self.alloc, self.resume_while(&outer, c, typed)),
            StatementForm::Do(c) => done(self.alloc, self.resume_do(&outer, c, typed)),
            StatementForm::First(c, last, body) => self.resume_first(&outer, c, last, body, typed),
            StatementForm::Last(first, c, body) => Ok(self.resume_last(
                &outer, first, c, body, typed,
            )),
            StatementForm::For(first, c, last) => {
                done(self.alloc, self.resume_for(&outer, first, c, last, typed))
            }
        }
    }
}
