//! Statements that hold no others and declare and assign nothing.
ghost use Rattle.std.specs.Prelude.{◌≡◌, option_map, not};
ghost use Rattle.pw_tree.specs.Expressions.{expression_of};
ghost use Rattle.pw_tree.specs.Statements as statement;
ghost use Rattle.pw_tree.specs.TypedStatements.{typed_statement_of};
ghost use Rattle.pw_types.specs.Faults.{broken};
ghost use Rattle.pw_types.specs.Steps.CheckingStatements.{Finishes, outcome_at, judged_at, span_of_statement};
ghost use Rattle.pw_types.specs.Steps.Refusals.{Judges};

use crate::fault::Refusal;
use crate::refuse::broken;
use crate::role::Role;
use crate::rule::Rule;
use crate::statement_step::{Setting, StatementSpan};
use crate::statement_walk::Walk;
use crate::types::{converts, is_void};
use pw_tree::{Expr, TStmt};
use sqlite_items::Items;

/// `;`
#[tactic(auto, using(crate::proofs::SimpleStatements::empty_is), unfolding(crate::specs::Steps::StatementFaults::faults_by))]
pub(crate) fn empty(walk: &Walk<'_>, setting: &Setting<'_>, at: StatementSpan) -> TStmt
    ensures { outcome_at setting.now walk.now (statement.empty (span_of_statement at)) ≡ judged_at (typed_statement_of result) walk.now }
{
    TStmt::Block(Items::new(walk.alloc))
}

/// `break ;`. Refusal: `OutsideLoop`.
#[tactic(auto, using(crate::proofs::SimpleStatements::breaks_is), unfolding(crate::specs::Steps::StatementFaults::faults_by))]
pub(crate) fn break_off(
    walk: &Walk<'_>,
    setting: &Setting<'_>,
    at: StatementSpan,
) -> Result<TStmt, Refusal>
    ensures { Finishes (outcome_at setting.now walk.now (statement.breaks (span_of_statement at))) walk.now result }
{
    if !setting.in_loop {
        return Err(broken(Rule::OutsideLoop, u64::from(at.last)));
    }
    Ok(TStmt::Break)
}

/// `continue ;`. Refusal: `OutsideLoop`.
#[tactic(auto, using(crate::proofs::SimpleStatements::continues_is), unfolding(crate::specs::Steps::StatementFaults::faults_by))]
pub(crate) fn go_on(
    walk: &Walk<'_>,
    setting: &Setting<'_>,
    at: StatementSpan,
) -> Result<TStmt, Refusal>
    ensures { Finishes (outcome_at setting.now walk.now (statement.continues (span_of_statement at))) walk.now result }
{
    if !setting.in_loop {
        return Err(broken(Rule::OutsideLoop, u64::from(at.last)));
    }
    Ok(TStmt::Continue)
}

impl<'a> Walk<'a> {
    /// `e ;`
    #[tactic(auto, unfolding(crate::specs::Steps::StatementFaults::faults_by))]
    pub fn evaluate(
        &mut self,
        setting: &Setting<'_>,
        at: StatementSpan,
        e: &Expr,
    ) -> Result<TStmt, Refusal>
        ensures { Finishes (outcome_at setting.now self.old (statement.evaluate (span_of_statement at) (expression_of e.now))) self.new result }
    {
        let value = self.value(Role::Statement, e)?;
        Ok(TStmt::Eval(value.into_inner()))
    }

    /// `return ;`. Refusal: `ReturnType`.
    #[tactic(auto, using(crate::proofs::SimpleStatements::returns_none), unfolding(crate::specs::Steps::StatementFaults::faults_by))]
    fn return_none(&self, setting: &Setting<'_>, at: StatementSpan) -> Result<TStmt, Refusal>
        ensures { Finishes (outcome_at setting.now self.now (statement.returns (span_of_statement at) None)) self.now result }
    {
        if !is_void(setting.result) {
            return Err(broken(Rule::ReturnType, u64::from(at.last)));
        }
        Ok(TStmt::Return(None))
    }

    /// `return e ;`. Refusal: `ReturnType`.
    #[tactic(auto, unfolding(crate::specs::Steps::StatementFaults::faults_by))]
    fn return_value(
        &mut self,
        setting: &Setting<'_>,
        at: StatementSpan,
        e: &Expr,
    ) -> Result<TStmt, Refusal>
        ensures { Finishes (outcome_at setting.now self.old (statement.returns (span_of_statement at) (Some (expression_of e.now)))) self.new result }
    {
        let value = self.value(Role::Value, e)?;
        if is_void(setting.result) || !converts(value.get().ty, setting.result) {
            return Err(broken(Rule::ReturnType, u64::from(at.last)));
        }
        Ok(TStmt::Return(Some(value.into_inner())))
    }

    /// `return ;`, or `return e ;`.
    pub fn leave_function(
        &mut self,
        setting: &Setting<'_>,
        at: StatementSpan,
        value: &Option<Expr>,
    ) -> Result<TStmt, Refusal>
        ensures { Finishes (outcome_at setting.now self.old (statement.returns (span_of_statement at) (option_map expression_of value.now))) self.new result }
    {
        match value {
            None => self.return_none(setting, at),
            Some(e) => self.return_value(setting, at, e),
        }
    }
}
