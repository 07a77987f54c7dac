//! Assignments.
ghost use Rattle.std.specs.Prelude.{◌≡◌, suc, option_map, slice_index_or};
ghost use Rattle.pw_tree.specs.Expressions.{expression_of};
ghost use Rattle.pw_tree.specs.Placed as placed;
ghost use Rattle.pw_tree.specs.Statements as statement;
ghost use Rattle.pw_types.specs.Statements.{faults_of_target, faults_of_array};
ghost use Rattle.pw_types.specs.Steps.CheckingStatements.{Finishes, outcome_at, span_of_statement};
ghost use Rattle.pw_types.specs.Steps.StatementTargets.{IsTarget, IsArray, JudgesIndex, JudgesElementValue};
ghost use Rattle.pw_types.specs.Steps.Refusals.{Judges};

use crate::expression::judge;
use crate::fault::Refusal;
use crate::meaning::Meaning;
use crate::names::{File, Kind};
use crate::refuse::{broken, broken_by};
use crate::role::Role;
use crate::rule::Rule;
use crate::statement_step::{Setting, StatementSpan};
use crate::statement_walk::Walk;
use crate::typed::Typed;
use crate::types::is_number;
use pw_base::Name;
use pw_tree::{Expr, Ref, TExpr, TStmt, Ty};
use sqlite_items::Boxed;

/// What a name is assigned at, and its type.
#[derive(Drop)]
pub(crate) enum AssignTarget {
    /// The local of this number.
    Local(u32, Ty),
    /// A variable: its number among the names at file scope, and how the unit names it.
    Variable(usize, Ref, Ty),
}

/// An array: its number among the names at file scope, how the unit names it, its elements' type and its size.
#[derive(Drop)]
pub(crate) struct Array {
    pub number: usize,
    pub reference: Ref,
    pub ty: Ty,
    pub size: u32,
}

/// The last token of an assignment: a part of a `for` has no `;` of its own.
fn set_end(in_head: bool, at: StatementSpan) -> u64
    ensures { result ≡ placed.set_end in_head (span_of_statement at) }
{
    if in_head {
        u64::from(at.last)
    } else {
        u64::from(at.last).saturating_sub(1)
    }
}

/// The `]` after the index of an assignment: as many brackets stand round the index after it as before it.
#[tactic(auto, using(crate::proofs::PhrasePlaces::place_is))]
fn index_end(at: StatementSpan, i: &Expr) -> u64
    ensures { result ≡ placed.index_end (span_of_statement at) (expression_of i.now) }
{
    let before = u64::from(i.first).saturating_sub(u64::from(at.first) + 2);
    u64::from(i.last) + before + 1
}

/// The line of the `[` after a name.
fn bracket_line(lines: &[u32], first: u32) -> u32
    ensures { result ≡ slice_index_or lines.now (suc first) 0 }
{
    match lines.get(first as usize + 1) {
        Some(line) => *line,
        None => 0,
    }
}

impl<'a> Walk<'a> {
    /// What a name is assigned at. Refusals: `Unknown`, `NeedsIndex`, `AssignType`.
    fn target(&self, name: &Name, at: u32) -> Result<AssignTarget, Refusal>
        ensures { Judges (faults_of_target self.now.scope name.now at) (IsTarget self.now.scope name.now) result }
    {
        match self.scope.meaning(name.bytes()) {
            Meaning::Missing => Err(broken_by(self.alloc, Rule::Unknown, u64::from(at), name)),
            Meaning::Local(local) => Ok(AssignTarget::Local(local.number, local.ty)),
            Meaning::File(number, file) => match file.kind {
                Kind::Function(_) => Err(broken(Rule::AssignType, u64::from(at))),
                Kind::Variable(_, Some(_)) => Err(broken(Rule::NeedsIndex, u64::from(at))),
                Kind::Variable(ty, None) => Ok(AssignTarget::Variable(
                    number,
                    self.scope.variable_reference(self.alloc, file)?,
                    ty,
                )),
            },
        }
    }

    /// The array that a name is. Refusals: `Unknown`, `NotArray`.
    fn array(&self, name: &Name, at: u32) -> Result<Array, Refusal>
        ensures { Judges (faults_of_array self.now.scope name.now at) (IsArray self.now.scope name.now) result }
    {
        match self.scope.meaning(name.bytes()) {
            Meaning::Missing => Err(broken_by(self.alloc, Rule::Unknown, u64::from(at), name)),
            Meaning::Local(_) => Err(broken(Rule::NotArray, u64::from(at))),
            Meaning::File(number, file) => match file.kind {
                Kind::Function(_) | Kind::Variable(_, None) => {
                    Err(broken(Rule::NotArray, u64::from(at)))
                }
                Kind::Variable(ty, Some(size)) => Ok(Array {
                    number,
                    reference: self.scope.variable_reference(self.alloc, file)?,
                    ty,
                    size,
                }),
            },
        }
    }

    /// An index: a number. Refusal: `Operands`, at the `]`.
    fn index(&mut self, at: StatementSpan, i: &Expr) -> Result<Typed, Refusal>
        ensures { JudgesIndex (span_of_statement at) (expression_of i.now) self.old self.new result }
    {
        let typed = judge(self.alloc, &self.scope, &mut self.used, Role::Value, i)?;
        if !is_number(typed.tree.get().ty) {
            return Err(broken(Rule::Operands, index_end(at, i)));
        }
        Ok(typed)
    }

    /// What an element is assigned; the index, which holds so many values beside it, is kept meanwhile.
    fn element_value(
        &mut self,
        beside: u32,
        ty: Ty,
        e: &Expr,
        end: u64,
    ) -> Result<Boxed<TExpr>, Refusal>
        ensures { JudgesElementValue beside ty (expression_of e.now) end self.old self.new result }
    {
        let role = Role::Assigned(Some(ty));
        let typed = judge(self.alloc, &self.scope, &mut self.used, role, e)?;
        self.hold(beside.max(typed.held + 1), end)?;
        Ok(typed.tree)
    }

    /// `name = value`. Refusals: `Unknown`, `NeedsIndex`, `AssignType`; those of the value; `TooDeep`, at the end.
    #[tactic(auto, unfolding(crate::specs::Steps::StatementFaults::faults_by))]
    fn set(
        &mut self,
        setting: &Setting<'_>,
        at: StatementSpan,
        name: &Name,
        value: &Expr,
    ) -> Result<TStmt, Refusal>
        ensures { Finishes (outcome_at setting.now self.old (statement.set (span_of_statement at) name.now None (expression_of value.now))) self.new result }
    {
        let end = set_end(setting.in_head, at);
        match self.target(name, at.first)? {
            AssignTarget::Local(number, ty) => {
                let value = self.whole(Role::Assigned(Some(ty)), value, end)?;
                Ok(TStmt::SetLocal(number, Some(value.into_inner())))
            }
            AssignTarget::Variable(number, reference, ty) => {
                self.note(number)?;
                let value = self.whole(Role::Assigned(Some(ty)), value, end)?;
                Ok(TStmt::SetVar(reference, value.into_inner()))
            }
        }
    }

    /// `name[index] = value`. Refusals: `Unknown`, `NotArray`; those of the index; `Operands`; those of the value;
    /// `TooDeep`, at the end.
    #[tactic(auto, unfolding(crate::specs::Steps::StatementFaults::faults_by))]
    fn set_element(
        &mut self,
        setting: &Setting<'_>,
        at: StatementSpan,
        name: &Name,
        index: &Expr,
        value: &Expr,
    ) -> Result<TStmt, Refusal>
        ensures { Finishes (outcome_at setting.now self.old (statement.set (span_of_statement at) name.now (Some (expression_of index.now)) (expression_of value.now))) self.new result }
    {
        let end = set_end(setting.in_head, at);
        let array = self.array(name, at.first)?;
        self.note(array.number)?;
        let index = self.index(at, index)?;
        let value = self.element_value(index.held, array.ty, value, end)?;
        let line = bracket_line(setting.lines, at.first);
        let index = index.tree.into_inner();
        let value = value.into_inner();
        Ok(TStmt::SetElem(array.reference, array.size, line, index, value))
    }

    /// `name = value`, or `name[index] = value`.
    pub fn assign(
        &mut self,
        setting: &Setting<'_>,
        at: StatementSpan,
        name: &Name,
        index: &Option<Expr>,
        value: &Expr,
    ) -> Result<TStmt, Refusal>
        ensures { Finishes (outcome_at setting.now self.old (statement.set (span_of_statement at) name.now (option_map expression_of index.now) (expression_of value.now))) self.new result }
    {
        match index {
            None => self.set(setting, at, name, value),
            Some(index) => self.set_element(setting, at, name, index, value),
        }
    }
}
