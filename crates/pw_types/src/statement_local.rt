//! Declarations of locals.
ghost use Rattle.std.specs.Prelude.{◌≡◌, ◌<◌, ⊤, drop, true, option_map, IfOk};
ghost use Rattle.pw_base.specs.Limits as limits;
ghost use Rattle.pw_tree.specs.Expressions.{expression_of};
ghost use Rattle.pw_tree.specs.Placed as placed;
ghost use Rattle.pw_tree.specs.Statements as statement;
ghost use Rattle.pw_types.specs.Statements.{faults_of_name};
ghost use Rattle.pw_types.specs.Steps.CheckingStatements.{Finishes, block_of, outcome_at, span_of_statement};
ghost use Rattle.pw_types.specs.Steps.StatementValues.{Declares};
ghost use Rattle.pw_types.specs.Steps.Refusals.{Judges};

use crate::fault::Refusal;
use crate::names::Local;
use crate::refuse::{broken, broken_by};
use crate::reserved::is_reserved;
use crate::role::Role;
use crate::rule::Rule;
use crate::scope::has_local;
use crate::statement_step::{Setting, StatementSpan};
use crate::statement_value::unboxed;
use crate::statement_walk::Walk;
use pw_base::{Limits, Name, NoMemory};
use pw_tree::{Expr, TStmt, Ty};
use std::alloc::Global;

/// The locals from this one on.
fn own_locals(locals: &[Local], start: usize) -> &[Local]
    ensures { result.now ≡ drop start locals.now }
{
    match locals.get(start..) {
        Some(own) => own,
        None => &[],
    }
}

/// The token of a local's name: its type has one token, or two.
fn local_name_at(at: StatementSpan, ty: Ty) -> u64
    ensures { result ≡ placed.local_name_at (span_of_statement at) ty }
{
    match ty {
        Ty::Ulong => u64::from(at.first) + 2,
        Ty::Void | Ty::Long | Ty::Fn(_) => u64::from(at.first) + 1,
    }
}

impl<'a> Walk<'a> {
    /// Whether a local of the name may be declared. Refusals: `Redeclared`, then `TooManyLocals`, then `Reserved`.
    fn declarable(&self, name: &Name, at: u64) -> Result<(), Refusal>
        ensures { Judges (faults_of_name (block_of self.now) name.now at) (λ _. ⊤) result }
    {
        if has_local(own_locals(&self.scope.locals, self.start), name.bytes()) {
            return Err(broken_by(self.alloc, Rule::Redeclared, at, name));
        }
        if self.count as usize >= Limits::LOCALS {
            return Err(broken(Rule::TooManyLocals, at));
        }
        if is_reserved(name.bytes()) {
            return Err(broken_by(self.alloc, Rule::Reserved, at, name));
        }
        Ok(())
    }

    /// Declares a local, and gives its number.
    fn declare(&mut self, name: &Name, ty: Ty) -> Result<u32, NoMemory>
        requires { self.old.count < limits.locals }
        ensures { IfOk result (Declares name.now ty self.old self.new) }
    {
        let number = self.count;
        let name = name.copy(self.alloc)?;
        match self.scope.locals.push(Local { name, ty, number }) {
            Ok(()) => {
                self.count += 1;
                Ok(number)
            }
            Err(_) => Err(NoMemory),
        }
    }

    /// `ty name = value ;`, or `ty name ;`
    #[tactic(auto, unfolding(crate::specs::Steps::StatementFaults::faults_by))]
    pub fn local(
        &mut self,
        setting: &Setting<'_>,
        at: StatementSpan,
        ty: Ty,
        name: &Name,
        value: &Option<Expr>,
    ) -> Result<TStmt, Refusal>
        ensures { Finishes (outcome_at setting.now self.old (statement.local (span_of_statement at) ty name.now (option_map expression_of value.now))) self.new result }
    {
        self.declarable(name, local_name_at(at, ty))?;
        let value = self.maybe_value(Role::Assigned(Some(ty)), value)?;
        let number = self.declare(name, ty)?;
        Ok(TStmt::SetLocal(number, unboxed(value)))
    }
}
