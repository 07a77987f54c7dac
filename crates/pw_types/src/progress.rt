//! The declarations of a unit, one after another.
ghost use Rattle.std.specs.Prelude.{◌≡◌, ◌≤◌, OnOk};
ghost use Rattle.pw_base.specs.Limits as limits;
ghost use Rattle.pw_tree.specs.Declarations.{declaration_form_of, declaration_of};
ghost use Rattle.pw_tree.specs.Placed.{HasTypes};
ghost use Rattle.pw_types.specs.Steps.UnitFaults.{faults_of_declaration};
ghost use Rattle.pw_types.specs.Steps.CheckingUnits.{faults_of_parts, IsFresh, IsJudged, IsAfter};
ghost use Rattle.pw_types.specs.Steps.Refusals.{Judges};

use crate::declarator::judge_head;
use crate::declared::{elements_of, file_of};
use crate::defined::{Defined, Whole, judge_form};
use crate::fault::Refusal;
use crate::file_scope::FileScope;
use pw_tree::{Decl, TFun, TVar};
use sqlite_items::Items;
use std::alloc::Global;

/// What the declarations so far gave: the names at file scope, how many elements their variables have, the numbers of the
/// names that they use, and what they define.
#[derive(Drop)]
pub(crate) struct Progress {
    pub files: FileScope,
    pub elements: u64,
    pub used: Vec<usize>,
    pub functions: Items<TFun>,
    pub variables: Items<TVar>,
}

impl Progress {
    /// Before the first declaration.
    pub fn new(alloc: Global) -> Progress
        ensures { IsFresh result }
    {
        Progress {
            files: FileScope::new(alloc),
            elements: 0,
            used: Vec::new(alloc),
            functions: Items::new(alloc),
            variables: Items::new(alloc),
        }
    }

    /// What the next declaration defines, or its first fault.
    fn judge(&mut self, alloc: Global, whole: &Whole<'_>, d: &Decl) -> Result<Defined, Refusal>
        requires types { HasTypes (declaration_form_of d.now.kind) }
        requires room { self.old.elements ≤ limits.module_elements }
        ensures { Judges (faults_of_parts whole.now self.old.files self.old.elements (declaration_of d.now)) (IsJudged whole.now self.old self.new (declaration_of d.now)) result }
    {
        let locals = judge_head(alloc, &self.files, self.elements, d)?;
        self.files.declare(file_of(alloc, d)?)?;
        self.elements += elements_of(d);
        judge_form(alloc, whole, &self.files, &mut self.used, d, locals)
    }

    /// The next declaration.
    #[tactic(auto, unfolding(crate::specs::Steps::UnitFaults::faults_of_declaration))]
    pub fn declare(&mut self, alloc: Global, whole: &Whole<'_>, d: &Decl) -> Result<(), Refusal>
        requires types { HasTypes (declaration_form_of d.now.kind) }
        requires room { self.old.elements ≤ limits.module_elements }
        ensures { Judges (faults_of_declaration whole.now self.old.files self.old.elements (declaration_of d.now)) (λ _. IsAfter whole.now self.old (declaration_of d.now) self.new) result }
    {
        match self.judge(alloc, whole, d)? {
            Defined::Nothing => {}
            Defined::Function(f) => self.functions.push(f)?,
            Defined::Variable(v) => self.variables.push(v)?,
        }
        Ok(())
    }
}
