//! How far the statements of a function are judged.

ghost use Rattle.std.specs.Prelude.{◌≡◌};
ghost use Rattle.pw_types.specs.Steps.CheckingStatements.{outer_at, Leaves};

use crate::scope::Scope;
use crate::statement_step::{Outer, Setting};
use std::alloc::Global;

/// The state after the statements that are judged so far.
#[derive(Drop)]
pub(crate) struct Walk<'a> {
    pub alloc: Global,
    /// What is visible.
    pub scope: Scope<'a>,
    /// Where the locals of the block at hand begin among those that are visible.
    pub start: usize,
    /// How many parameters and locals the function has.
    pub count: u32,
    /// The numbers of the names at file scope that were used.
    pub used: Vec<usize>,
    /// The greatest number of values that one expression held at a time.
    pub held: u32,
}

impl<'a> Walk<'a> {
    /// Where a statement stands that is entered now.
    pub fn outer<'s>(&self, setting: &Setting<'s>) -> Outer<'s>
        ensures { result ≡ outer_at setting.now self.now }
    {
        Outer {
            setting: *setting,
            start: self.start,
            visible: self.scope.locals.len(),
        }
    }

    /// Leaves a statement: what was declared in it is not visible.
    pub fn leave(&mut self, outer: &Outer<'_>)
        ensures { Leaves outer.now self.old self.new }
    {
        self.scope.locals.truncate(outer.visible);
        self.start = outer.start;
    }
}
