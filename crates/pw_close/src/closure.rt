//! The kept functions of a graph, level by level.
ghost use Rattle.std.specs.Prelude.{◌≡◌, ℕ, ◌+◌, ◌-◌, ◌^◌, ◌<◌, ◌≤◌, suc, false, length, cond, IfOk, Some};
ghost use Rattle.std.specs.List.{All};
ghost use Rattle.pw_close.specs.Graphs.{IsGraph};
ghost use Rattle.pw_close.specs.Closure.{AreLevels};
ghost use Rattle.pw_close.specs.Steps.Marks.{AreFresh, MarksRoots, MarksRow, MarksNext, entry, unmarked};

use crate::graph::{Graph, Levels};
use pw_base::NoMemory;
use std::alloc::Global;

impl Levels {
    /// No function is kept.
    fn fresh(alloc: Global, funs: u32) -> Result<Levels, NoMemory>
        ensures { IfOk result (λ levels. AreFresh funs levels.level.items levels.parent.items) }
    {
        let level = vec![in alloc; None; funs as usize]?;
        let parent = vec![in alloc; None; funs as usize]?;
        Ok(Levels { level, parent })
    }

    /// The roots have level 0.
    fn mark_roots(&mut self, roots: &[u32])
        requires fresh { AreFresh (length self.old.level.items) self.old.level.items self.old.parent.items }
        requires roots { All (λ n. n < length self.old.level.items) roots.now }
        ensures { MarksRoots roots.now (length self.old.level.items) self.new.level.items self.new.parent.items }
    {
        for root in roots {
            self.level[*root as usize] = Some(0);
        }
    }

    /// The functions of a row that had no level get this one, and this parent; whether there were any.
    fn mark_row(&mut self, row: &[u32], level: u32, parent: u32) -> bool
        requires row { All (λ n. n < length self.old.level.items) row.now }
        requires parents { length self.old.parent.items ≡ length self.old.level.items }
        ensures marks { MarksRow row.now level parent self.old.level.items self.old.parent.items self.new.level.items self.new.parent.items }
        ensures none { result ≡ false → self.new ≡ self.old }
        ensures fewer { unmarked self.new.level.items + cond result 1 0 ≤ unmarked self.old.level.items }
    {
        let mut found = false;
        for n in row {
            if self.level[*n as usize].is_none() {
                self.level[*n as usize] = Some(level);
                self.parent[*n as usize] = Some(parent);
                found = true;
            }
        }
        found
    }

    /// Marks the row of a function where the function has this level: what had no level gets the next one; whether any did.
    fn mark_from(&mut self, row: &[u32], from: u32, level: u32) -> bool
        requires row { All (λ n. n < length self.old.level.items) row.now }
        requires parents { length self.old.parent.items ≡ length self.old.level.items }
        requires from { from < length self.old.level.items }
        requires level { level < 2 ^ 32 - 1 }
        ensures marks { entry self.old.level.items from ≡ Some level → MarksRow row.now (suc level) from self.old.level.items self.old.parent.items self.new.level.items self.new.parent.items }
        ensures same { (entry self.old.level.items from ≡ Some level → ⊥) → self.new ≡ self.old }
        ensures none { result ≡ false → self.new ≡ self.old }
        ensures fewer { unmarked self.new.level.items + cond result 1 0 ≤ unmarked self.old.level.items }
    {
        if self.level[from as usize] == Some(level) {
            self.mark_row(row, level + 1, from)
        } else {
            false
        }
    }

    /// What the functions of a level lead to gets the next level, where it had none; whether there was any.
    fn mark_next(&mut self, graph: &Graph, level: u32) -> bool
        requires graph { IsGraph graph.now }
        requires level { level < graph.now.funs }
        requires levels { length self.old.level.items ≡ graph.now.funs }
        requires parents { length self.old.parent.items ≡ graph.now.funs }
        ensures marks { MarksNext graph.now level graph.now.funs self.old.level.items self.old.parent.items self.new.level.items self.new.parent.items }
        ensures none { result ≡ false → self.new ≡ self.old }
        ensures fewer { unmarked self.new.level.items + cond result 1 0 ≤ unmarked self.old.level.items }
    {
        let mut found = false;
        for (from, row) in graph.edges.iter().enumerate() {
            if self.mark_from(row, from as u32, level) {
                found = true;
            }
        }
        found
    }
}

/// The kept functions of a graph, each with its level and its parent. `NoMemory` alone is a refusal.
///
/// It takes time in proportion to the levels times the functions, and to the edges.
pub fn close(alloc: Global, graph: &Graph) -> Result<Levels, NoMemory>
    requires { IsGraph graph.now }
    ensures { IfOk result (λ levels. AreLevels graph.now levels) }
{
    let mut levels = Levels::fresh(alloc, graph.funs)?;
    levels.mark_roots(&graph.roots);
    for level in 0..graph.funs {
        if !levels.mark_next(graph, level) {
            return Ok(levels);
        }
    }
    Ok(levels)
}
