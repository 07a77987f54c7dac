//! The statements of a function's body, by a loop over the statements that wait for a part: trees nest too deep to recurse.
ghost use Rattle.pw_tree.specs.Statements.{statement_of, statements_of};
ghost use Rattle.pw_types.specs.Steps.CheckingStatements.{Finishes, FinishesAll, outcome_at};
ghost use Rattle.pw_types.specs.Declarations.{setting};
ghost use Rattle.pw_types.specs.Steps.Judged.{JudgesBody};

use crate::fault::Refusal;
use crate::scope::Scope;
use crate::statement_step::{Setting, StatementStep, push};
use crate::statement_walk::Walk;
use crate::typed::Body;
use pw_tree::{Stmt, TStmt, Ty};
use sqlite_items::{Boxed, Items};
use std::alloc::Global;
use std::mem;

impl<'a> Walk<'a> {
    /// A statement and all that stands in it.
    fn statement<'s>(
        &mut self,
        setting: &Setting<'s>,
        stmt: &'s Stmt,
    ) -> Result<Boxed<TStmt>, Refusal>
        ensures { Finishes (outcome_at setting.now self.old (statement_of stmt.now)) self.new result }
    {
        let mut frames = Items::new(self.alloc);
        let mut step = self.enter(setting, stmt)?;
        'parts: loop {
            match step {
                StatementStep::Part(frame, setting, part) => {
                    push(&mut frames, frame)?;
                    step = self.enter(&setting, part)?;
                }
                StatementStep::Done(typed) => match frames.pop() {
                    Some(frame) => step = self.resume(frame, typed)?,
                    None => return Ok(typed),
                },
            }
        }
    }

    /// Statements in a row.
    fn statements<'s>(
        &mut self,
        setting: &Setting<'s>,
        body: &'s [Stmt],
    ) -> Result<Items<TStmt>, Refusal>
        ensures { FinishesAll setting.now (statements_of body.now) self.old self.new result }
    {
        let mut done = Items::new(self.alloc);
        let mut rest = body;
        'row: while let [stmt, more @ ..] = rest {
            let typed = self.statement(setting, stmt)?;
            push(&mut done, typed.into_inner())?;
            rest = more;
        }
        Ok(done)
    }
}

/// The typed statements of a function's body, or its first fault. `scope` has the parameters as its locals, of which there
/// are `count`, and `ty` is the type of the function's result. The numbers of the names that are used are noted after those
/// of `used`. Nothing is said of `scope` after it.
pub fn judge_body(
    alloc: Global,
    scope: &mut Scope<'_>,
    used: &mut Vec<usize>,
    lines: &[u32],
    ty: Ty,
    count: u32,
    body: &[Stmt],
) -> Result<Body, Refusal>
    ensures { JudgesBody (setting lines.now ty) (record { scope = scope.old; start = 0; count = count }) (statements_of body.now) used.old.items used.new.items result }
{
    let mut walk = Walk {
        alloc,
        scope: Scope {
            files: scope.files,
            functions: scope.functions,
            variables: scope.variables,
            locals: mem::replace(&mut scope.locals, Vec::new(alloc)),
        },
        start: 0,
        count,
        used: mem::replace(used, Vec::new(alloc)),
        held: 0,
    };
    let outermost = Setting {
        result: ty,
        lines,
        in_loop: false,
        in_head: false,
    };
    let statements = walk.statements(&outermost, body)?;
    *used = walk.used;
    Ok(Body {
        statements,
        held: walk.held,
        count: walk.count,
    })
}
