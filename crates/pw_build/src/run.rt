//! Runs the image of a program.
ghost use Rattle.std.specs.Prelude.{◌≡◌, ◌≤◌, ℕ, List};
ghost use Rattle.pw_base.specs.Limits.{given_steps};
ghost use Rattle.pw_tree.specs.Units.{TypedUnit};
ghost use Rattle.pw_io.specs.Sink.{SinkState};
ghost use Rattle.pw_io.specs.Store.{StoreState};
ghost use Rattle.pw_hart.specs.Outside.{outside};
ghost use Rattle.pw_simulation.specs.Projects.{CanRun};
ghost use Rattle.pw_agree.specs.Image.{image};
ghost use Rattle.pw_image.specs.OneUnit.{project_of};
ghost use Rattle.pw_image.specs.Rows.{AreRows, keep_of};
ghost use Rattle.pw_build.specs.Meant.{ReportsBytes, IsMeant};
ghost use Rattle.pw_build.specs.Executed.{IsFresh, Flushes, Executes};

use crate::extents::{TEXT_START, row_at, words_of};
use pw_base::Limits;
use pw_hart::{End, Hart};
use pw_io::{Sink, Source};
use pw_isa::registers::SP;
use pw_mem::Memory;
use pw_module::KeptRow;

/// How the run of an image ended. Where the input reports bytes, a run never ends in a trap, nor at
/// its limit, nor at a check outside all functions: it ends as the program means.
#[derive(Clone, Copy, PartialEq, Eq, Debug)]
pub enum Ended {
    /// `main` returned this value.
    Exit(u64),
    /// A check of the program failed: of this kind, in the function of the row of this number, from
    /// 0, and in this line. Outside all functions the number is that of all rows.
    Checked { kind: u8, row: u32, line: u64 },
    /// No counted step was left.
    Spent,
    /// An instruction could not be carried out, as in [`End::Trap`].
    Trap { cause: u8, pc: u64, value: u64 },
    /// So many instructions were fetched, as many as were allowed, and none ended the run.
    Limit(u64),
    /// The input failed.
    ReadFault,
    /// The output failed, at a byte or at the flush after the last.
    WriteFault,
}

/// Runs the image of the program of one unit, whose rows these are, with so many counted steps, and
/// flushes the output. No memory is taken.
///
/// It is the machine's run of at most as many instructions as the program has words, for each
/// counted step and once more.
pub fn execute<M: Memory, I: Source, O: Sink>(
    rows: &[KeptRow],
    steps: u64,
    mem: &mut M,
    input: &mut I,
    out: &mut O,
) -> Ended
    ghost unit: { TypedUnit }
    requires can_run { CanRun (project_of unit) }
    requires rows { (file : List ℕ) × AreRows file unit rows.now }
    requires image { (M.state mem.old).mem ≡ image (project_of unit) (keep_of rows.now) }
    requires bound { steps ≤ given_steps }
    ensures executes { (store : StoreState) (messages : SinkState) → Executes unit (keep_of rows.now) steps
        (outside store (I.state input.old) (O.state out.old) messages (M.state mem.old))
        (outside store (I.state input.new) (O.state out.new) messages (M.state mem.new))
        result }
    ensures meant { (store : StoreState) (messages : SinkState) → ReportsBytes (I.state input.old) → IsMeant unit (keep_of rows.now) steps
        (outside store (I.state input.old) (O.state out.old) messages (M.state mem.old))
        (outside store (I.state input.new) (O.state out.new) messages (M.state mem.new))
        result }
{
    let mut hart = fresh(steps);
    let limit = (steps + 1) * words_of(rows);
    match hart.run(mem, input, out, limit) {
        End::Exit(value) => flushed(out, Ended::Exit(value)),
        End::Checked { kind, line, pc } => {
            let row = row_at(rows, pc);
            flushed(out, Ended::Checked { kind, row, line })
        }
        End::Spent => flushed(out, Ended::Spent),
        End::Trap { cause, pc, value } => flushed(out, Ended::Trap { cause, pc, value }),
        End::Limit => flushed(out, Ended::Limit(limit)),
        End::ReadFault => Ended::ReadFault,
        End::WriteFault => Ended::WriteFault,
    }
}

/// The processor as a run begins, with so many counted steps.
fn fresh(steps: u64) -> Hart
    ensures { IsFresh steps result }
{
    let mut x = [0; 32];
    x[usize::from(SP)] = Limits::STACK_START + Limits::STACK_BYTES;
    Hart {
        x,
        pc: TEXT_START,
        steps,
    }
}

/// Flushes the output after the last byte of a run that ended so; where that fails, it is the end.
fn flushed<O: Sink>(out: &mut O, ended: Ended) -> Ended
    ensures { Flushes ended (O.state out.old) (O.state out.new) result }
{
    match out.flush() {
        Ok(()) => ended,
        Err(_) => Ended::WriteFault,
    }
}
