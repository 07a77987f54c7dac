//! The stages that commands are made of: each calls a layer below, and turns its error into the
//! reason for which the command stops. Their contracts hold whatever the rest of the outside is.
ghost use Rattle.std.specs.Prelude.{◌≡◌, ◌≤◌, ℕ, List, length, slice_get, IfOk};
ghost use Rattle.pw_base.specs.Limits.{source_bytes, given_steps};
ghost use Rattle.pw_tree.specs.Units.{TypedUnit, unit_of};
ghost use Rattle.pw_tree.specs.WellTypedUnits.{IsWellTyped};
ghost use Rattle.pw_io.specs.Source.{SourceState};
ghost use Rattle.pw_io.specs.Sink.{SinkState};
ghost use Rattle.pw_io.specs.Store.{StoreState};
ghost use Rattle.pw_hart.specs.Outside.{Outside, outside};
ghost use Rattle.pw_mem.specs.States.{MemoryState};
ghost use Rattle.pw_simulation.specs.Projects.{CanRun};
ghost use Rattle.pw_agree.specs.Image.{image};
ghost use Rattle.pw_image.specs.OneUnit.{project_of};
ghost use Rattle.pw_image.specs.Rows.{AreRows, keep_of};
ghost use Rattle.pw_code.specs.Objects.{object_of};
ghost use Rattle.pw_build.specs.Built.{IsBuilt, Builds};
ghost use Rattle.pw_build.specs.Executed.{Executes};
ghost use Rattle.pw_build.specs.Meant.{ReportsBytes, IsMeant};
ghost use Rattle.pw_cmd.specs.Words.{texts};
ghost use Rattle.pw_cmd.specs.Primitives.{judges, stop_of_words, reads, stop_of_read, compiles, stop_of_front, builds, stop_of_image, runs_image, ending_of};

use crate::answer::{Ending, Stop};
use crate::fault::fault_of;
use crate::refusal::{FileFault, Refusal};
use crate::words::{CommandError, Request, asked};
use pw_base::{Limits, Name, NoMemory};
use pw_build::{Ended, ImageError, execute, image};
use pw_code::Object;
use pw_front::{FrontError, front};
use pw_gen::object;
use pw_io::{ReadError, Sink, Source, Store};
use pw_mem::Memory;
use pw_module::KeptRow;
use pw_tree::TUnit;
use sqlite_items::Items;
use std::alloc::Global;

/// What the words ask for.
pub fn judge(alloc: Global, words: &[String]) -> Result<Request, Stop>
    ensures judges { (o : Outside) → judges (texts words.now) o o result }
    ensures allowed { IfOk result (λ request. request.steps ≤ given_steps) }
{
    match asked(alloc, words) {
        Ok(request) => Ok(request),
        Err(error) => Err(stop_of_words(error)),
    }
}

/// Why words of no command stop it.
fn stop_of_words(error: CommandError) -> Stop
    ensures { result ≡ stop_of_words error }
{
    match error {
        CommandError::NoCommand => Stop::Usage,
        CommandError::NoMemory => Stop::NoMemory,
    }
}

/// The bytes of the source file that the word of this number names.
pub fn read<S: Store>(
    alloc: Global,
    number: usize,
    file: &Name,
    store: &mut S,
) -> Result<Vec<u8>, Stop>
    ensures reads { (input : SourceState) (out messages : SinkState) (memory : MemoryState) →
        reads number file.now (outside (S.state store.old) input out messages memory)
        (outside (S.state store.new) input out messages memory) result }
    ensures short { IfOk result (λ text. length text.items ≤ source_bytes) }
{
    match store.read(alloc, file, Limits::SOURCE_BYTES) {
        Ok(text) => Ok(text),
        Err(error) => Err(stop_of_read(number, error)),
    }
}

/// Why a read that gives no text stops the command.
fn stop_of_read(number: usize, error: ReadError) -> Stop
    ensures { result ≡ stop_of_read number error }
{
    match error {
        ReadError::Failed => Stop::ReadFailed,
        ReadError::TooLong(limit) => {
            Stop::Refused(Refusal::File(number, FileFault::TooLong(limit)))
        }
        ReadError::NoMemory => Stop::NoMemory,
    }
}

/// The typed unit of the text in the file of this word.
pub fn compile(alloc: Global, number: usize, text: &Vec<u8>) -> Result<TUnit, Stop>
    requires { length text.now.items ≤ source_bytes }
    ensures compiles { (o : Outside) → compiles number text.now.items o o result }
    ensures well_typed { IfOk result (λ unit. IsWellTyped (unit_of unit)) }
{
    match front(alloc, text.as_slice()) {
        Ok(unit) => Ok(unit),
        Err(error) => Err(stop_of_front(number, &error)),
    }
}

/// Why a text without a typed unit stops the command.
fn stop_of_front(number: usize, error: &FrontError) -> Stop
    ensures { result ≡ stop_of_front number error.now }
{
    match fault_of(error) {
        Some(fault) => Stop::Refused(Refusal::File(number, FileFault::Source(fault))),
        None => Stop::NoMemory,
    }
}

/// Puts the image of the program of the file's unit into the memory, and says what became of each
/// function. All memory of a run is taken here.
pub fn build<M: Memory>(
    alloc: Global,
    file: &Name,
    unit: &TUnit,
    mem: &mut M,
) -> Result<Items<KeptRow>, Stop>
    requires { IsWellTyped (unit_of unit.now) }
    ensures builds { (store : StoreState) (input : SourceState) (out messages : SinkState) →
        builds file.now (unit_of unit.now) (outside store input out messages (M.state mem.old))
        (outside store input out messages (M.state mem.new)) result }
    ensures can_run { IfOk result (λ rows. CanRun (project_of (unit_of unit.now))) }
    ensures built { IfOk result (λ rows. IsBuilt file.now (unit_of unit.now) (M.state mem.new) rows) }
{
    match image_of(alloc, file, unit, mem) {
        Ok(rows) => Ok(rows),
        Err(error) => Err(stop_of_image(error)),
    }
}

/// The image of the program of the file's unit.
fn image_of<M: Memory>(
    alloc: Global,
    file: &Name,
    unit: &TUnit,
    mem: &mut M,
) -> Result<Items<KeptRow>, ImageError>
    requires { IsWellTyped (unit_of unit.now) }
    ensures { Builds file.now (unit_of unit.now) (M.state mem.old) (M.state mem.new) result }
{
    match object(alloc, unit, file) {
        Ok(object) => put_image(alloc, unit, object, mem),
        Err(NoMemory) => Err(ImageError::NoMemory),
    }
}

/// The image of the program of the unit's object.
fn put_image<M: Memory>(
    alloc: Global,
    _unit: &TUnit,
    object: Object,
    mem: &mut M,
) -> Result<Items<KeptRow>, ImageError>
    ghost unit: { TypedUnit }
    requires typed { IsWellTyped unit }
    requires object { object ≡ object_of object.unit unit }
    ensures { Builds object.unit unit (M.state mem.old) (M.state mem.new) result }
{
    image(alloc, object, mem)
}

/// Why a unit without an image stops the command.
fn stop_of_image(error: ImageError) -> Stop
    ensures { result ≡ stop_of_image error }
{
    match error {
        ImageError::Link(fault) => Stop::Refused(Refusal::Link(fault)),
        ImageError::Unbound(name) => Stop::Refused(Refusal::Unbound(name)),
        ImageError::NoMemory => Stop::NoMemory,
    }
}

/// Runs the image that the memory holds, of the program whose rows these are. No memory is taken.
pub fn run_image<M: Memory, I: Source, O: Sink>(
    unit: &TUnit,
    rows: Items<KeptRow>,
    steps: u64,
    mem: &mut M,
    input: &mut I,
    out: &mut O,
) -> Result<Ending, Stop>
    requires can_run { CanRun (project_of (unit_of unit.now)) }
    requires built { (file : List ℕ) × IsBuilt file (unit_of unit.now) (M.state mem.old) rows }
    requires allowed { steps ≤ given_steps }
    ensures { (store : StoreState) (messages : SinkState) → runs_image (unit_of unit.now) rows steps
        (outside store (I.state input.old) (O.state out.old) messages (M.state mem.old))
        (outside store (I.state input.new) (O.state out.new) messages (M.state mem.new)) result }
{
    let ended = execute_image(unit, rows.as_slice(), steps, mem, input, out);
    ending_of(rows, ended)
}

/// Runs the image of the unit's program, whose rows these are.
fn execute_image<M: Memory, I: Source, O: Sink>(
    _unit: &TUnit,
    rows: &[KeptRow],
    steps: u64,
    mem: &mut M,
    input: &mut I,
    out: &mut O,
) -> Ended
    ghost unit: { TypedUnit }
    requires can_run { CanRun (project_of unit) }
    requires rows { (file : List ℕ) × AreRows file unit rows.now }
    requires image { (M.state mem.old).mem ≡ image (project_of unit) (keep_of rows.now) }
    requires allowed { steps ≤ given_steps }
    ensures executes { (store : StoreState) (messages : SinkState) →
        Executes unit (keep_of rows.now) steps
        (outside store (I.state input.old) (O.state out.old) messages (M.state mem.old))
        (outside store (I.state input.new) (O.state out.new) messages (M.state mem.new)) result }
    ensures meant { (store : StoreState) (messages : SinkState) →
        ReportsBytes (I.state input.old) → IsMeant unit (keep_of rows.now) steps
        (outside store (I.state input.old) (O.state out.old) messages (M.state mem.old))
        (outside store (I.state input.new) (O.state out.new) messages (M.state mem.new)) result }
{
    execute(rows, steps, mem, input, out)
}

/// The answer of a run that ended so. Of a checked fault it has the row.
fn ending_of(rows: Items<KeptRow>, ended: Ended) -> Result<Ending, Stop>
    ensures { result ≡ ending_of rows ended }
{
    match ended {
        Ended::Exit(value) => Ok(Ending::Ended(value)),
        Ended::Checked { kind, row, line } => Ok(Ending::Faulted(kind, row_of(rows, row), line)),
        Ended::Spent => Ok(Ending::Spent),
        Ended::Trap { cause, pc, value } => Ok(Ending::Trapped(cause, pc, value)),
        Ended::Limit(limit) => Ok(Ending::Limited(limit)),
        Ended::ReadFault => Err(Stop::ReadFailed),
        Ended::WriteFault => Err(Stop::WriteFailed),
    }
}

/// The row of this number; none where there is no such row.
fn row_of(rows: Items<KeptRow>, number: u32) -> Option<KeptRow>
    ensures { result ≡ slice_get rows number }
{
    let mut rows = rows;
    if (number as usize) < rows.len() {
        Some(rows.remove(number as usize))
    } else {
        None
    }
}
