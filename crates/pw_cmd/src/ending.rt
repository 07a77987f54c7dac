//! How a run ended, as it is said into a sink.
ghost use Rattle.std.specs.Prelude.{◌≡◌};
ghost use Rattle.pw_cmd.specs.Answer.{checked_text, kind_text, ending_text, row_text, unit_text};
ghost use Rattle.pw_cmd.specs.Says.{PutsAll};

use crate::answer::Ending;
use crate::hexadecimal::Hexadecimal;
use crate::says::Says;
use pw_io::{Failed, Sink};
use pw_isa::environment_calls::{DEPTH_FAULT, DIVISION_FAULT, INDEX_FAULT, NULL_CALL_FAULT};
use pw_module::KeptRow;

impl Says for Ending {
    ghost text = { ending_text };

    fn say<E: Sink>(&self, sink: &mut E) -> Result<(), Failed> {
        match self {
            Ending::Ended(value) => ("ended ", *value).say(sink),
            Ending::Faulted(kind, row, line) => say_checked(sink, *kind, row, *line),
            Ending::Spent => "step bound spent".say(sink),
            Ending::Limited(limit) => ("instruction limit ", (*limit, " reached")).say(sink),
            Ending::Trapped(cause, pc, value) => {
                let value = (" value ", ("0x", Hexadecimal(*value)));
                let place = (" at ", (("0x", Hexadecimal(*pc)), value));
                ("trap ", (u32::from(*cause), place)).say(sink)
            }
        }
    }
}

/// Says a checked fault.
fn say_checked<E: Sink>(
    sink: &mut E,
    kind: u8,
    row: &Option<KeptRow>,
    line: u64,
) -> Result<(), Failed>
    ensures { PutsAll (checked_text kind (row_text row.now) line)
        (E.state sink.old) (E.state sink.new) result }
{
    match row {
        Some(row) => {
            let place = (
                row.module.bytes(),
                (":", (unit_of(row), (":", row.name.bytes()))),
            );
            (
                "checked fault ",
                (kind_of(kind), (" in ", (place, (" line ", line)))),
            )
                .say(sink)
        }
        None => (
            "checked fault ",
            (kind_of(kind), (" in ", ("no function", (" line ", line)))),
        )
            .say(sink),
    }
}

/// The unit of a function; a dash for the entry, which is in none.
fn unit_of(row: &KeptRow) -> &[u8]
    ensures { result.now ≡ unit_text row.now.unit }
{
    match &row.unit {
        Some(unit) => unit.bytes(),
        None => b"-",
    }
}

/// The kind of a checked fault in words.
fn kind_of(kind: u8) -> &'static str
    ensures { result.now ≡ kind_text kind }
{
    match kind {
        INDEX_FAULT => "index",
        DIVISION_FAULT => "division",
        NULL_CALL_FAULT => "null call",
        DEPTH_FAULT => "depth",
        _ => "fault",
    }
}
