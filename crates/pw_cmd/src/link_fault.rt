//! The first fault of a link, as it is said into a sink.
ghost use Rattle.std.specs.Prelude.{◌≡◌};
ghost use Rattle.pw_cmd.specs.Answer.{limit_of, link_text, what_text};

use crate::says::Says;
use pw_base::Limits;
use pw_io::{Failed, Sink};
use pw_place::{LinkError, What};

impl Says for LinkError {
    ghost text = { link_text };

    fn say<E: Sink>(&self, sink: &mut E) -> Result<(), Failed> {
        match self {
            LinkError::TooMany(what, count) => {
                (
                    *count,
                    (" ", (text_of(*what), (", at most ", limit_of(*what)))),
                )
                    .say(sink)
            }
            LinkError::Duplicate(name) => (name.bytes(), " is defined twice").say(sink),
            LinkError::TypeDiffers(name, first, other) => {
                let types = (first.bytes(), (" and ", other.bytes()));
                (name.bytes(), (" has types ", types)).say(sink)
            }
            LinkError::NoMain => "no main".say(sink),
            LinkError::MainType(found) => ("main has type ", found.bytes()).say(sink),
            LinkError::NoMemory => "out of memory".say(sink),
        }
    }
}

/// What a module has too many of, in words.
fn text_of(what: What) -> &'static str
    ensures { result.now ≡ what_text what }
{
    match what {
        What::Units => "units",
        What::Names => "names",
        What::Elements => "elements",
        What::TextBytes => "text bytes",
    }
}

/// How many of them a module may have.
fn limit_of(what: What) -> u64
    ensures { result ≡ limit_of what }
{
    match what {
        What::Units => Limits::MODULE_UNITS as u64,
        What::Names => Limits::MODULE_NAMES as u64,
        What::Elements => Limits::MODULE_ELEMENTS,
        What::TextBytes => Limits::TEXT_BYTES,
    }
}
