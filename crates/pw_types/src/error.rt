//! Why a unit has no typed unit.

use crate::rule::Rule;
use pw_base::{Name, NoMemory, Pos};
use std::error::Error;
use std::fmt::{self, Display, Formatter, Write};

/// Why a unit has no typed unit: its first fault.
#[derive(Debug, Drop)]
pub enum TypeError {
    /// The rule that is broken, the last token of the phrase that breaks it with its line, and the name that it is
    /// about, for `Unknown`, `Redeclared`, `Conflict` and `Reserved`.
    Broken {
        rule: Rule,
        at: Pos,
        name: Option<Name>,
    },
    /// Out of memory.
    NoMemory,
}

impl From<NoMemory> for TypeError {
    ghost use Rattle.std.specs.Prelude.{◌≡◌};
    ghost use Rattle.pw_types.specs.declared.error.TypeError.TheVariants as errors;

    ghost from_gives = { λ _ e. e ≡ errors.NoMemory };

    fn from(_: NoMemory) -> TypeError {
        TypeError::NoMemory
    }
}

/// The rule, and the line with the token.
impl Display for TypeError {
    ghost use Rattle.std.specs.Prelude.{Some};
    ghost use Rattle.pw_types.specs.Messages.{type_message};

    ghost output = { λ error. Some (type_message error) };

    fn fmt<W: Write>(&self, f: &mut Formatter<W>) -> fmt::Result {
        match self {
            TypeError::Broken { rule, at, .. } => {
                let (line, token) = (at.line, at.token);
                write!(f, "type {rule} at line {line} token {token}")
            }
            TypeError::NoMemory => f.write_str("out of memory"),
        }
    }
}

impl Error for TypeError {}
