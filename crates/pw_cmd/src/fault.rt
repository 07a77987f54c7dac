//! What is wrong with a text that has no typed unit, as it is said into a sink.
ghost use Rattle.std.specs.Prelude.{◌≡◌};
ghost use Rattle.pw_cmd.specs.Says.{PutsAll};
ghost use Rattle.pw_cmd.specs.Faults.{fault_of, fault_text};
ghost use Rattle.pw_front.specs.Messages.{lex_message};

use crate::says::Says;
use pw_base::Pos;
use pw_front::{FrontError, lex_phrase, syntax_phrase};
use pw_grammar::SyntaxError;
use pw_io::{Failed, Sink};
use pw_lex::LexError;
use pw_types::{Rule, TypeError};

/// The first fault of a text, with its place. A line is counted from 1.
#[derive(Clone, Copy)]
pub enum FrontFault {
    /// The text has no tokens.
    Lex(LexError, u32),
    /// The tokens are no unit.
    Syntax(SyntaxError, u32),
    /// The unit is not well typed.
    Typing(Rule, Pos),
}

/// What is wrong with a text; none where memory ran out.
pub fn fault_of(error: &FrontError) -> Option<FrontFault>
    ensures { result ≡ fault_of error.now }
{
    match error {
        FrontError::Lex(fault, line) => Some(FrontFault::Lex(*fault, *line)),
        FrontError::Syntax(fault, line) => Some(FrontFault::Syntax(*fault, *line)),
        FrontError::Typing(TypeError::Broken { rule, at, .. }) => {
            Some(FrontFault::Typing(*rule, *at))
        }
        FrontError::Typing(TypeError::NoMemory) => None,
        FrontError::NoMemory => None,
    }
}

/// The fault in words, with its line and the number of the byte or the token.
impl Says for FrontFault {
    ghost text = { fault_text };

    fn say<E: Sink>(&self, sink: &mut E) -> Result<(), Failed> {
        match self {
            FrontFault::Lex(fault, line) => say_lexical(sink, *fault, *line),
            FrontFault::Syntax(fault, line) => {
                let place = (" at line ", (*line, (" token ", fault.token())));
                (syntax_phrase(*fault), place).say(sink)
            }
            FrontFault::Typing(rule, at) => {
                let place = (" at line ", (at.line, (" token ", at.token)));
                ("type ", (rule.name(), place)).say(sink)
            }
        }
    }
}

/// Says the fault of a text as a list of tokens.
fn say_lexical<E: Sink>(sink: &mut E, fault: LexError, line: u32) -> Result<(), Failed>
    ensures { PutsAll (lex_message fault line) (E.state sink.old) (E.state sink.new) result }
{
    let what = lex_phrase(fault);
    match fault.place() {
        Some(byte) => (what, (" at line ", (line, (" byte ", byte)))).say(sink),
        None => (what, "").say(sink),
    }
}
