//! The line that says on a sink what a command answered.
ghost use Rattle.std.specs.Prelude.{◌≡◌};
ghost use Rattle.pw_cmd.specs.Says.{PutsAll};
ghost use Rattle.pw_cmd.specs.Answer.{message_line, reason_of, sentence_of, status_of, word_at};
ghost use Rattle.pw_cmd.specs.Message.{PutsLine, Reports};
ghost use Rattle.pw_cmd.specs.Words.{texts};

use crate::answer::{Ending, Stop, status};
use crate::refusal::Refusal;
use crate::says::{Says, put_both};
use pw_io::{Failed, Sink};

/// Says what the answer is, without the end of the line.
fn say_answer<S: Sink>(
    sink: &mut S,
    words: &[String],
    answer: &Result<Ending, Stop>,
) -> Result<(), Failed>
    ensures { PutsAll (sentence_of (texts words.now) answer.now)
        (S.state sink.old) (S.state sink.new) result }
{
    match answer {
        Ok(ending) => ending.say(sink),
        Err(stop) => say_stop(sink, words, stop),
    }
}

/// Says why there is no ending.
fn say_stop<S: Sink>(sink: &mut S, words: &[String], stop: &Stop) -> Result<(), Failed>
    ensures { PutsAll (reason_of (texts words.now) stop.now)
        (S.state sink.old) (S.state sink.new) result }
{
    match stop {
        Stop::Usage => "usage: pw COMMAND ARGUMENTS".say(sink),
        Stop::Refused(refusal) => say_refusal(sink, words, refusal),
        Stop::ReadFailed => "read failed".say(sink),
        Stop::WriteFailed => "write failed".say(sink),
        Stop::NoMemory => "out of memory".say(sink),
    }
}

/// Says what is refused, and what for. A file is named as its word names it.
fn say_refusal<S: Sink>(sink: &mut S, words: &[String], refusal: &Refusal) -> Result<(), Failed>
    ensures { PutsAll (reason_of (texts words.now) (Stop.Refused refusal.now))
        (S.state sink.old) (S.state sink.new) result }
{
    match refusal {
        Refusal::File(number, fault) => {
            ("refused: ", (word_of(words, *number), (": ", *fault))).say(sink)
        }
        Refusal::Link(fault) => put_both(sink, &"refused: app: ", fault),
        Refusal::Unbound(name) => {
            ("refused: ", ("app: ", (name.bytes(), " is not defined"))).say(sink)
        }
    }
}

/// The bytes of a word, by its number; none where there is no such word.
fn word_of(words: &[String], number: usize) -> &[u8]
    ensures { result.now ≡ word_at (texts words.now) number }
{
    match words.get(number) {
        Some(word) => word.as_bytes(),
        None => b"",
    }
}

/// Says the line of the answer and flushes it.
fn say_line<S: Sink>(
    sink: &mut S,
    words: &[String],
    answer: &Result<Ending, Stop>,
) -> Result<(), Failed>
    ensures { PutsLine (message_line (texts words.now) answer.now)
        (S.state sink.old) (S.state sink.new) result }
{
    say_answer(sink, words, answer)?;
    sink.put(b'\n')?;
    sink.flush()
}

/// Reports the answer, and gives the status that the program ends with: the answer's, or 7 where
/// the reporting failed.
pub fn report<S: Sink>(sink: &mut S, words: &[String], answer: &Result<Ending, Stop>) -> u8
    ensures { Reports (message_line (texts words.now) answer.now) (status_of answer.now)
        (S.state sink.old) (S.state sink.new) result }
{
    match say_line(sink, words, answer) {
        Ok(()) => status(answer),
        Err(_) => 7,
    }
}
