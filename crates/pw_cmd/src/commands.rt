//! The call that the program is: words in, a status and the memory out.
ghost use Rattle.pw_hart.specs.Outside.{outside};
ghost use Rattle.pw_cmd.specs.Answers.{Answers};
ghost use Rattle.pw_cmd.specs.Shows.{CallsInOrder, Completes, Means, RefusesFaults, ReportsFailures};
ghost use Rattle.pw_cmd.specs.Words.{texts};

use crate::message::report;
use crate::perform::perform;
use pw_io::{Sink, Source, Store};
use pw_mem::Memory;
use std::alloc::Global;

/// Does what the words after the program's name ask for, says on `msg` how that ended, and answers
/// the status and the memory.
pub fn top<S: Store, I: Source, O: Sink, E: Sink, M: Memory>(
    alloc: Global,
    words: &[String],
    store: &mut S,
    input: &mut I,
    out: &mut O,
    msg: &mut E,
    mem: M,
) -> (u8, M)
    ensures answers { Answers (texts words.now)
        (outside (S.state store.old) (I.state input.old) (O.state out.old)
        (E.state msg.old) (M.state mem))
        (outside (S.state store.new) (I.state input.new) (O.state out.new)
        (E.state msg.new) (M.state result.1)) result.0 }
    ensures means { Means (texts words.now)
        (outside (S.state store.old) (I.state input.old) (O.state out.old)
        (E.state msg.old) (M.state mem))
        (outside (S.state store.new) (I.state input.new) (O.state out.new)
        (E.state msg.new) (M.state result.1)) result.0 }
    ensures failures { ReportsFailures (texts words.now)
        (outside (S.state store.old) (I.state input.old) (O.state out.old)
        (E.state msg.old) (M.state mem))
        (outside (S.state store.new) (I.state input.new) (O.state out.new)
        (E.state msg.new) (M.state result.1)) result.0 }
    ensures completes { Completes (texts words.now)
        (outside (S.state store.old) (I.state input.old) (O.state out.old)
        (E.state msg.old) (M.state mem))
        (outside (S.state store.new) (I.state input.new) (O.state out.new)
        (E.state msg.new) (M.state result.1)) result.0 }
    ensures refuses { RefusesFaults (texts words.now)
        (outside (S.state store.old) (I.state input.old) (O.state out.old)
        (E.state msg.old) (M.state mem))
        (outside (S.state store.new) (I.state input.new) (O.state out.new)
        (E.state msg.new) (M.state result.1)) result.0 }
    ensures calls { CallsInOrder (texts words.now)
        (outside (S.state store.old) (I.state input.old) (O.state out.old)
        (E.state msg.old) (M.state mem))
        (outside (S.state store.new) (I.state input.new) (O.state out.new)
        (E.state msg.new) (M.state result.1)) }
{
    let mut mem = mem;
    let answer = perform(alloc, words, store, input, out, &mut mem);
    let status = report(msg, words, &answer);
    (status, mem)
}
