//! A step of the processor, and a run.

ghost use Rattle.std.specs.Prelude.{◌≢◌, Option, unwrap_or};
ghost use Rattle.pw_hart.specs.Runs.{Runs};
ghost use Rattle.pw_hart.specs.Steps.Advances.{Advances};

use crate::ends::End;
use crate::hart::Hart;
use pw_io::{Sink, Source};
use pw_isa::{Inst, decode};
use pw_mem::Memory;

impl Hart {
    /// One instruction: it is fetched at the pc, decoded and carried out. `None` where the run goes on.
    ///
    /// This is the machine's run of one instruction, with `Limit` for `None`. `ReadFault` comes only where the count of
    /// the input's faults rose, at its environment call, and `WriteFault` only where that of the output rose, at that
    /// one: the call is then fetched and not carried out. Takes no memory.
    pub fn step<M: Memory, I: Source, O: Sink>(
        &mut self,
        mem: &mut M,
        input: &mut I,
        out: &mut O,
    ) -> Option<End>
        ensures not_limit { result ≢ Some End.Limit }
        ensures runs { Runs 1
            (record { hart = self.old; memory = M.state mem.old; input = I.state input.old; out = O.state out.old })
            (record { hart = self.new; memory = M.state mem.new; input = I.state input.new; out = O.state out.new })
            (unwrap_or result End.Limit) }
    {
        let mut used_up = false;
        self.carry_out(mem, input, &mut used_up, out)
    }

    /// At most `limit` instructions, up to the first end. `Limit` exactly where so many were fetched and none ended the
    /// run.
    ///
    /// This is the machine's run from this processor, memory and input, or it is that run up to the environment call at
    /// which the input or the output failed, as in [`Hart::step`]. An input that came to its end once is not asked
    /// again. The output is not flushed. Takes no memory.
    pub fn run<M: Memory, I: Source, O: Sink>(
        &mut self,
        mem: &mut M,
        input: &mut I,
        out: &mut O,
        limit: u64,
    ) -> End
        ensures { Runs limit
            (record { hart = self.old; memory = M.state mem.old; input = I.state input.old; out = O.state out.old })
            (record { hart = self.new; memory = M.state mem.new; input = I.state input.new; out = O.state out.new })
            result }
    {
        let mut used_up = false;
        for _fetched in 0..limit {
            if let Some(end) = self.carry_out(mem, input, &mut used_up, out) {
                return end;
            }
        }
        End::Limit
    }

    /// One instruction of a run whose input may have come to its end before.
    fn carry_out<M: Memory, I: Source, O: Sink>(
        &mut self,
        mem: &mut M,
        input: &mut I,
        used_up: &mut bool,
        out: &mut O,
    ) -> Option<End>
        ensures { Advances
            (record { hart = self.old; memory = M.state mem.old; input = I.state input.old; out = O.state out.old }) used_up.old
            (record { hart = self.new; memory = M.state mem.new; input = I.state input.new; out = O.state out.new }) used_up.new
            result }
    {
        let pc = self.pc;
        let Ok(word) = mem.fetch(pc) else {
            return Some(End::Trap {
                cause: 1,
                pc,
                value: pc,
            });
        };
        let Some(inst) = decode(word) else {
            return Some(End::Trap {
                cause: 2,
                pc,
                value: u64::from(word),
            });
        };
        match inst {
            Inst::Ecall => self.call_environment(input, used_up, out),
            _ => self.execute(mem, inst),
        }
    }
}
