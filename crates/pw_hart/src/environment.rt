//! Environment calls, by the number in a7.

ghost use Rattle.std.specs.Prelude.{◌≡◌, ◌≢◌, ℕ, List};
ghost use Rattle.pw_isa.specs.EnvironmentCalls.{input_call, output_call};
ghost use Rattle.pw_mem.specs.Memory.{Mem};
ghost use Rattle.pw_hart.specs.State as Machine;
ghost use Rattle.pw_hart.specs.Exec.{calls_environment};
ghost use Rattle.pw_hart.specs.Harts.{state_of};
ghost use Rattle.pw_hart.specs.Steps.Advances.{IsMachines, TakesInput, PutsOutput, CallsEnvironment};

use crate::ends::End;
use crate::hart::Hart;
use pw_io::{Failed, Next, Sink, Source};
use pw_isa::environment_calls::{DEPTH_FAULT, EXIT, FAULT, INDEX_FAULT, INPUT, OUTPUT};
use pw_isa::registers::{A0, A1, A7, ZERO};

impl Hart {
    /// Takes the next byte of the input into a0, or all ones at its end. An input that came to its end is not asked
    /// again.
    fn take_input<I: Source>(&mut self, input: &mut I, used_up: &mut bool) -> Option<End>
        ensures { TakesInput (I.state input.old) used_up.old self.old (I.state input.new) used_up.new self.new result }
    {
        if *used_up {
            self.advance(A0, u64::MAX);
            return None;
        }
        match input.next() {
            Next::Byte(byte) => {
                self.advance(A0, u64::from(byte));
                None
            }
            Next::End => {
                *used_up = true;
                self.advance(A0, u64::MAX);
                None
            }
            Next::Failed => Some(End::ReadFault),
        }
    }

    /// Appends the lowest byte of a0 to the output.
    fn put_output<O: Sink>(&mut self, out: &mut O) -> Option<End>
        ensures { PutsOutput (O.state out.old) self.old (O.state out.new) self.new result }
    {
        let byte = (self.get(A0) % (1 << 8)) as u8;
        match out.put(byte) {
            Ok(()) => {
                self.advance(ZERO, 0);
                None
            }
            Err(Failed) => Some(End::WriteFault),
        }
    }

    /// How a call ends the run that neither takes nor puts.
    fn end_of_call(&self, number: u64) -> End
        requires no_input { number ≢ input_call }
        requires no_output { number ≢ output_call }
        ensures machines { IsMachines result }
        ensures ends { (mem : Mem) (input output : List ℕ) →
            calls_environment number (state_of self.now mem input output) ≡ Machine.Ends result (state_of self.now mem input output) }
    {
        let value = self.get(A0);
        if number == EXIT {
            return End::Exit(value);
        }
        if number == FAULT && value >= u64::from(INDEX_FAULT) && value <= u64::from(DEPTH_FAULT) {
            return End::Checked {
                kind: value as u8,
                line: self.get(A1),
                pc: self.pc,
            };
        }
        End::Trap {
            cause: 8,
            pc: self.pc,
            value: number,
        }
    }

    /// Carries out an environment call.
    pub(crate) fn call_environment<I: Source, O: Sink>(
        &mut self,
        input: &mut I,
        used_up: &mut bool,
        out: &mut O,
    ) -> Option<End>
        ensures { CallsEnvironment (record { input = I.state input.old; used_up = used_up.old; out = O.state out.old }) self.old
            (record { input = I.state input.new; used_up = used_up.new; out = O.state out.new }) self.new result }
    {
        let number = self.get(A7);
        if number == INPUT {
            return self.take_input(input, used_up);
        }
        if number == OUTPUT {
            return self.put_output(out);
        }
        Some(self.end_of_call(number))
    }
}
