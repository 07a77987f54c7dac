//! A sink of bytes over a writer of std, such as standard output or standard error.
ghost use Rattle.std.specs.Prelude.{◌≡◌, [], ◌∷◌, OnOk, OnErr};
ghost use Rattle.std.specs.Io.KnownBytes.{Appends, Keeps};
ghost use Rattle.pw_io.specs.Faults.{risen};
ghost use Rattle.pw_io.specs.Sink.{SinkFails, wrote, flushed_all};
ghost use Rattle.pw_io.specs.Adapter.{silent_sink};

use crate::ports::{Failed, Sink};
use std::io::Write;
use std::marker::Model;

/// A sink over any writer of std. It reports nothing of its bytes. Each byte is written by itself; an error of the
/// writer, an interruption included, is a failure, and so is a write that takes nothing.
#[derive(Drop)]
pub struct StdSink<W> {
    writer: W,
    faults: u64,
}

impl<W> Model for StdSink<W> {
    ghost use Rattle.pw_io.specs.Adapter.{Adapter};

    ghost Value = { Adapter W };

    ghost view = { λ s. record { inner = s.writer; faults = s.faults } };
}

impl<W> StdSink<W> {
    /// A sink over this writer.
    pub fn new(writer: W) -> StdSink<W>
        ensures { result ≡ record { inner = writer; faults = 0 } }
    {
        StdSink { writer, faults: 0 }
    }

    /// How many calls have failed, up to 2^64-1.
    pub fn faults(&self) -> u64
        ensures { result ≡ self.now.faults }
    {
        self.faults
    }
}

impl<W: Write> Sink for StdSink<W> {
    ghost state = { silent_sink };

    /// Writes the byte; each failure is one fault.
    fn put(&mut self, byte: u8) -> Result<(), Failed>
        ensures ok { OnOk result (silent_sink self.new ≡ wrote (byte ∷ []) (silent_sink self.old)) }
        ensures err { OnErr result (SinkFails (silent_sink self.old) (silent_sink self.new)) }
        ensures written { OnOk result (Appends (W.contents self.old.inner) (W.contents self.new.inner) (byte ∷ [])) }
        ensures refused { OnErr result (Appends (W.contents self.old.inner) (W.contents self.new.inner) []) }
        ensures one_fault { OnErr result (self.new.faults ≡ risen self.old.faults) }
    {
        let buffer = [byte];
        match self.writer.write(&buffer) {
            Ok(0) | Err(_) => {
                self.faults = self.faults.saturating_add(1);
                Err(Failed)
            }
            Ok(_) => Ok(()),
        }
    }

    /// Flushes the writer; each failure is one fault.
    fn flush(&mut self) -> Result<(), Failed>
        ensures ok { OnOk result (silent_sink self.new ≡ flushed_all (silent_sink self.old)) }
        ensures err { OnErr result (SinkFails (silent_sink self.old) (silent_sink self.new)) }
        ensures kept { Keeps (W.contents self.old.inner) (W.contents self.new.inner) }
        ensures one_fault { OnErr result (self.new.faults ≡ risen self.old.faults) }
    {
        match self.writer.flush() {
            Ok(()) => Ok(()),
            Err(_) => {
                self.faults = self.faults.saturating_add(1);
                Err(Failed)
            }
        }
    }
}
