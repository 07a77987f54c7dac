//! A source of bytes over a reader of std, such as standard input.
ghost use Rattle.std.specs.Prelude.{◌≡◌};
ghost use Rattle.pw_io.specs.Faults.{risen};
ghost use Rattle.pw_io.specs.Source.{Gives};
ghost use Rattle.pw_io.specs.Adapter.{silent_source, TakesFrom};

use crate::ports::{Next, Source};
use std::io::Read;
use std::marker::Model;

/// A source over any reader of std. It reports nothing of its bytes. Each call reads one byte; an error of the reader,
/// an interruption included, is a failure.
#[derive(Drop)]
pub struct StdSource<R> {
    reader: R,
    faults: u64,
}

impl<R> Model for StdSource<R> {
    ghost use Rattle.pw_io.specs.Adapter.{Adapter};

    ghost Value = { Adapter R };

    ghost view = { λ s. record { inner = s.reader; faults = s.faults } };
}

impl<R> StdSource<R> {
    /// A source over this reader.
    pub fn new(reader: R) -> StdSource<R>
        ensures { result ≡ record { inner = reader; faults = 0 } }
    {
        StdSource { reader, faults: 0 }
    }

    /// How many calls have failed, up to 2^64-1.
    pub fn faults(&self) -> u64
        ensures { result ≡ self.now.faults }
    {
        self.faults
    }
}

impl<R: Read> Source for StdSource<R> {
    ghost state = { silent_source };

    /// The reader's next byte, or the end where it gives none; each failure is one fault.
    fn next(&mut self) -> Next
        ensures gives { Gives (silent_source self.old) result (silent_source self.new) }
        ensures reader { TakesFrom (R.remaining self.old.inner) result (R.remaining self.new.inner) }
        ensures one_fault { result ≡ Next.Failed → self.new.faults ≡ risen self.old.faults }
    {
        let mut buffer = [0u8; 1];
        match self.reader.read(&mut buffer) {
            Ok(0) => Next::End,
            Ok(_) => Next::Byte(buffer[0]),
            Err(_) => {
                self.faults = self.faults.saturating_add(1);
                Next::Failed
            }
        }
    }
}
