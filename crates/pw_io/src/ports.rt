//! The three ports: what a source, a sink and a store promise to whoever reads, writes and asks.
ghost use Rattle.std.specs.Prelude.{◌≡◌, [], ◌∷◌, OnOk, OnErr};
ghost use Rattle.pw_io.specs.Source.{SourceState, Gives};
ghost use Rattle.pw_io.specs.Sink.{SinkState, SinkFails, wrote, flushed_all};
ghost use Rattle.pw_io.specs.Store.{StoreState, Reads, Writes};

use crate::errors::{ReadError, WriteError};
use pw_base::Name;
use std::alloc::Global;
use thiserror::Error;

/// What a source answers to the call for its next byte.
#[derive(Clone, Copy, PartialEq, Eq, Debug)]
pub enum Next {
    /// The first byte that was left.
    Byte(u8),
    /// No byte is left.
    End,
    /// The call failed: it took nothing, and the count of faults rose.
    Failed,
}

/// A call of a sink failed: it appended and flushed nothing, and the count of faults rose.
#[derive(Clone, Copy, PartialEq, Eq, Debug, Error)]
#[error("failed")]
pub struct Failed;

/// A call made on a store, with the file's name.
#[derive(Debug, Drop)]
pub enum Asked {
    /// To read the file.
    Read(Name),
    /// To write the file.
    Write(Name),
}

/// A source of bytes. It means the bytes left, where it reports them, and a count of faults that never falls.
pub trait Source {
    ghost state: { Self → SourceState };

    /// The first byte left, which is taken; the end only where nothing is left; a failure only where the count rose.
    fn next(&mut self) -> Next
        ensures { Gives (state self.old) result (state self.new) };
}

/// A sink of bytes. It means the bytes written and how many of them are flushed, where it reports them, and a count of
/// faults that never falls.
pub trait Sink {
    ghost state: { Self → SinkState };

    /// Appends one byte. A failure comes only where the count rose, and appends nothing.
    fn put(&mut self, byte: u8) -> Result<(), Failed>
        ensures ok { OnOk result (state self.new ≡ wrote (byte ∷ []) (state self.old)) }
        ensures err { OnErr result (SinkFails (state self.old) (state self.new)) };

    /// Flushes every byte written. A failure comes only where the count rose, and flushes nothing.
    fn flush(&mut self) -> Result<(), Failed>
        ensures ok { OnOk result (state self.new ≡ flushed_all (state self.old)) }
        ensures err { OnErr result (SinkFails (state self.old) (state self.new)) };
}

/// A store of files. It means the files by name and the calls made on it, where it reports them, and a count of faults
/// that never falls. A call that is not refused for memory adds itself to the calls, however it ends.
pub trait Store {
    ghost state: { Self → StoreState };

    /// The whole bytes of the file of this name, at most `limit`; `TooLong(limit)` exactly where more stand there, in
    /// a call that does not fail. A missing file is a failure. No file changes.
    fn read(&mut self, alloc: Global, name: &Name, limit: u64) -> Result<Vec<u8>, ReadError>
        ensures { Reads (state self.old) name.now limit (state self.new) result };

    /// Replaces the file of this name by these bytes, or makes it. After a failure that file may hold anything, and every
    /// other is as before.
    fn write(&mut self, name: &Name, bytes: &[u8]) -> Result<(), WriteError>
        ensures { Writes (state self.old) name.now bytes.now (state self.new) result };
}
