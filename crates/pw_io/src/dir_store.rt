//! The current folder as a store of files.
ghost use Rattle.std.specs.Prelude.{◌≡◌, OnOk, OnErr, IfErr};
ghost use Rattle.std.specs.Io.KnownBytes.{Appends};
ghost use Rattle.pw_io.specs.Store.{Reads, Writes};
ghost use Rattle.pw_io.specs.Folder.{silent_store, ReadsAll, CountsFailure, CountsRead};

use crate::errors::{ReadError, WriteError};
use crate::ports::{Failed, Store};
use pw_base::Name;
use std::alloc::Global;
use std::io::{Read, Write};
use std::marker::Model;
use std::rt::Files;
use std::{fs, str};

/// How many bytes are asked of a file at once.
const CHUNK_BYTES: usize = 4096;

/// The files of the current folder. A name is given to the system as it is, so one with `/` or `..` may lead elsewhere.
/// It reports nothing of files and calls. Whatever the system refuses is a failure, an interruption and something that is
/// no regular file included, and so is a write that takes nothing.
#[derive(Drop)]
pub struct DirStore<'a, F: Files> {
    system: &'a F,
    faults: u64,
}

impl<'a, F: Files> Model for DirStore<'a, F> {
    ghost use Rattle.std.specs.Prelude.{ℕ};

    ghost Value = { ℕ };

    ghost view = { λ s. s.faults };
}

/// Whether something other than a regular file has this name.
fn is_special<F: Files>(system: &F, path: &str) -> bool {
    match fs::metadata(system, path) {
        Ok(metadata) => !metadata.is_file(),
        Err(_) => false,
    }
}

/// Reads to the end, or up to one byte past the limit.
fn read_all<R: Read>(alloc: Global, reader: &mut R, limit: u64) -> Result<Vec<u8>, ReadError>
    ensures { ReadsAll (R.remaining reader.old) limit result }
{
    let mut bytes = Vec::new(alloc);
    let mut chunk = [0u8; CHUNK_BYTES];
    while bytes.len() as u64 <= limit {
        let wanted = (limit - bytes.len() as u64).min(CHUNK_BYTES as u64 - 1) as usize + 1;
        match reader.read(&mut chunk[..wanted]) {
            Ok(0) => return Ok(bytes),
            Ok(taken) => bytes.extend_from_slice(&chunk[..taken])?,
            Err(_) => return Err(ReadError::Failed),
        }
    }
    Err(ReadError::TooLong(limit))
}

/// Writes every byte.
fn write_all<W: Write>(writer: &mut W, bytes: &[u8]) -> Result<(), Failed>
    ensures { OnOk result (Appends (W.contents writer.old) (W.contents writer.new) bytes.now) }
{
    let mut rest = bytes;
    while !rest.is_empty() {
        match writer.write(rest) {
            Ok(0) | Err(_) => return Err(Failed),
            Ok(taken) => rest = &rest[taken..],
        }
    }
    Ok(())
}

impl<'a, F: Files> DirStore<'a, F> {
    /// The current folder of this system.
    pub fn new(system: &'a F) -> DirStore<'a, F>
        ensures { result ≡ 0 }
    {
        DirStore { system, faults: 0 }
    }

    /// How many calls have failed, up to 2^64-1.
    pub fn faults(&self) -> u64
        ensures { result ≡ self.now }
    {
        self.faults
    }

    /// Reads the file of this name.
    fn read_file(&self, alloc: Global, name: &Name, limit: u64) -> Result<Vec<u8>, ReadError>
        ensures { ReadsAll None limit result }
    {
        let Ok(path) = str::from_utf8(name.bytes()) else {
            return Err(ReadError::Failed);
        };
        if is_special(self.system, path) {
            return Err(ReadError::Failed);
        }
        match fs::open(self.system, path) {
            Ok(mut file) => read_all(alloc, &mut file, limit),
            Err(_) => Err(ReadError::Failed),
        }
    }

    /// Makes or empties the file of this name, and writes the bytes.
    fn write_file(&self, name: &Name, bytes: &[u8]) -> Result<(), Failed> {
        let Ok(path) = str::from_utf8(name.bytes()) else {
            return Err(Failed);
        };
        if is_special(self.system, path) {
            return Err(Failed);
        }
        match fs::create(self.system, path) {
            Ok(mut file) => write_all(&mut file, bytes),
            Err(_) => Err(Failed),
        }
    }

    /// Counts one more failure.
    fn count_failure(&mut self)
        ensures { CountsFailure self.old self.new }
    {
        self.faults = self.faults.saturating_add(1);
    }
}

impl<'a, F: Files> Store for DirStore<'a, F> {
    ghost state = { silent_store };

    /// Reads the file, at most one byte past the limit; each failure is one fault.
    fn read(&mut self, alloc: Global, name: &Name, limit: u64) -> Result<Vec<u8>, ReadError>
        ensures reads { Reads (silent_store self.old) name.now limit (silent_store self.new) result }
        ensures one_fault { IfErr result (λ error. CountsRead self.old error self.new) }
    {
        match self.read_file(alloc, name, limit) {
            Err(ReadError::Failed) => {
                self.count_failure();
                Err(ReadError::Failed)
            }
            answer => answer,
        }
    }

    /// Makes or empties the file, and writes the bytes; each failure is one fault.
    fn write(&mut self, name: &Name, bytes: &[u8]) -> Result<(), WriteError>
        ensures writes { Writes (silent_store self.old) name.now bytes.now (silent_store self.new) result }
        ensures failure { OnErr result (result ≡ Err WriteError.Failed) }
        ensures one_fault { OnErr result (CountsFailure self.old self.new) }
    {
        match self.write_file(name, bytes) {
            Ok(()) => Ok(()),
            Err(Failed) => {
                self.count_failure();
                Err(WriteError::Failed)
            }
        }
    }
}
