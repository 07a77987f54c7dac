//! A store of files in memory, which fails at the calls that it is asked to, and where a file to be read is missing.
ghost use Rattle.std.specs.Prelude.{◌≡◌, ◌⊎◌, ◌↔◌, ◌<◌, ℕ, List, [], vec_len, position, IsTrue, OnErr, option_copied};
ghost use Rattle.std.specs.Str.{bytes_eq};
ghost use Rattle.pw_io.specs.Faults.{risen};
ghost use Rattle.pw_io.specs.Store.{Reads, Writes};
ghost use Rattle.pw_io.specs.InMemory.{reported_store, bytes_of, IsListed, IsMissing, ReadFailsWhere, WriteFailsWhere, Fails, WritesFile};

use crate::errors::{ReadError, WriteError};
use crate::ports::{Asked, Store};
use pw_base::{Name, NoMemory};
use std::alloc::Global;
use std::marker::Model;

/// Files in memory as a store, which fails exactly at the calls that are listed, and where the file to be read is
/// missing.
#[derive(Drop)]
pub struct MemStore {
    alloc: Global,
    files: Vec<(Name, Vec<u8>)>,
    fails: Vec<u64>,
    calls: Vec<Asked>,
    faults: u64,
}

impl Model for MemStore {
    ghost use Rattle.pw_io.specs.InMemory.{StoreInMemory};

    ghost Value = { StoreInMemory };

    ghost view = { λ s. record { files = s.files.items; fails = s.fails.items; calls = s.calls.items; faults = s.faults } };
}

/// Whether the file has this name.
fn has_name(file: &(Name, Vec<u8>), name: &Name) -> bool
    ensures { result ≡ bytes_eq file.now.0 name.now }
{
    file.0.bytes() == name.bytes()
}

/// The bytes of the first file of this name.
fn find_file<'a>(files: &'a [(Name, Vec<u8>)], name: &Name) -> Option<&'a [u8]>
    ensures { option_copied result ≡ bytes_of files.now name.now }
{
    match files.iter().find(|file| has_name(file, name)) {
        Some(file) => Some(file.1.as_slice()),
        None => None,
    }
}

/// The place of the first file of this name, from 0.
fn place_of(files: &[(Name, Vec<u8>)], name: &Name) -> Option<usize>
    ensures { result ≡ position (λ file. bytes_eq file.0 name.now) files.now }
{
    files.iter().position(|file| has_name(file, name))
}

/// Gives the first file of this name, at its place, these bytes.
fn replace_file(files: &mut Vec<(Name, Vec<u8>)>, place: usize, bytes: Vec<u8>)
    requires { place < vec_len files.old }
    ensures { (name : List ℕ) → position (λ file. bytes_eq file.0 name) files.old.items ≡ Some place
        → WritesFile files.old.items name bytes.items files.new.items (Ok tt) }
{
    files[place].1 = bytes;
}

/// Adds a file of this name, which none has.
fn add_file(
    alloc: Global,
    files: &mut Vec<(Name, Vec<u8>)>,
    name: &Name,
    bytes: Vec<u8>,
) -> Result<(), NoMemory>
    requires { position (λ file. bytes_eq file.0 name.now) files.old.items ≡ None }
    ensures { WritesFile files.old.items name.now bytes.items files.new.items result }
{
    let copy = name.copy(alloc)?;
    let Ok(()) = files.push((copy, bytes)) else {
        return Err(NoMemory);
    };
    Ok(())
}

/// Gives the first file of this name these bytes, or adds such a file.
fn write_file(
    alloc: Global,
    files: &mut Vec<(Name, Vec<u8>)>,
    name: &Name,
    bytes: Vec<u8>,
) -> Result<(), NoMemory>
    ensures { WritesFile files.old.items name.now bytes.items files.new.items result }
{
    match place_of(files, name) {
        Some(place) => {
            replace_file(files, place, bytes);
            Ok(())
        }
        None => add_file(alloc, files, name, bytes),
    }
}

impl MemStore {
    /// A store of these files, whose calls with the listed numbers fail, counted from 1. Where two files have one
    /// name, the first is meant. No memory is taken.
    pub fn new(alloc: Global, files: Vec<(Name, Vec<u8>)>, fails: Vec<u64>) -> MemStore
        ensures { result ≡ record { files = files.items; fails = fails.items; calls = []; faults = 0 } }
    {
        MemStore {
            alloc,
            files,
            fails,
            calls: Vec::new(alloc),
            faults: 0,
        }
    }

    /// The bytes of the file of this name, if there is one.
    pub fn file(&self, name: &Name) -> Option<&[u8]>
        ensures { option_copied result ≡ bytes_of self.now.files name.now }
    {
        find_file(&self.files, name)
    }

    /// The calls made that were not refused for memory, the first first.
    pub fn calls(&self) -> &[Asked]
        ensures { result.now ≡ self.now.calls }
    {
        self.calls.as_slice()
    }

    /// How many calls have failed, up to 2^64-1.
    pub fn faults(&self) -> u64
        ensures { result ≡ self.now.faults }
    {
        self.faults
    }
}

impl MemStore {
    /// Whether the next call is one of those that are to fail.
    fn is_listed(&self) -> bool
        ensures { IsTrue result ↔ IsListed self.now }
    {
        self.fails.contains(&(self.calls.len() as u64 + 1))
    }

    /// Lets a call fail: it is added to the calls, and the count of faults rises. After `NoMemory` all is as before.
    fn fail(&mut self, asked: Asked) -> Result<(), NoMemory>
        ensures { Fails self.old asked self.new result }
    {
        self.calls.push(asked).map_err(|_| NoMemory)?;
        self.faults = self.faults.saturating_add(1);
        Ok(())
    }
}

impl Store for MemStore {
    ghost state = { reported_store };

    /// The whole bytes of the file; it fails exactly at the listed calls and where there is no such file.
    fn read(&mut self, alloc: Global, name: &Name, limit: u64) -> Result<Vec<u8>, ReadError>
        ensures reads { Reads (reported_store self.old) name.now limit (reported_store self.new) result }
        ensures fails { ReadFailsWhere (IsListed self.old ⊎ IsMissing self.old name.now) result }
        ensures one_fault { result ≡ Err ReadError.Failed → self.new.faults ≡ risen self.old.faults }
        ensures plan { self.new.fails ≡ self.old.fails }
    {
        let asked = Asked::Read(name.copy(alloc)?);
        if self.is_listed() {
            self.fail(asked)?;
            return Err(ReadError::Failed);
        }
        let Some(bytes) = find_file(&self.files, name) else {
            self.fail(asked)?;
            return Err(ReadError::Failed);
        };
        if bytes.len() as u64 > limit {
            self.calls.push(asked)?;
            return Err(ReadError::TooLong(limit));
        }
        let copy = Vec::from_slice(alloc, bytes)?;
        self.calls.push(asked)?;
        Ok(copy)
    }

    /// Replaces the file, or makes it; it fails exactly at the listed calls, and changes no file then.
    fn write(&mut self, name: &Name, bytes: &[u8]) -> Result<(), WriteError>
        ensures writes { Writes (reported_store self.old) name.now bytes.now (reported_store self.new) result }
        ensures fails { WriteFailsWhere (IsListed self.old) result }
        ensures one_fault { result ≡ Err WriteError.Failed → self.new.faults ≡ risen self.old.faults }
        ensures unchanged { OnErr result (self.new.files ≡ self.old.files) }
        ensures plan { self.new.fails ≡ self.old.fails }
    {
        let asked = Asked::Write(name.copy(self.alloc)?);
        if self.is_listed() {
            self.fail(asked)?;
            return Err(WriteError::Failed);
        }
        let copy = Vec::from_slice(self.alloc, bytes)?;
        self.calls.reserve(1)?;
        write_file(self.alloc, &mut self.files, name, copy)?;
        self.calls.push(asked).unwrap();
        Ok(())
    }
}
