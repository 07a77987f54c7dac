//! The arguments that the system gave the program.
ghost use Rattle.std.specs.Prelude.{None};

use crate::arguments::Arguments;
use pw_base::NoMemory;
use std::alloc::Global;
use std::env::{Env, FillError};

/// How many bytes an argument is first given room for.
const FIRST_ROOM: usize = 256;

/// The arguments of the running program. They are not reported.
#[derive(Drop)]
pub struct SystemArguments<'a, R: Env> {
    system: &'a R,
}

/// What copying an argument into some room gave.
#[derive(Drop)]
enum Copied {
    /// Its bytes.
    Whole(Vec<u8>),
    /// There is no such argument.
    Missing,
    /// It has more bytes than the room.
    TooLong,
}

impl<'a, R: Env> SystemArguments<'a, R> {
    /// The arguments that this system gave.
    pub fn new(system: &'a R) -> SystemArguments<'a, R> {
        SystemArguments { system }
    }

    /// The argument of this number, where it has room in so many bytes.
    fn copied(&self, alloc: Global, number: usize, room: usize) -> Result<Copied, NoMemory> {
        let mut bytes = Vec::new(alloc);
        bytes.resize(room, 0)?;
        match self.system.arg(number, bytes.as_mut_slice()) {
            Ok(length) => {
                bytes.truncate(length);
                Ok(Copied::Whole(bytes))
            }
            Err(FillError::NotPresent) => Ok(Copied::Missing),
            Err(FillError::TooLong) => Ok(Copied::TooLong),
        }
    }
}

impl<'a, R: Env> Arguments for SystemArguments<'a, R> {
    ghost list = { λ _. None };

    fn argument(&self, alloc: Global, number: usize) -> Result<Option<Vec<u8>>, NoMemory> {
        let mut room = FIRST_ROOM;
        for _ in 0..usize::BITS {
            match self.copied(alloc, number, room)? {
                Copied::Whole(bytes) => return Ok(Some(bytes)),
                Copied::Missing => return Ok(None),
                Copied::TooLong => room = room.saturating_mul(2),
            }
        }
        Err(NoMemory)
    }
}
