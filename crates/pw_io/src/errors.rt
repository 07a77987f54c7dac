//! Why a store did not do what it was asked.

use pw_base::NoMemory;
use std::alloc::{AllocError, AllocFailed};
use thiserror::Error;

/// Why a store gave no bytes.
#[derive(Clone, Copy, PartialEq, Eq, Debug, Error)]
pub enum ReadError {
    /// The call failed, as it does where the file is missing; the count of faults rose.
    #[error("failed")]
    Failed,
    /// The file has more bytes than this limit.
    #[error("more than {0} bytes")]
    TooLong(u64),
    /// Out of memory; everything is as before.
    #[error("out of memory")]
    NoMemory,
}

/// Why a store did not write a file.
#[derive(Clone, Copy, PartialEq, Eq, Debug, Error)]
pub enum WriteError {
    /// The call failed; the count of faults rose.
    #[error("failed")]
    Failed,
    /// Out of memory; everything is as before.
    #[error("out of memory")]
    NoMemory,
}

impl From<NoMemory> for ReadError {
    ghost use Rattle.std.specs.Prelude.{◌≡◌};
    ghost use Rattle.pw_io.specs.declared.errors.ReadError.TheVariants as cause;

    ghost from_gives = { λ _ error. error ≡ cause.NoMemory };

    fn from(_: NoMemory) -> ReadError {
        ReadError::NoMemory
    }
}

impl<T: Drop> From<AllocFailed<T>> for ReadError {
    ghost use Rattle.std.specs.Prelude.{◌≡◌};
    ghost use Rattle.pw_io.specs.declared.errors.ReadError.TheVariants as cause;

    ghost from_gives = { λ _ error. error ≡ cause.NoMemory };

    fn from(_: AllocFailed<T>) -> ReadError {
        ReadError::NoMemory
    }
}

impl From<AllocError> for ReadError {
    ghost use Rattle.std.specs.Prelude.{◌≡◌};
    ghost use Rattle.pw_io.specs.declared.errors.ReadError.TheVariants as cause;

    ghost from_gives = { λ _ error. error ≡ cause.NoMemory };

    fn from(_: AllocError) -> ReadError {
        ReadError::NoMemory
    }
}

impl From<NoMemory> for WriteError {
    ghost use Rattle.std.specs.Prelude.{◌≡◌};
    ghost use Rattle.pw_io.specs.declared.errors.WriteError.TheVariants as cause;

    ghost from_gives = { λ _ error. error ≡ cause.NoMemory };

    fn from(_: NoMemory) -> WriteError {
        WriteError::NoMemory
    }
}

impl<T: Drop> From<AllocFailed<T>> for WriteError {
    ghost use Rattle.std.specs.Prelude.{◌≡◌};
    ghost use Rattle.pw_io.specs.declared.errors.WriteError.TheVariants as cause;

    ghost from_gives = { λ _ error. error ≡ cause.NoMemory };

    fn from(_: AllocFailed<T>) -> WriteError {
        WriteError::NoMemory
    }
}

impl From<AllocError> for WriteError {
    ghost use Rattle.std.specs.Prelude.{◌≡◌};
    ghost use Rattle.pw_io.specs.declared.errors.WriteError.TheVariants as cause;

    ghost from_gives = { λ _ error. error ≡ cause.NoMemory };

    fn from(_: AllocError) -> WriteError {
        WriteError::NoMemory
    }
}
