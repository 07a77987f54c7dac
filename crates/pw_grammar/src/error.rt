//! The faults of a token list.
ghost use Rattle.std.specs.Prelude.{◌≡◌};
ghost use Rattle.pw_grammar.specs.Faults.{token_of};

use pw_base::NoMemory;
use std::alloc::AllocError;
use thiserror::Error;

/// Why a token list has no tree: its first fault, with the faulty token's number, from 0.
#[derive(Clone, Copy, PartialEq, Eq, Debug, Error)]
pub enum SyntaxError {
    /// No unit begins with the tokens up to this one; the number of tokens, where the list ends too early.
    #[error("syntax")]
    At(u32),
    /// The token opens a bracket while `Limits::OPEN_BRACKETS` are open.
    #[error("brackets too deep")]
    TooNested(u32),
    /// The token is the first of a function's body that stands after `Limits::FUNCTION_TOKENS` tokens of the function.
    #[error("function too long")]
    TooLong(u32),
    /// Memory for the tree was refused.
    #[error("out of memory")]
    NoMemory,
}

impl SyntaxError {
    /// The faulty token's number, from 0; 0 for `NoMemory`.
    pub fn token(&self) -> u32
        ensures { result ≡ token_of self.now }
    {
        match self {
            SyntaxError::At(token) | SyntaxError::TooNested(token) | SyntaxError::TooLong(token) =>
                *token,
            SyntaxError::NoMemory => 0,
        }
    }
}

impl From<AllocError> for SyntaxError {
    ghost use Rattle.std.specs.Prelude.{◌≡◌};
    ghost use Rattle.pw_grammar.specs.declared.error.SyntaxError.TheVariants as errors;

    ghost from_gives = { λ _ e. e ≡ errors.NoMemory };

    fn from(_: AllocError) -> SyntaxError {
        SyntaxError::NoMemory
    }
}

impl From<NoMemory> for SyntaxError {
    ghost use Rattle.std.specs.Prelude.{◌≡◌};
    ghost use Rattle.pw_grammar.specs.declared.error.SyntaxError.TheVariants as errors;

    ghost from_gives = { λ _ e. e ≡ errors.NoMemory };

    fn from(_: NoMemory) -> SyntaxError {
        SyntaxError::NoMemory
    }
}
