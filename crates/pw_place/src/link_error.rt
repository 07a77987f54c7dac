//! Why objects make no module.
ghost use Rattle.std.specs.Prelude.{◌≡◌};
ghost use Rattle.pw_place.specs.declared.link_error.LinkError.TheVariants.{NoMemory};

use pw_base::{Name, TypeText};

/// What a module may have too many of.
#[derive(Clone, Copy, PartialEq, Eq, Debug)]
pub enum What {
    /// Units.
    Units,
    /// Names with external linkage.
    Names,
    /// Elements of variables.
    Elements,
    /// Bytes of text, those of a program's entry included.
    TextBytes,
}

/// Why objects make no module: the first fault of the link, or that memory ran out.
#[derive(Drop)]
pub enum LinkError {
    /// More than a module may have: of what, and how many.
    TooMany(What, u64),
    /// The first name that two units define.
    Duplicate(Name),
    /// The first name to which units give different types: the first text of its type, and the first other one.
    TypeDiffers(Name, TypeText, TypeText),
    /// A program has no function `main`.
    NoMain,
    /// A program's `main` has this type in place of `long main(void)`.
    MainType(TypeText),
    /// Memory was refused.
    NoMemory,
}

impl From<pw_base::NoMemory> for LinkError {
    ghost from_gives = { λ _ e. e ≡ NoMemory };

    fn from(_: pw_base::NoMemory) -> LinkError {
        LinkError::NoMemory
    }
}
