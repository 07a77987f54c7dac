//! Why there is no image of a program.
ghost use Rattle.std.specs.Prelude.{◌≡◌};
ghost use Rattle.pw_build.specs.declared.image_error.ImageError.TheVariants.{NoMemory};

use pw_base::Name;
use pw_place::LinkError;

/// Why there is no image.
#[derive(Drop)]
pub enum ImageError {
    /// The object is no program: the first fault of its link.
    Link(LinkError),
    /// The program uses this name and does not define it; the first of them in order of first declaration.
    Unbound(Name),
    /// Out of memory.
    NoMemory,
}

impl From<pw_base::NoMemory> for ImageError {
    ghost from_gives = { λ _ e. e ≡ NoMemory };

    fn from(_: pw_base::NoMemory) -> ImageError {
        ImageError::NoMemory
    }
}
