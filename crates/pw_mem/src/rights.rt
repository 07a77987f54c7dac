//! What may be done to a region: a set of three rights.

ghost use Rattle.std.specs.Prelude.{⊤, [], ◌∷◌, codes};

use bitflags::{Flag, Flags, bitflag_items};

/// A set of rights: to read, to write and to execute.
#[derive(Clone, Copy, PartialEq, Eq, Debug)]
pub struct Rights(u8);

bitflag_items! {
    impl Rights: u8 {
        const READ = 1;
        const WRITE = 2;
        const EXECUTE = 4;
    }
}

impl Flags for Rights {
    type Bits = u8;

    ghost exact = { ⊤ };

    ghost table = { (codes "READ", 1) ∷ (codes "WRITE", 2) ∷ (codes "EXECUTE", 4) ∷ [] };

    ghost set_of = { λ rights. rights.0 };

    fn flags<'a>() -> &'a [Flag<Rights>] {
        Rights::FLAGS
    }

    fn bits(&self) -> u8 {
        self.0
    }

    fn from_bits_retain(bits: u8) -> Rights {
        Rights(bits)
    }
}
