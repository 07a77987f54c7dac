//! The relocations of a module: which doublewords of its data are addresses.

/// What a relocation puts into its place.
#[derive(Clone, Copy, PartialEq, Eq, Debug)]
pub enum RelocKind {
    /// The address of what the symbol of this number means.
    Sym(u32),
    /// The address of the module's own byte at this distance from its base.
    Base(u64),
}

/// A relocation of a doubleword.
#[derive(Clone, Copy, PartialEq, Eq, Debug)]
pub struct Reloc {
    /// Where the doubleword stands, from the module's base.
    pub offset: u64,
    pub kind: RelocKind,
}
