//! The numbers that the gABI and the RISC-V psABI give to kinds, flags, tags and relocations, each under its name there and
//! in the order of the standards: the file header, sections, symbols, segments, the dynamic section, relocations.

// Types of files, `e_type` (gABI, "ELF Header").

/// A relocatable file, which the linker takes.
pub const ET_REL: u16 = 1;

/// A shared object file.
pub const ET_DYN: u16 = 3;

// The machine, `e_machine` (psABI, "File Header").

/// RISC-V.
pub const EM_RISCV: u16 = 243;

// The version, `e_version` (gABI, "ELF Header").

/// The current version of the format.
pub const EV_CURRENT: u32 = 1;

// Identification, `e_ident` (gABI, "ELF Identification").

/// The magic number, 64 bits, little endian, the current version; the rest is zero.
pub const IDENT: [u8; 16] = [0x7f, 0x45, 0x4c, 0x46, 2, 1, 1, 0, 0, 0, 0, 0, 0, 0, 0, 0];

// Special section indexes (gABI, "Sections").

/// No section, as the symbol of another file has it.
pub const SHN_UNDEF: u16 = 0;

// Types of sections, `sh_type` (gABI, "Sections").

/// No section: the header of index 0.
pub const SHT_NULL: u32 = 0;

/// Contents whose meaning the program gives.
pub const SHT_PROGBITS: u32 = 1;

/// The symbol table that the linker reads.
pub const SHT_SYMTAB: u32 = 2;

/// A string table.
pub const SHT_STRTAB: u32 = 3;

/// Relocations with addends.
pub const SHT_RELA: u32 = 4;

/// The hash table of the dynamic symbols.
pub const SHT_HASH: u32 = 5;

/// The dynamic section.
pub const SHT_DYNAMIC: u32 = 6;

/// No bytes in the file, zeros in memory.
pub const SHT_NOBITS: u32 = 8;

/// The symbol table that the loader reads.
pub const SHT_DYNSYM: u32 = 11;

// Flags of sections, `sh_flags` (gABI, "Sections").

/// Written while the program runs.
pub const SHF_WRITE: u64 = 1;

/// In memory while the program runs.
pub const SHF_ALLOC: u64 = 2;

/// Has instructions.
pub const SHF_EXECINSTR: u64 = 4;

// Bindings of symbols, the upper half of `st_info` (gABI, "Symbol Table").

/// Seen in its own file alone.
pub const STB_LOCAL: u8 = 0;

/// Seen in all files.
pub const STB_GLOBAL: u8 = 1;

// Types of symbols, the lower half of `st_info` (gABI, "Symbol Table").

/// No type is said.
pub const STT_NOTYPE: u8 = 0;

/// A variable.
pub const STT_OBJECT: u8 = 1;

/// A function.
pub const STT_FUNC: u8 = 2;

// Types of segments, `p_type` (gABI, "Program Header").

/// A part of the file that is loaded.
pub const PT_LOAD: u32 = 1;

/// The dynamic section.
pub const PT_DYNAMIC: u32 = 2;

// Rights of segments, `p_flags` (gABI, "Program Header").

/// Executed.
pub const PF_X: u32 = 1;

/// Written.
pub const PF_W: u32 = 2;

/// Read.
pub const PF_R: u32 = 4;

// Tags of the dynamic section, `d_tag` (gABI, "Dynamic Section").

/// The end of the entries.
pub const DT_NULL: i64 = 0;

/// The soname of a file that is needed, an offset in the string table.
pub const DT_NEEDED: i64 = 1;

/// The address of the hash table.
pub const DT_HASH: i64 = 4;

/// The address of the string table.
pub const DT_STRTAB: i64 = 5;

/// The address of the symbol table.
pub const DT_SYMTAB: i64 = 6;

/// The address of the relocations.
pub const DT_RELA: i64 = 7;

/// The bytes of the relocations.
pub const DT_RELASZ: i64 = 8;

/// The bytes of one relocation.
pub const DT_RELAENT: i64 = 9;

/// The bytes of the string table.
pub const DT_STRSZ: i64 = 10;

/// The bytes of one symbol.
pub const DT_SYMENT: i64 = 11;

/// The file's own soname, an offset in the string table.
pub const DT_SONAME: i64 = 14;

// Types of relocations, the lower half of `r_info` (psABI, "Relocations").

/// Eight bytes: a symbol's address and the addend.
pub const R_RISCV_64: u32 = 2;

/// Eight bytes: the file's base and the addend.
pub const R_RISCV_RELATIVE: u32 = 3;

/// The upper 20 bits of the distance to the slot that holds the address of a symbol.
pub const R_RISCV_GOT_HI20: u32 = 20;

/// The upper 20 bits of the distance to a symbol.
pub const R_RISCV_PCREL_HI20: u32 = 23;

/// The lower 12 bits of the distance whose upper bits stand at a label.
pub const R_RISCV_PCREL_LO12_I: u32 = 24;
