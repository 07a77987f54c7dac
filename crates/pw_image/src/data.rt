//! The bytes of the data, with addresses in the places of relocations.
ghost use Rattle.std.specs.Prelude.{◌≡◌, ◌+◌, ◌-◌, ◌%◌, ◌^◌, ◌++◌, length, IfOk, OnOk};
ghost use Rattle.std.specs.List.{All};
ghost use Rattle.pw_base.specs.Bytes.{le_bytes};
ghost use Rattle.pw_base.specs.Limits.{data_offset};
ghost use Rattle.pw_mem.specs.Memory.{zeros};
ghost use Rattle.pw_image.specs.Relocated.{LiesInData, address_of_kind, symbol_address, relocation_value, put_at, relocated};

use pw_base::{Limits, NoMemory};
use pw_module::{Reloc, RelocKind, SymKind, Symbol};
use pw_place::Placed;
use std::alloc::Global;

/// The address of the first module.
const BASE: u64 = Limits::MODULE_SPAN;

/// The address of its text.
const TEXT: u64 = BASE + Limits::TEXT_OFFSET;

/// The address of its data.
const DATA: u64 = BASE + Limits::DATA_OFFSET;

/// The bytes of an address.
const ADDRESS_BYTES: usize = 8;

/// The address of what a symbol stands for, in 64 bits.
fn address_of(kind: SymKind) -> u64
    ensures { result ≡ address_of_kind kind % 2 ^ 64 }
{
    match kind {
        SymKind::Fun(start, _) => TEXT.wrapping_add(start),
        SymKind::Var(start, _) => DATA.wrapping_add(start),
        SymKind::Undefined => 0,
    }
}

/// The address of the symbol of a number, in 64 bits; 0 where there is none.
fn address_of_symbol(symbols: &[Option<Symbol>], number: u32) -> u64
    ensures { result ≡ symbol_address symbols.now number % 2 ^ 64 }
{
    match symbols.get(number as usize) {
        Some(Some(symbol)) => address_of(symbol.kind),
        Some(None) | None => 0,
    }
}

/// The address that a relocation asks for, in 64 bits.
fn address_for(symbols: &[Option<Symbol>], kind: RelocKind) -> u64
    ensures { result ≡ relocation_value symbols.now kind % 2 ^ 64 }
{
    match kind {
        RelocKind::Sym(number) => address_of_symbol(symbols, number),
        RelocKind::Base(distance) => BASE.wrapping_add(distance),
    }
}

/// Puts the address of a relocation in its place.
fn relocate_one(data: &mut [u8], symbols: &[Option<Symbol>], reloc: &Reloc)
    requires { LiesInData (length data.old) reloc.now }
    ensures { data.new ≡
        put_at data.old (reloc.now.offset - data_offset) (le_bytes 8 (relocation_value symbols.now reloc.now.kind)) }
{
    let at = (reloc.offset - Limits::DATA_OFFSET) as usize;
    let address = address_for(symbols, reloc.kind);
    data[at..at + ADDRESS_BYTES].copy_from_slice(&address.to_le_bytes());
}

/// Puts the address of each relocation in its place.
fn relocate(data: &mut [u8], symbols: &[Option<Symbol>], relocs: &[Reloc])
    requires { All (LiesInData (length data.old)) relocs.now }
    ensures { data.new ≡ relocated symbols.now data.old relocs.now }
{
    for reloc in relocs {
        relocate_one(data, symbols, reloc);
    }
}

/// Appends so many zeros.
#[tactic(auto, unfolding(pw_mem::specs::Memory::zeros))]
fn put_zeros(data: &mut Vec<u8>, count: u64) -> Result<(), NoMemory>
    ensures { OnOk result (data.new.items ≡ data.old.items ++ zeros count) }
{
    let size = data.len().checked_add(count as usize).ok_or(NoMemory)?;
    data.resize(size, 0)?;
    Ok(())
}

/// The bytes of the data of a program that is the first module, with its zeros, and with the address of each relocation in its
/// place.
pub fn relocated_data(alloc: Global, placed: &Placed) -> Result<Vec<u8>, NoMemory>
    requires { All (LiesInData (length placed.now.bytes + placed.now.zeros)) placed.now.relocs }
    ensures { IfOk result (λ content. content.items ≡
        relocated placed.now.symbols (placed.now.bytes ++ zeros placed.now.zeros) placed.now.relocs) }
{
    let mut data = placed.bytes.as_slice().to_vec(alloc)?;
    put_zeros(&mut data, placed.zeros)?;
    relocate(
        &mut data,
        placed.symbols.as_slice(),
        placed.relocs.as_slice(),
    );
    Ok(data)
}
