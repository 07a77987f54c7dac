//! The instruction words of a module's text.
ghost use Rattle.std.specs.Prelude.{◌≡◌, ◌+◌, ◌≤◌, ◌<◌, ◌^◌, pos, ◌-ℤ◌, if◌then◌else◌, nat_lt, Some, [], ◌∷◌, ◌++◌, slice_get, IfOk, OnOk};
ghost use Rattle.std.specs.List.{AllByRecursion};
ghost use Rattle.pw_base.specs.Limits as limits;
ghost use Rattle.pw_base.specs.declared.kinds.Kind.TheVariants as kinds;
ghost use Rattle.pw_isa.specs.declared.instruction.Inst.TheVariants as instructions;
ghost use Rattle.pw_isa.specs.Encoding.{word_of, IsEncodable};
ghost use Rattle.pw_code.specs.LoadImmediate as immediate;
ghost use Rattle.pw_code.specs.Soundness.{IsSound};
ghost use Rattle.pw_place.specs.Distances.{IsWithinReach};
ghost use Rattle.pw_place.specs.Sizes as sizes;
ghost use Rattle.pw_place.specs.Places.{functions_in};
ghost use Rattle.pw_place.specs.Contents as contents;
ghost use Rattle.pw_place.specs.Steps.PlaceLists.{IsPlacedRef};
ghost use Rattle.pw_place.specs.Steps.PlacedItems.{IsPlacedItem, IsPlacedFunction};

use crate::distance::hi_lo;
use crate::places::Places;
use pw_base::{Kind, Limits, NoMemory};
use pw_code::{FunCode, Item, Object};
use pw_isa::environment_calls::EXIT;
use pw_isa::registers::{A7, RA, S1, T0, ZERO};
use pw_isa::{Inst, encode};
use pw_tree::Ref;
use sqlite_items::Items;
use std::alloc::Global;

/// Where the text stands, from the module's base.
const TEXT: u32 = Limits::TEXT_OFFSET as u32;

/// Where the data stand, from the module's base.
const DATA: u32 = Limits::DATA_OFFSET as u32;

/// The bytes of an instruction word.
const WORD_BYTES: u32 = 4;

/// The first number of 20 bits that means a negative one.
const UPPER_SIGN: u32 = 0x8_0000;

/// How many numbers of 20 bits there are.
const UPPER_VALUES: i32 = 0x10_0000;

/// A number of 20 bits, as a signed one.
fn signed(hi: u32) -> i32
    requires { hi < 2 ^ 20 }
    ensures { result ≡ if nat_lt hi (2 ^ 19) then pos hi else pos hi -ℤ pos (2 ^ 20) }
{
    if hi < UPPER_SIGN {
        hi as i32
    } else {
        hi as i32 - UPPER_VALUES
    }
}

/// The parts of a distance as the immediates of `auipc` and of the instruction after it.
fn immediates(distance: i64) -> (i32, i32)
    requires { IsWithinReach distance }
    ensures upper { result.0 ≡ immediate.upper_immediate distance }
    ensures lower { result.1 ≡ immediate.lower distance }
{
    let (hi, lo) = hi_lo(distance);
    (signed(hi), lo)
}

/// How far a target stands after a place.
#[tactic(auto, using(crate::proofs::Reach::is_near))]
fn distance(target: u32, at: u32) -> i64
    requires target { target < 2 ^ 26 }
    requires place { at ≤ limits.text_offset + limits.text_bytes }
    ensures distance { result ≡ pos target -ℤ pos at }
    ensures reach { IsWithinReach result }
{
    i64::from(target) - i64::from(at)
}

/// Appends an instruction.
fn put(words: &mut Items<u32>, inst: &Inst) -> Result<(), NoMemory>
    requires { IsEncodable inst.now }
    ensures { OnOk result (words.new ≡ words.old ++ word_of inst.now ∷ []) }
{
    words.push(encode(inst))?;
    Ok(())
}

/// Appends the two instructions that load an address from its slot, so far from the first of them.
fn put_slot_address(words: &mut Items<u32>, rd: u8, distance: i64) -> Result<(), NoMemory>
    requires register { rd < 32 }
    requires reach { IsWithinReach distance }
    ensures { OnOk result (words.new ≡ words.old ++ word_of (instructions.Auipc rd (immediate.upper_immediate distance)) ∷ word_of (instructions.Ld rd rd (immediate.lower distance)) ∷ []) }
{
    let (upper, lower) = immediates(distance);
    put(words, &Inst::Auipc { rd, imm: upper })?;
    put(
        words,
        &Inst::Ld {
            rd,
            rs1: rd,
            imm: lower,
        },
    )?;
    Ok(())
}

/// Appends the two instructions that compute the address of a definition, so far from the first of them.
fn put_definition_address(words: &mut Items<u32>, rd: u8, distance: i64) -> Result<(), NoMemory>
    requires register { rd < 32 }
    requires reach { IsWithinReach distance }
    ensures { OnOk result (words.new ≡ words.old ++ word_of (instructions.Auipc rd (immediate.upper_immediate distance)) ∷ word_of (instructions.Addi rd rd (immediate.lower distance)) ∷ []) }
{
    let (upper, lower) = immediates(distance);
    put(words, &Inst::Auipc { rd, imm: upper })?;
    put(
        words,
        &Inst::Addi {
            rd,
            rs1: rd,
            imm: lower,
        },
    )?;
    Ok(())
}

/// Appends the words of an address.
fn put_address(
    words: &mut Items<u32>,
    places: &Places,
    unit: usize,
    at: u32,
    rd: u8,
    to: &Ref,
) -> Result<(), NoMemory>
    requires place { at ≤ limits.text_offset + limits.text_bytes }
    requires register { rd < 32 }
    requires placed { IsPlacedRef places.now.objects.now unit to.now }
    ensures { OnOk result (words.new ≡ words.old ++ contents.words_of_item places.now.kind places.now.objects.now unit at (Item.Addr rd to.now)) }
{
    let distance = distance(places.target(unit, to), at);
    match to {
        Ref::Global(_) => put_slot_address(words, rd, distance),
        Ref::LocalFun(_) => put_definition_address(words, rd, distance),
        Ref::LocalVar(_) => put_definition_address(words, rd, distance),
    }
}

/// Appends the words of an item that stands so many bytes after the module's base.
fn put_item(
    words: &mut Items<u32>,
    places: &Places,
    unit: usize,
    at: u32,
    item: &Item,
) -> Result<(), NoMemory>
    requires place { at ≤ limits.text_offset + limits.text_bytes }
    requires placed { IsPlacedItem places.now.objects.now unit item.now }
    ensures { OnOk result (words.new ≡ words.old ++ contents.words_of_item places.now.kind places.now.objects.now unit at item.now) }
{
    match item {
        Item::Word(word) => {
            words.push(*word)?;
            Ok(())
        }
        Item::Addr { rd, to } => put_address(words, places, unit, at, *rd, to),
    }
}

/// The bytes of an item.
fn item_size(item: &Item) -> u32
    ensures { result ≡ sizes.item_bytes item.now }
{
    match item {
        Item::Word(_) => WORD_BYTES,
        Item::Addr { .. } => 2 * WORD_BYTES,
    }
}

/// Appends the words of code of a unit that stands so many bytes after the module's base.
fn put_code(
    words: &mut Items<u32>,
    places: &Places,
    unit: usize,
    at: u32,
    items: &[Item],
) -> Result<(), NoMemory>
    requires place { at + sizes.code_bytes items.now ≤ limits.text_offset + limits.text_bytes }
    requires placed { AllByRecursion (IsPlacedItem places.now.objects.now unit) items.now }
    ensures { OnOk result (words.new ≡ words.old ++ contents.words_of_code places.now.kind places.now.objects.now unit at items.now) }
{
    let mut at = at;
    for item in items {
        put_item(words, places, unit, at, item)?;
        at += item_size(item);
    }
    Ok(())
}

/// Appends the words of a function of a unit.
fn put_function(
    words: &mut Items<u32>,
    places: &Places,
    unit: usize,
    i: usize,
    f: &FunCode,
) -> Result<(), NoMemory>
    requires function { slice_get (functions_in places.now.objects.now unit) i ≡ Some f.now }
    requires placed { IsPlacedFunction places.now.objects.now unit f.now }
    ensures { OnOk result (words.new ≡ words.old ++ contents.words_of_function places.now.kind places.now.objects.now unit (i, f.now)) }
{
    let at = TEXT + places.function_start(unit, i);
    put_code(words, places, unit, at, f.items.as_slice())
}

/// Appends the words of a unit.
fn put_unit(
    words: &mut Items<u32>,
    places: &Places,
    unit: usize,
    object: &Object,
) -> Result<(), NoMemory>
    requires unit { slice_get places.now.objects.now unit ≡ Some object.now }
    requires sound { IsSound object.now }
    ensures { OnOk result (words.new ≡ words.old ++ contents.words_of_unit places.now.kind places.now.objects.now (unit, object.now)) }
{
    for (i, f) in object.funs.as_slice().iter().enumerate() {
        put_function(words, places, unit, i, f)?;
    }
    Ok(())
}

/// Appends the words of a program's entry: `main` is called, and what it returns is the exit's value.
fn put_program_entry(words: &mut Items<u32>, places: &Places) -> Result<(), NoMemory>
    ensures { OnOk result (words.new ≡ words.old ++ contents.words_of_code places.now.kind places.now.objects.now 0 limits.text_offset (sizes.entry_items kinds.Program)) }
{
    put(
        words,
        &Inst::Addi {
            rd: S1,
            rs1: ZERO,
            imm: Limits::CALLS as i32,
        },
    )?;
    let slot = DATA + places.slot_start(b"main");
    put_slot_address(words, T0, distance(slot, TEXT + WORD_BYTES))?;
    put(
        words,
        &Inst::Jalr {
            rd: RA,
            rs1: T0,
            imm: 0,
        },
    )?;
    put(
        words,
        &Inst::Addi {
            rd: A7,
            rs1: ZERO,
            imm: EXIT as i32,
        },
    )?;
    put(words, &Inst::Ecall)?;
    Ok(())
}

/// Appends the words of the entry, which a program alone has.
fn put_entry(words: &mut Items<u32>, places: &Places) -> Result<(), NoMemory>
    ensures { OnOk result (words.new ≡ words.old ++ contents.words_of_code places.now.kind places.now.objects.now 0 limits.text_offset (sizes.entry_items places.now.kind)) }
{
    match places.kind {
        Kind::Program => put_program_entry(words, places),
        Kind::Library => Ok(()),
    }
}

/// The words of the text: those of the entry, and of the functions, unit by unit.
pub(crate) fn text_words(alloc: Global, places: &Places) -> Result<Items<u32>, NoMemory>
    requires { AllByRecursion IsSound places.now.objects.now }
    ensures { IfOk result (λ words. words ≡ contents.text places.now.kind places.now.objects.now) }
{
    let mut words = Items::new(alloc);
    put_entry(&mut words, places)?;
    for (unit, object) in places.objects.iter().enumerate() {
        put_unit(&mut words, places, unit, object)?;
    }
    Ok(words)
}
