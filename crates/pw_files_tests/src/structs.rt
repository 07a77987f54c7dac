//! The structs of an ELF64 file: each field at its place and at its limits, and names in a string table.

use pw_elf::{
    Dynamic, Header, Rela, Section, Segment, Sym, dynamic_at, header_at, put_dynamic, put_header,
    put_rela, put_section, put_segment, put_symbol, rela_at, section_at, segment_at, symbol_at,
};
use std::alloc::Global;
use std::test::Fail;

/// Bytes that are each the number of its place.
const PLACES: [u8; 65] = [
    0, 1, 2, 3, 4, 5, 6, 7, 8, 9, 10, 11, 12, 13, 14, 15, 16, 17, 18, 19, 20, 21, 22, 23, 24, 25,
    26, 27, 28, 29, 30, 31, 32, 33, 34, 35, 36, 37, 38, 39, 40, 41, 42, 43, 44, 45, 46, 47, 48, 49,
    50, 51, 52, 53, 54, 55, 56, 57, 58, 59, 60, 61, 62, 63, 64,
];

/// Bytes that are each 0: every field has its least value, or 0.
const ZEROS: [u8; 64] = [0; 64];

/// Bytes that are each 255: every field has its greatest value, or -1.
const ONES: [u8; 64] = [255; 64];

/// Whether the header that stands in the bytes is written to the same bytes.
fn header_again(alloc: Global, bytes: &[u8]) -> Result<bool, Fail> {
    let mut written = Vec::new(alloc);
    match header_at(bytes, 0) {
        Some(found) => put_header(&mut written, &found)?,
        None => return Ok(false),
    }
    Ok(written.as_slice() == bytes)
}

#[test]
fn each_field_of_a_header_stands_at_its_place(rt: HostRuntime) -> Result<(), Fail> {
    let expected = Header {
        ident: [1, 2, 3, 4, 5, 6, 7, 8, 9, 10, 11, 12, 13, 14, 15, 16],
        kind: 0x1211,
        machine: 0x1413,
        version: 0x18171615,
        entry: 0x201f1e1d1c1b1a19,
        phoff: 0x2827262524232221,
        shoff: 0x302f2e2d2c2b2a29,
        flags: 0x34333231,
        ehsize: 0x3635,
        phentsize: 0x3837,
        phnum: 0x3a39,
        shentsize: 0x3c3b,
        shnum: 0x3e3d,
        shstrndx: 0x403f,
    };
    assert!(rt; header_at(PLACES.as_slice(), 1) == Some(expected));
    let alloc = rt.alloc();
    assert!(rt; header_again(alloc, &PLACES[1..65])?);
    assert!(rt; header_again(alloc, ZEROS.as_slice())?);
    assert!(rt; header_again(alloc, ONES.as_slice())?);
    assert!(rt; header_at(ONES.as_slice(), 1).is_none());
    assert!(rt; header_at(ONES.as_slice(), 0xffff_ffff_ffff_ffff).is_none());
    Ok(())
}

/// Whether the section that stands in the bytes is written to the same bytes.
fn section_again(alloc: Global, bytes: &[u8]) -> Result<bool, Fail> {
    let mut written = Vec::new(alloc);
    match section_at(bytes, 0) {
        Some(found) => put_section(&mut written, &found)?,
        None => return Ok(false),
    }
    Ok(written.as_slice() == bytes)
}

#[test]
fn each_field_of_a_section_stands_at_its_place(rt: HostRuntime) -> Result<(), Fail> {
    let expected = Section {
        name: 0x4030201,
        kind: 0x8070605,
        flags: 0x100f0e0d0c0b0a09,
        addr: 0x1817161514131211,
        offset: 0x201f1e1d1c1b1a19,
        size: 0x2827262524232221,
        link: 0x2c2b2a29,
        info: 0x302f2e2d,
        addralign: 0x3837363534333231,
        entsize: 0x403f3e3d3c3b3a39,
    };
    assert!(rt; section_at(PLACES.as_slice(), 1) == Some(expected));
    let alloc = rt.alloc();
    assert!(rt; section_again(alloc, &PLACES[1..65])?);
    assert!(rt; section_again(alloc, ZEROS.as_slice())?);
    assert!(rt; section_again(alloc, ONES.as_slice())?);
    assert!(rt; section_at(ONES.as_slice(), 1).is_none());
    assert!(rt; section_at(ONES.as_slice(), 0xffff_ffff_ffff_ffff).is_none());
    Ok(())
}

/// Whether the segment that stands in the bytes is written to the same bytes.
fn segment_again(alloc: Global, bytes: &[u8]) -> Result<bool, Fail> {
    let mut written = Vec::new(alloc);
    match segment_at(bytes, 0) {
        Some(found) => put_segment(&mut written, &found)?,
        None => return Ok(false),
    }
    Ok(written.as_slice() == bytes)
}

#[test]
fn each_field_of_a_segment_stands_at_its_place(rt: HostRuntime) -> Result<(), Fail> {
    let expected = Segment {
        kind: 0x4030201,
        flags: 0x8070605,
        offset: 0x100f0e0d0c0b0a09,
        vaddr: 0x1817161514131211,
        paddr: 0x201f1e1d1c1b1a19,
        filesz: 0x2827262524232221,
        memsz: 0x302f2e2d2c2b2a29,
        align: 0x3837363534333231,
    };
    assert!(rt; segment_at(PLACES.as_slice(), 1) == Some(expected));
    let alloc = rt.alloc();
    assert!(rt; segment_again(alloc, &PLACES[1..57])?);
    assert!(rt; segment_again(alloc, &ZEROS[8..])?);
    assert!(rt; segment_again(alloc, &ONES[8..])?);
    assert!(rt; segment_at(ONES.as_slice(), 9).is_none());
    assert!(rt; segment_at(ONES.as_slice(), 0xffff_ffff_ffff_ffff).is_none());
    Ok(())
}

/// Whether the symbol that stands in the bytes is written to the same bytes.
fn symbol_again(alloc: Global, bytes: &[u8]) -> Result<bool, Fail> {
    let mut written = Vec::new(alloc);
    match symbol_at(bytes, 0) {
        Some(found) => put_symbol(&mut written, &found)?,
        None => return Ok(false),
    }
    Ok(written.as_slice() == bytes)
}

#[test]
fn each_field_of_a_symbol_stands_at_its_place(rt: HostRuntime) -> Result<(), Fail> {
    let expected = Sym {
        name: 0x4030201,
        info: 0x5,
        other: 0x6,
        shndx: 0x807,
        value: 0x100f0e0d0c0b0a09,
        size: 0x1817161514131211,
    };
    assert!(rt; symbol_at(PLACES.as_slice(), 1) == Some(expected));
    let alloc = rt.alloc();
    assert!(rt; symbol_again(alloc, &PLACES[1..25])?);
    assert!(rt; symbol_again(alloc, &ZEROS[40..])?);
    assert!(rt; symbol_again(alloc, &ONES[40..])?);
    assert!(rt; symbol_at(ONES.as_slice(), 41).is_none());
    assert!(rt; symbol_at(ONES.as_slice(), 0xffff_ffff_ffff_ffff).is_none());
    Ok(())
}

/// Whether the rela that stands in the bytes is written to the same bytes.
fn rela_again(alloc: Global, bytes: &[u8]) -> Result<bool, Fail> {
    let mut written = Vec::new(alloc);
    match rela_at(bytes, 0) {
        Some(found) => put_rela(&mut written, &found)?,
        None => return Ok(false),
    }
    Ok(written.as_slice() == bytes)
}

#[test]
fn each_field_of_a_rela_stands_at_its_place(rt: HostRuntime) -> Result<(), Fail> {
    let expected = Rela {
        offset: 0x807060504030201,
        info: 0x100f0e0d0c0b0a09,
        addend: 0x1817161514131211,
    };
    assert!(rt; rela_at(PLACES.as_slice(), 1) == Some(expected));
    let alloc = rt.alloc();
    assert!(rt; rela_again(alloc, &PLACES[1..25])?);
    assert!(rt; rela_again(alloc, &ZEROS[40..])?);
    assert!(rt; rela_again(alloc, &ONES[40..])?);
    assert!(rt; rela_at(ONES.as_slice(), 41).is_none());
    assert!(rt; rela_at(ONES.as_slice(), 0xffff_ffff_ffff_ffff).is_none());
    Ok(())
}

/// Whether the dynamic that stands in the bytes is written to the same bytes.
fn dynamic_again(alloc: Global, bytes: &[u8]) -> Result<bool, Fail> {
    let mut written = Vec::new(alloc);
    match dynamic_at(bytes, 0) {
        Some(found) => put_dynamic(&mut written, &found)?,
        None => return Ok(false),
    }
    Ok(written.as_slice() == bytes)
}

#[test]
fn each_field_of_a_dynamic_stands_at_its_place(rt: HostRuntime) -> Result<(), Fail> {
    let expected = Dynamic {
        tag: 0x807060504030201,
        val: 0x100f0e0d0c0b0a09,
    };
    assert!(rt; dynamic_at(PLACES.as_slice(), 1) == Some(expected));
    let alloc = rt.alloc();
    assert!(rt; dynamic_again(alloc, &PLACES[1..17])?);
    assert!(rt; dynamic_again(alloc, &ZEROS[48..])?);
    assert!(rt; dynamic_again(alloc, &ONES[48..])?);
    assert!(rt; dynamic_at(ONES.as_slice(), 49).is_none());
    assert!(rt; dynamic_at(ONES.as_slice(), 0xffff_ffff_ffff_ffff).is_none());
    Ok(())
}

#[test]
fn signed_fields_are_signed(rt: HostRuntime) -> Result<(), Fail> {
    assert!(rt; rela_at(ONES.as_slice(), 0).map(|found| found.addend) == Some(-1));
    assert!(rt; dynamic_at(ONES.as_slice(), 0).map(|found| found.tag) == Some(-1));
    Ok(())
}

/// A string table, and the name at each offset.
const STRINGS: [u8; 12] = *b"\0main\0a b\0zz";

/// Whether the string table has this name at the offset.
fn has_name(alloc: Global, table: &[u8], off: u64, expected: Option<&[u8]>) -> Result<bool, Fail> {
    match pw_elf::string_at(alloc, table, off)? {
        Some(name) => match expected {
            Some(expected) => Ok(name.bytes() == expected),
            None => Ok(false),
        },
        None => Ok(expected.is_none()),
    }
}

#[test]
fn a_name_ends_at_a_zero_byte(rt: HostRuntime) -> Result<(), Fail> {
    for (off, expected) in [
        (0u64, None),
        (1, Some(b"main".as_slice())),
        (3, Some(b"in".as_slice())),
        (6, None),
        (8, Some(b"b".as_slice())),
        (10, None),
        (12, None),
        (13, None),
    ] {
        assert!(rt;
            has_name(rt.alloc(), STRINGS.as_slice(), off, expected)?,
            "{off}"
        );
    }
    Ok(())
}

/// A string table of one string of 65 letters.
const LONG: [u8; 66] = *b"aaaaaaaaaaaaaaaaaaaaaaaaaaaaaaaaaaaaaaaaaaaaaaaaaaaaaaaaaaaaaaaaa\0";

#[test]
fn a_name_has_at_most_63_bytes(rt: HostRuntime) -> Result<(), Fail> {
    let alloc = rt.alloc();
    assert!(rt; has_name(alloc, LONG.as_slice(), 0, None)?);
    assert!(rt; has_name(alloc, LONG.as_slice(), 1, None)?);
    assert!(rt; has_name(alloc, LONG.as_slice(), 2, Some(&LONG[2..65]))?);
    Ok(())
}
