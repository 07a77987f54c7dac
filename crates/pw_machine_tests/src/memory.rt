//! Calls of a memory with the answers that an independent model of it gives.

use pw_mem::{Access, FlatMemory, MapError, Memory, Recorder, Region, Rights};
use std::test::Fail;

/// The address after the last one that a region may hold.
const TOP: u64 = u64::MAX - 7;

/// A region with these rights.
fn region(start: u64, len: u64, rights: Rights) -> Region {
    Region { start, len, rights }
}

/// Four regions: two neighbours, one of them text, one that is only read, and the last that can be mapped.
fn map_four<M: Memory>(mem: &mut M) -> Result<(), MapError> {
    let data = Rights::READ | Rights::WRITE;
    mem.map(&[
        region(0, 16, data),
        region(16, 8, Rights::READ | Rights::EXECUTE),
        region(24, 8, Rights::READ),
        region(TOP - 8, 8, data),
    ])
}

/// The bytes that the tables find in them.
fn fill_four<M: Memory>(mem: &mut M) -> Result<(), Access> {
    mem.put(0, &[1, 2, 3, 4, 5, 6, 7, 8, 9, 10, 11, 12, 13, 14, 15, 16])?;
    mem.put(16, &[0x13, 0, 0x10, 0, 0xff, 0xff, 0xff, 0xff])?;
    mem.put(24, &[0x80; 8])?;
    mem.put(TOP - 8, &[9; 8])
}

#[test]
fn the_least_faulty_region_is_refused(rt: HostRuntime) {
    let data = Rights::READ | Rights::WRITE;
    let mut mem = FlatMemory::new(rt.alloc());
    let first = region(0, 16, data);
    let no_meeting = [first, region(16, 8, data)];
    assert_eq!(rt; mem.map(&[]), Ok(()));
    assert_eq!(rt; mem.map(&[first]), Ok(()), "one region");
    assert_eq!(rt; mem.map(&no_meeting), Ok(()), "neighbours");
    assert_eq!(rt;
        mem.map(&[first, region(8, 16, data)]),
        Err(MapError::Overlap(1))
    );
    assert_eq!(rt;
        mem.map(&[first, region(8, 16, data), region(4, 8, data)]),
        Err(MapError::Overlap(1))
    );
    assert_eq!(rt;
        mem.map(&[first, region(4, 16, data)]),
        Err(MapError::Unaligned(1))
    );
    for (start, len, answer) in [
        // the start is no multiple of 8
        (4, 16, Err(MapError::Unaligned(0))),
        // the length is none
        (0, 12, Err(MapError::Unaligned(0))),
        // no byte
        (0, 0, Err(MapError::Unaligned(0))),
        // the last region that can be mapped
        (TOP - 8, 8, Ok(())),
        // its end would be above the last address
        (TOP, 8, Err(MapError::Unaligned(0))),
        (TOP - 8, 24, Err(MapError::Unaligned(0))),
    ] {
        assert_eq!(rt;
            mem.map(&[region(start, len, data)]),
            answer,
            "{len} bytes at {start}"
        );
    }
}

#[test]
fn numbers_are_little_endian_and_aligned(rt: HostRuntime) -> Result<(), Fail> {
    let mut mem = FlatMemory::new(rt.alloc());
    map_four(&mut mem)?;
    fill_four(&mut mem)?;
    for (at, width, answer) in [
        // each width, at a multiple of it and at none, the lowest byte first
        (0, 1, Ok(1)),
        (15, 1, Ok(0x10)),
        (14, 2, Ok(0x100f)),
        (1, 2, Err(Access::Misaligned)),
        (12, 4, Ok(0x100f_0e0d)),
        (2, 4, Err(Access::Misaligned)),
        (8, 8, Ok(0x100f_0e0d_0c0b_0a09)),
        (12, 8, Err(Access::Misaligned)),
        // text and read-only regions are read
        (16, 8, Ok(0xffff_ffff_0010_0013)),
        (24, 8, Ok(0x8080_8080_8080_8080)),
        // no region there
        (32, 1, Err(Access::Unmapped)),
        // the last region, to its end and beyond
        (TOP - 1, 1, Ok(9)),
        (TOP - 2, 2, Ok(0x0909)),
        (TOP - 4, 4, Ok(0x0909_0909)),
        (TOP - 8, 8, Ok(0x0909_0909_0909_0909)),
        (TOP, 8, Err(Access::Unmapped)),
        (TOP + 4, 4, Err(Access::Unmapped)),
        (TOP + 6, 2, Err(Access::Unmapped)),
        (TOP + 7, 1, Err(Access::Unmapped)),
        (TOP + 7, 8, Err(Access::Misaligned)),
    ] {
        assert!(rt; width == 1 || width == 2 || width == 4 || width == 8);
        assert_eq!(rt; mem.load(at, width), answer, "{width} bytes at {at}");
    }
    Ok(())
}

#[test]
fn sealed_text_and_read_only_regions_are_not_written(rt: HostRuntime) -> Result<(), Fail> {
    let mut mem = FlatMemory::new(rt.alloc());
    map_four(&mut mem)?;
    fill_four(&mut mem)?;
    let denied = Err(Access::Denied);
    let unmapped = Err(Access::Unmapped);
    let misaligned = Err(Access::Misaligned);
    let puts = [
        // data, up to the end of the region and across it
        (15, 1, Ok(()), Ok(())),
        (15, 2, unmapped, unmapped),
        // text, until the seal
        (16, 8, Ok(()), denied),
        (23, 1, Ok(()), denied),
        // what is only read, until the seal
        (24, 8, Ok(()), denied),
        (31, 2, unmapped, unmapped),
        // the last region, up to its end and across it, and across the last address
        (TOP - 1, 1, Ok(()), Ok(())),
        (TOP - 1, 2, unmapped, unmapped),
        (u64::MAX, 2, unmapped, unmapped),
        // no bytes, at no region
        (1000, 0, Ok(()), Ok(())),
    ];
    for (at, len, open, _) in puts {
        assert_eq!(rt;
            mem.zero(at, len),
            open,
            "{len} bytes at {at} before the seal"
        );
    }
    mem.seal();
    for (at, len, _, sealed) in puts {
        assert_eq!(rt;
            mem.zero(at, len),
            sealed,
            "{len} bytes at {at} after the seal"
        );
    }
    for (at, width, answer) in [
        // data, aligned and not
        (0, 8, Ok(())),
        (4, 8, misaligned),
        // sealed text; misaligned comes first
        (16, 4, denied),
        (17, 2, misaligned),
        // what is only read, and no region
        (24, 1, denied),
        (32, 8, unmapped),
    ] {
        assert!(rt; width == 1 || width == 2 || width == 4 || width == 8);
        assert_eq!(rt;
            mem.store(at, width, 0x1122_3344_5566_7788),
            answer,
            "{width} bytes at {at}"
        );
    }
    assert_eq!(rt; mem.load(0, 8), Ok(0x1122_3344_5566_7788));
    assert_eq!(rt; mem.load(16, 8), Ok(0));
    Ok(())
}

#[test]
fn bytes_put_across_a_page_are_loaded(rt: HostRuntime) -> Result<(), Fail> {
    let mut mem = FlatMemory::new(rt.alloc());
    mem.map(&[region(0x500_0000, 8192, Rights::READ | Rights::WRITE)])?;
    mem.put(
        0x500_0ffa,
        &[1, 2, 3, 4, 5, 6, 7, 8, 9, 10, 11, 12, 13, 14, 15, 16],
    )?;
    assert_eq!(rt; mem.load(0x500_0fff, 1), Ok(6));
    assert_eq!(rt; mem.load(0x500_1000, 1), Ok(7));
    assert_eq!(rt; mem.store(0x500_1ff8, 8, 1), Ok(()));
    assert_eq!(rt; mem.store(0x500_2000, 8, 1), Err(Access::Unmapped));
    Ok(())
}

#[test]
fn fetches_are_reported_until_they_are_too_many(rt: HostRuntime) -> Result<(), Fail> {
    let mut mem = Recorder::new(rt.alloc())?;
    map_four(&mut mem)?;
    fill_four(&mut mem)?;
    let fetched = [
        // two instruction words
        (16, Ok(0x0010_0013)),
        (20, Ok(0xffff_ffff)),
        // no multiple of 4, data, and no region
        (18, Err(Access::Misaligned)),
        (0, Err(Access::Denied)),
        (28, Err(Access::Denied)),
        (32, Err(Access::Unmapped)),
        (TOP + 4, Err(Access::Unmapped)),
        (TOP + 6, Err(Access::Misaligned)),
    ];
    for (at, answer) in fetched {
        assert_eq!(rt; mem.fetch(at), answer, "at {at}");
    }
    let addresses = [16, 20, 18, 0, 28, 32, TOP + 4, TOP + 6];
    assert_eq!(rt;
        mem.reported(),
        Some(addresses.as_slice()),
        "refused fetches are reported too"
    );
    for _ in 8..Recorder::MOST {
        let _ = mem.fetch(16);
    }
    assert!(rt; mem.reported().is_some());
    let _ = mem.fetch(16);
    assert!(rt; mem.reported().is_none());
    map_four(&mut mem)?;
    assert_eq!(rt;
        mem.reported(),
        Some([].as_slice()),
        "a new mapping begins anew"
    );
    Ok(())
}
