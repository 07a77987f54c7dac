//! Whether regions can be mapped together.

ghost use Rattle.std.specs.Prelude.{◌≡◌, OnOk, IfErr};
ghost use Rattle.std.specs.List.{list_any};
ghost use Rattle.pw_mem.specs.Map.{CanMap, IsFault, meets};

use crate::errors::MapError;
use crate::region::Region;

/// Whether a region has an address in common with one of these.
fn meets_any(region: &Region, earlier: &[Region]) -> bool
    ensures { result ≡ list_any (meets region.now) earlier.now }
{
    earlier.iter().any(|other| region.meets(other))
}

/// The fault of the least faulty region, where there is one. Takes no memory.
pub(crate) fn check(regions: &[Region]) -> Result<(), MapError>
    ensures no_fault { OnOk result (CanMap regions.now) }
    ensures fault { IfErr result (IsFault regions.now) }
{
    for (i, region) in regions.iter().enumerate() {
        let Ok(number) = u32::try_from(i) else {
            return Err(MapError::NoMemory);
        };
        if !region.is_aligned() {
            return Err(MapError::Unaligned(number));
        }
        if meets_any(region, &regions[..i]) {
            return Err(MapError::Overlap(number));
        }
    }
    Ok(())
}
