//! Laws of memory, over what its calls mean alone. Each is the contract of a function, which does nothing.

ghost use Rattle.pw_mem.specs.WordLaws.{DoublewordsAreLoaded, DoublewordsAreStored, StoredDoublewordsAreRead, OtherDoublewordsStay, DoublewordsAreNoText, TextIsFetched};
ghost use Rattle.pw_mem.specs.WriteLaws.{StoresWrite, PutsWrite, WrittenBytesAreRead, OtherBytesStay, StoresAreLoaded, OtherNumbersStay, ShapesStay, SealedTextStays, SealedInstructionsStay};
ghost use Rattle.pw_mem.specs.Apart.{MappedRegionsAreApart, WritesKeepApart, HoldersAreSeen, HoldersAreWritten};

/// A doubleword, a number of 8 bytes that may be read and stored, is what a load of 8 bytes gives.
pub fn doublewords_are_loaded()
    ensures { DoublewordsAreLoaded }
{}

/// A store of 8 bytes where there is a doubleword puts another in its place.
pub fn doublewords_are_stored()
    ensures { DoublewordsAreStored }
{}

/// A doubleword that was put in the place of another is the doubleword there.
pub fn stored_doublewords_are_read()
    ensures { StoredDoublewordsAreRead }
{}

/// Putting a doubleword in the place of another changes no doubleword at another address.
pub fn other_doublewords_stay()
    ensures { OtherDoublewordsStay }
{}

/// Once a memory is sealed, putting a doubleword in the place of another changes no instruction word at any address.
pub fn doublewords_are_no_text()
    ensures { DoublewordsAreNoText }
{}

/// Each instruction word of the text that an executable region begins with is fetched from its place.
pub fn text_is_fetched()
    ensures { TextIsFetched }
{}

/// A store that answers Ok writes the lowest bytes of its number, into a region that is no sealed text, and does nothing else.
pub fn stores_write()
    ensures { StoresWrite }
{}

/// A put of some bytes that answers Ok writes them, into a region that is no sealed text, and does nothing else.
pub fn puts_write()
    ensures { PutsWrite }
{}

/// Bytes that were written stand there.
pub fn written_bytes_are_read()
    ensures { WrittenBytesAreRead }
{}

/// A write changes no bytes beside its own.
pub fn other_bytes_stay()
    ensures { OtherBytesStay }
{}

/// What was stored is loaded from there, as far as its width says it.
pub fn stores_are_loaded()
    ensures { StoresAreLoaded }
{}

/// A write changes no number beside its bytes, whatever its width.
pub fn other_numbers_stay()
    ensures { OtherNumbersStay }
{}

/// A write changes no region's place, length or rights, and not the seal.
pub fn shapes_stay()
    ensures { ShapesStay }
{}

/// Once a memory is sealed, a write changes no executable region.
pub fn sealed_text_stays()
    ensures { SealedTextStays }
{}

/// Once a memory is sealed, a write changes no instruction word.
pub fn sealed_instructions_stay()
    ensures { SealedInstructionsStay }
{}

/// Regions that can be mapped have no address in common once they are mapped.
pub fn mapped_regions_are_apart()
    ensures { MappedRegionsAreApart }
{}

/// And have none after a write.
pub fn writes_keep_apart()
    ensures { WritesKeepApart }
{}

/// Where no regions have an address in common, the one that holds some bytes is seen at them.
pub fn holders_are_seen()
    ensures { HoldersAreSeen }
{}

/// And it is the one that they are written into.
pub fn holders_are_written()
    ensures { HoldersAreWritten }
{}
