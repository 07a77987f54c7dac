//! Laws of fields, structs, laid parts, first faults and tests of names and type strings, which readers and writers of files stand on.
ghost use Rattle.pw_base.specs.Field.{FieldIsTheNumberThere, WrittenFieldIsRead, ReadFieldIsWritten};
ghost use Rattle.pw_base.specs.Laid.{LaidPartsStandAtTheirPlaces};
ghost use Rattle.pw_base.specs.Structs.{
  header_bytes,
  header_at,
  header_size,
  section_bytes,
  section_at,
  section_size,
  segment_bytes,
  segment_at,
  segment_size,
  symbol_bytes,
  symbol_at,
  symbol_size,
  rela_bytes,
  rela_at,
  rela_size,
  dynamic_bytes,
  dynamic_at,
  dynamic_size,
};
ghost use Rattle.pw_base.specs.StructLaws.{IsReadAsWritten, HeaderFits, SectionFits, SegmentFits, SymFits, RelaFits, DynamicFits};
ghost use Rattle.pw_base.specs.Least.{LeastIsLeast, NoneIsNowhere};
ghost use Rattle.pw_base.specs.Tests.{NameTestIsRight, TypeTextTestIsRight};

/// A field that is written is read again, one that is read was written so, and its value is that of the bytes there.
pub fn fields_are_read_as_they_are_written()
    ensures there { FieldIsTheNumberThere }
    ensures read { WrittenFieldIsRead }
    ensures written { ReadFieldIsWritten }
{}

/// Each struct of an ELF64 file has its size, is read back at its offset where its fields fit their widths, and was written
/// where it is read.
pub fn structs_are_read_as_they_are_written()
    ensures header { IsReadAsWritten HeaderFits header_bytes header_at header_size }
    ensures section { IsReadAsWritten SectionFits section_bytes section_at section_size }
    ensures segment { IsReadAsWritten SegmentFits segment_bytes segment_at segment_size }
    ensures symbol { IsReadAsWritten SymFits symbol_bytes symbol_at symbol_size }
    ensures rela { IsReadAsWritten RelaFits rela_bytes rela_at rela_size }
    ensures dynamic { IsReadAsWritten DynamicFits dynamic_bytes dynamic_at dynamic_size }
{}

/// Each part that is laid out stands at its place.
pub fn laid_parts_stand_at_their_places()
    ensures { LaidPartsStandAtTheirPlaces }
{}

/// The first number at which a test holds is answered, and none only where it holds nowhere.
pub fn the_least_is_found()
    ensures least { LeastIsLeast }
    ensures nowhere { NoneIsNowhere }
{}

/// The tests of names and of type strings hold exactly where the bytes are one.
pub fn tests_of_texts_are_right()
    ensures name { NameTestIsRight }
    ensures type_text { TypeTextTestIsRight }
{}
