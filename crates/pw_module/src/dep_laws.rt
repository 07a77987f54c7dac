//! Laws of the dependency table, each the contract of a function.
ghost use Rattle.pw_module.specs.Laws.{ReadTableIsSpelledSo, SpelledTableIsRead, TableOrFirstFault};

/// A table that is read is allowed, and the bytes are its bytes, each of them.
pub fn a_read_table_is_spelled_so()
    ensures { ReadTableIsSpelledSo }
{}

/// The bytes of an allowed table are read as that table.
pub fn a_spelled_table_is_read()
    ensures { SpelledTableIsRead }
{}

/// For any bytes there is either one allowed table whose bytes they are, or a first fault, and never both.
pub fn a_table_or_its_first_fault_is_read()
    ensures { TableOrFirstFault }
{}
