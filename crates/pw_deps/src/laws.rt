//! The law that an allowed table can be written.
ghost use Rattle.pw_deps.specs.Writable.{AllowedTablesCanBeWritten};

/// Each allowed table meets what `write` requires, so it is written, and read back as it was.
pub fn allowed_tables_can_be_written()
    ensures { AllowedTablesCanBeWritten }
{}
