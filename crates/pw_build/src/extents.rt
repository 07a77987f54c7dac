//! Where the functions of a program's text stand, by the bytes that its rows say.
ghost use Rattle.std.specs.Prelude.{◌≡◌, ◌<◌, ◌≤◌, ◌/◌, ◌^◌, length};
ghost use Rattle.pw_base.specs.Limits.{text_bytes};
ghost use Rattle.pw_build.specs.Extents.{bytes_of_rows, FindsRow};

use pw_base::Limits;
use pw_module::KeptRow;

/// The address of the program's text, and of its entry.
pub const TEXT_START: u64 = Limits::MODULE_SPAN + Limits::TEXT_OFFSET;

/// The bytes of an instruction word.
const WORD_BYTES: u64 = 4;

/// The words of all functions of the text.
pub fn words_of(rows: &[KeptRow]) -> u64
    requires few { bytes_of_rows rows.now ≤ text_bytes }
    ensures { result ≡ bytes_of_rows rows.now / 4 }
{
    let mut bytes = 0;
    for row in rows {
        bytes += u64::from(row.bytes);
    }
    bytes / WORD_BYTES
}

/// The number of the row in whose function an address lies; the number of rows, where it lies
/// outside all functions.
pub fn row_at(rows: &[KeptRow], at: u64) -> u32
    requires few { bytes_of_rows rows.now ≤ text_bytes }
    requires numbers { length rows.now < 2 ^ 32 }
    ensures { FindsRow rows.now at result }
{
    let mut number = 0;
    let mut start = TEXT_START;
    for row in rows {
        let end = start + u64::from(row.bytes);
        if (start..end).contains(&at) {
            return number;
        }
        number += 1;
        start = end;
    }
    number
}
