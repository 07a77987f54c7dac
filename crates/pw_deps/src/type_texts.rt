//! The type string that bytes are, if they are one.
ghost use Rattle.pw_base.specs.Tests.{is_type_text, ReadsWhere};

use pw_base::{NoMemory, TypeText};
use std::alloc::Global;

/// The type string that these bytes are; `None` where they are none.
pub(crate) fn type_text(alloc: Global, bytes: &[u8]) -> Result<Option<TypeText>, NoMemory>
    ensures { ReadsWhere is_type_text bytes.now result }
{
    if bytes.is_empty() {
        return Ok(None);
    }
    TypeText::read(alloc, bytes)
}
