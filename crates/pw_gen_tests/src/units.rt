//! The objects of texts.

use pw_base::Name;
use pw_code::Object;
use pw_front::front;
use pw_gen::object;
use std::alloc::Global;
use std::process::Abort;
use std::test::Fail;

/// The object of a text.
pub(crate) fn object_of(rt: &impl Abort, alloc: Global, text: &str) -> Result<Object, Fail> {
    assert!(rt; text.len() < 100_000);
    let unit = front(alloc, text.as_bytes())?;
    let name = Name::read(alloc, b"m.c")?;
    Ok(object(alloc, &unit, &name)?)
}
