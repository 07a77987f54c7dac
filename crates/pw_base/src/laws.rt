//! Laws of numbers as bytes, each the contract of a function.
ghost use Rattle.pw_base.specs.Bytes.{BytesGiveValue, ValueGivesBytes};

/// A value that fits some bytes is what its bytes say.
pub fn bytes_of_a_value_give_it_back()
    ensures { BytesGiveValue }
{}

/// Bytes are those of the value that they say.
pub fn value_of_bytes_gives_them_back()
    ensures { ValueGivesBytes }
{}
