//! What says itself into a sink: bytes, texts, numbers, and one thing after another.
ghost use Rattle.std.specs.Prelude.{ℕ, List, ◌++◌};
ghost use Rattle.pw_cmd.specs.Says.{PutsAll};

use itoa::Buffer;
use pw_io::{Failed, Sink};

/// What means a text that can be put into a sink. It takes no memory.
pub trait Says {
    ghost text: { Self → List ℕ };

    /// Puts the text. After a failure a prefix of it was put.
    fn say<E: Sink>(&self, sink: &mut E) -> Result<(), Failed>
        ensures { PutsAll (text self.now) (E.state sink.old) (E.state sink.new) result };
}

/// Puts these bytes in order.
fn put_all<E: Sink>(sink: &mut E, bytes: &[u8]) -> Result<(), Failed>
    ensures { PutsAll bytes.now (E.state sink.old) (E.state sink.new) result }
{
    for byte in bytes {
        sink.put(*byte)?;
    }
    Ok(())
}

/// Puts one text and then another.
pub fn put_both<A: Says, B: Says, E: Sink>(
    sink: &mut E,
    first: &A,
    second: &B,
) -> Result<(), Failed>
    ensures { PutsAll (A.text first.now ++ B.text second.now)
        (E.state sink.old) (E.state sink.new) result }
{
    first.say(sink)?;
    second.say(sink)
}

impl<'a> Says for &'a [u8] {
    ghost text = { λ bytes. bytes.now };

    fn say<E: Sink>(&self, sink: &mut E) -> Result<(), Failed> {
        put_all(sink, self)
    }
}

impl<'a> Says for &'a str {
    ghost text = { λ s. s.now };

    fn say<E: Sink>(&self, sink: &mut E) -> Result<(), Failed> {
        put_all(sink, self.as_bytes())
    }
}

/// A number says itself in decimal.
impl Says for u32 {
    ghost use Rattle.std.specs.Prelude.{decimal};

    ghost text = { decimal };

    fn say<E: Sink>(&self, sink: &mut E) -> Result<(), Failed> {
        let mut digits = Buffer::new();
        put_all(sink, digits.format(*self).as_bytes())
    }
}

/// A number says itself in decimal.
impl Says for u64 {
    ghost use Rattle.std.specs.Prelude.{decimal};

    ghost text = { decimal };

    fn say<E: Sink>(&self, sink: &mut E) -> Result<(), Failed> {
        let mut digits = Buffer::new();
        put_all(sink, digits.format(*self).as_bytes())
    }
}

/// A pair says its first part and then its second.
impl<A: Says, B: Says> Says for (A, B) {
    ghost use Rattle.std.specs.Prelude.{◌++◌};

    ghost text = { λ pair. A.text pair.0 ++ B.text pair.1 };

    fn say<E: Sink>(&self, sink: &mut E) -> Result<(), Failed> {
        put_both(sink, &self.0, &self.1)
    }
}
