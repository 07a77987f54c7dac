//! A number as it is said in hexadecimal.
ghost use Rattle.std.specs.Fmt.{digits, digit_glyph};
ghost use Rattle.std.specs.Prelude.{◌≡◌, false, ◌<◌};
ghost use Rattle.pw_cmd.specs.Says.{PutsAll};

use crate::says::Says;
use pw_io::{Failed, Sink};

/// A number that says itself in hexadecimal, in small digits without leading zeros.
#[derive(Clone, Copy)]
pub struct Hexadecimal(pub u64);

impl Says for Hexadecimal {
    ghost text = { λ number. digits 16 false number.0 };

    fn say<E: Sink>(&self, sink: &mut E) -> Result<(), Failed> {
        say_digits(sink, self.0)
    }
}

/// Says the digits of a number.
fn say_digits<E: Sink>(sink: &mut E, number: u64) -> Result<(), Failed>
    ensures { PutsAll (digits 16 false number) (E.state sink.old) (E.state sink.new) result }
{
    if number < 16 {
        return sink.put(glyph(number as u8));
    }
    say_digits(sink, number / 16)?;
    sink.put(glyph((number % 16) as u8))
}

/// A digit.
fn glyph(digit: u8) -> u8
    requires { digit < 16 }
    ensures { result ≡ digit_glyph false digit }
{
    if digit < 10 {
        b'0' + digit
    } else {
        b'a' + (digit - 10)
    }
}
