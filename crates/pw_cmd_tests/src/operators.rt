//! Each operator on numbers at the corners of 64 bits.
use crate::command::{Expected, Given, NONE, ONE, answers};
use std::test::Fail;

/// A program that joins the values of one expression for all pairs of twelve numbers, signed ones in `s` and unsigned ones in `u`,
/// and writes what comes of it in sixteen hexadecimal digits: up to the expression.
const BEFORE: &str = "static long s[12] = {\n\
      \x20 0, 1, 2, 7, 63, 64, 0x7fffffffffffffff, 0x8000000000000000, 0x8000000000000001,\n\
      \x20 0x123456789abcdef0, -2, -1\n\
      };\n\
      static unsigned long u[12] = {\n\
      \x20 0, 1, 2, 7, 63, 64, 0x7fffffffffffffff, 0x8000000000000000, 0x8000000000000001,\n\
      \x20 0x123456789abcdef0, -2, -1\n\
      };\n\
      static unsigned long mixed(unsigned long h, unsigned long n) { return (h ^ n) * 0x100000001b3; }\n\
      static void put_hexadecimal(unsigned long n) {\n\
      \x20 for (long at = 60; at >= 0; at = at - 4) {\n\
      \x20   long digit = n >> at & 15;\n\
      \x20   __out(digit < 10 ? '0' + digit : 'a' + digit - 10);\n\
      \x20 }\n\
      }\n\
      long main(void) {\n\
      \x20 unsigned long h = 0xcbf29ce484222325;\n\
      \x20 for (long i = 0; i < 12; i = i + 1)\n\
      \x20   for (long j = 0; j < 12; j = j + 1)\n\
      \x20     h = mixed(h, ";

/// The rest of it.
const BEHIND: &str = ");\n\
      \x20 put_hexadecimal(h);\n\
      \x20 return 0;\n\
      }";

/// Expressions, and what the program writes for them.
const ROWS: [(&str, &[u8]); 39] = [
    ("s[i] + s[j]", b"1698db56f45ecc95"),
    ("s[i] - s[j]", b"28cd78480cbc1a3d"),
    ("s[i] * s[j]", b"414892380255bfb1"),
    ("s[j] ? s[i] / s[j] : 3", b"250ff0924ec02a2c"),
    ("s[j] ? s[i] % s[j] : 3", b"3f3c14dfc8feb645"),
    ("s[i] & s[j]", b"2f0c561af7533845"),
    ("s[i] | s[j]", b"980fc22d9c54a57d"),
    ("s[i] ^ s[j]", b"384d1698bc0bde65"),
    ("s[i] << s[j]", b"32a0256e49db741d"),
    ("s[i] >> s[j]", b"fc1bf937d114f652"),
    ("s[i] < s[j]", b"544daf70f7d2802d"),
    ("s[i] > s[j]", b"4646a38b16413b2d"),
    ("s[i] <= s[j]", b"0f64e716a7789fd9"),
    ("s[i] >= s[j]", b"7b69a9518bd08f51"),
    ("s[i] == s[j]", b"9594710bb61b5fb1"),
    ("s[i] != s[j]", b"aceaf0830255f899"),
    ("s[i] && s[j]", b"3aef7a1b1a813658"),
    ("s[i] || s[j]", b"d2ab1016f7cf0794"),
    ("u[i] + u[j]", b"1698db56f45ecc95"),
    ("u[i] - s[j]", b"28cd78480cbc1a3d"),
    ("u[i] * u[j]", b"414892380255bfb1"),
    ("u[j] ? u[i] / u[j] : 3", b"54e69139e42c0753"),
    ("u[j] ? s[i] % u[j] : 3", b"dffe203acffda776"),
    ("s[i] & u[j]", b"2f0c561af7533845"),
    ("u[i] | s[j]", b"980fc22d9c54a57d"),
    ("u[i] ^ u[j]", b"384d1698bc0bde65"),
    ("u[i] << s[j]", b"32a0256e49db741d"),
    ("u[i] >> s[j]", b"cf92aa024195bbfe"),
    ("s[i] >> u[j]", b"fc1bf937d114f652"),
    ("u[i] < u[j]", b"b3489f57ea79c811"),
    ("s[i] > u[j]", b"116f3217c143a231"),
    ("u[i] <= s[j]", b"fe7dcbe1a4caec45"),
    ("u[i] >= u[j]", b"48217b487742fe6d"),
    ("u[i] == s[j]", b"9594710bb61b5fb1"),
    ("u[i] != u[j]", b"aceaf0830255f899"),
    ("-s[i] - ~s[j]", b"919ffa3e5bb9fadd"),
    ("-u[i] / 3", b"49b99571c8013535"),
    ("+s[i] + !s[j]", b"7edd61ff3257311d"),
    ("(i < j ? s[i] : u[j]) / 2", b"94bce6d9b10ea3c5"),
];

#[test]
fn each_operator_is_right_at_the_corners(rt: HostRuntime) -> Result<(), Fail> {
    let alloc = rt.alloc();
    for (expression, out) in ROWS {
        let text = format!(in alloc; "{BEFORE}{expression}{BEHIND}")?;
        let given = Given {
            words: &ONE,
            text: text.as_bytes(),
            input: b"",
            fails: NONE,
        };
        let answer = Expected {
            status: 0,
            out,
            msg: b"ended 0\n",
            left: b"",
        };
        answers(&rt, alloc, given, answer)?;
    }
    Ok(())
}
