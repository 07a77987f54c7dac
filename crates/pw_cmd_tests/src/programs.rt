//! What programs answer and write, in how many steps, and what they take of the input.
use crate::command::{Expected, Given, NONE, ONE, answers};
use std::test::Fail;

/// Programs that take nothing, with the status, the output and the line.
const PROGRAMS: [(&[u8], u8, &[u8], &[u8]); 26] = [
    // two functions, of which one is never called
    (
        b"long dead(void) { return 7; }\n\
          long main(void) {\n\
          \x20 __out(72);\n\
          \x20 __out(105);\n\
          \x20 return 0;\n\
          }\n",
        0,
        b"Hi",
        b"ended 0\n",
    ),
    // sums wrap
    (
        b"long main(void) { return 9223372036854775807 + 1; }",
        1,
        b"",
        b"ended 9223372036854775808\n",
    ),
    // a division by 0, in the fourth line
    (
        b"long main(void) {\n\
          long z;\n\
          z = 0;\n\
          return 1 / z; }",
        4,
        b"",
        b"checked fault division in app:main.c:main line 4\n",
    ),
    // the least number divided by -1
    (
        b"long main(void) { return (-9223372036854775807 - 1) / -1; }",
        1,
        b"",
        b"ended 9223372036854775808\n",
    ),
    // an index below the first
    (
        b"long t[16];\nlong main(void) { return t[-1]; }",
        4,
        b"",
        b"checked fault index in app:main.c:main line 2\n",
    ),
    // an index past the last
    (
        b"long t[16];\nlong main(void) { return t[16]; }",
        4,
        b"",
        b"checked fault index in app:main.c:main line 2\n",
    ),
    // the last index
    (
        b"long t[16];\nlong main(void) { return t[15]; }",
        0,
        b"",
        b"ended 0\n",
    ),
    // null is called, after the arguments
    (
        b"long w(long c) { __out(c); return c; }\n\
          fn1 p;\n\
          long main(void) { return p(w(65)); }",
        4,
        b"A",
        b"checked fault null call in app:main.c:main line 3\n",
    ),
    // 1,000 calls are alive
    (
        b"long f(long n) { if (n == 0) { return 0; } return f(n - 1) + 1; }\n\
          long main(void) { return f(998); }",
        1,
        b"",
        b"ended 998\n",
    ),
    // the 1,001st call
    (
        b"long f(long n) { if (n == 0) { return 0; } return f(n - 1) + 1; }\n\
          long main(void) { return f(999); }",
        4,
        b"",
        b"checked fault depth in app:main.c:f line 1\n",
    ),
    // a constant of 64 bits and a number below 0
    (
        b"long main(void) { return 0xffffffffffffffff == -1; }",
        1,
        b"",
        b"ended 1\n",
    ),
    // a static function
    (
        b"static long h(void) { return 3; }\nlong main(void) { return h(); }",
        1,
        b"",
        b"ended 3\n",
    ),
    // a function to which a variable points
    (
        b"static long cb(void) { return 5; }\n\
          fn0 hook = cb;\n\
          long main(void) { return 0; }",
        0,
        b"",
        b"ended 0\n",
    ),
    // the index is checked before the value is evaluated
    (
        b"long t[2];\n\
          long w(long c) { __out(c); return c; }\n\
          static void set(long i) {\n\
          \x20 t[i] = w(66);\n\
          }\n\
          long main(void) { set(w(1)); set(2); return 0; }",
        4,
        b"\x01B",
        b"checked fault index in app:main.c:set line 4\n",
    ),
    // a fault in a callee, called through a pointer
    (
        b"static long part(long n) {\n\
          \x20 return 7 % n;\n\
          }\n\
          static fn1 parts[2] = {part};\n\
          long main(void) { __out(46); return parts[0](0); }",
        4,
        b".",
        b"checked fault division in app:main.c:part line 2\n",
    ),
    // null in a callee, from an array
    (
        b"static fn2 none[3];\n\
          static long call(long i) { return none[i](1, 2); }\n\
          long main(void) { return call(2); }",
        4,
        b"",
        b"checked fault null call in app:main.c:call line 2\n",
    ),
    // two functions that call each other
    (
        b"long odd(long n);\n\
          long even(long n) { return odd(n + 1); }\n\
          long odd(long n) {\n\
          \x20 return even(n + 1); }\n\
          long main(void) { return even(0); }",
        4,
        b"",
        b"checked fault depth in app:main.c:odd line 3\n",
    ),
    // both sides of && and || only where they are asked for
    (
        b"long w(long c) { __out(c); return c - 97; }\n\
          long main(void) { return (w('a') && w('b')) || (w('c') && w('d')) || w('e'); }",
        1,
        b"acd",
        b"ended 1\n",
    ),
    // a choice evaluates one side
    (
        b"long w(long c) { __out(c); return c; }\n\
          long main(void) { return w('a') > w('b') ? w('c') : w('d') ? 7 : 8; }",
        1,
        b"abd",
        b"ended 7\n",
    ),
    // loops with continue and break
    (
        b"long main(void) {\n\
          \x20 long i;\n\
          \x20 for (i = 0; ; i = i + 1) {\n\
          \x20   if (i % 2) continue;\n\
          \x20   if (i > 8) break;\n\
          \x20   __out('0' + i);\n\
          \x20 }\n\
          \x20 do { i = i - 3; } while (i > 0);\n\
          \x20 while (1) { if (i == 5) break; i = i + 1; }\n\
          \x20 return i;\n\
          }",
        1,
        b"02468",
        b"ended 5\n",
    ),
    // inner names hide outer ones, and a local is 0 each time
    (
        b"long x = 65;\n\
          long main(void) {\n\
          \x20 __out(x);\n\
          \x20 { long x = 66; __out(x); { long x; __out(x + 67); x = 9; } }\n\
          \x20 for (long i = 0; i < 2; i = i + 1) { long x; __out(x + 68); x = 1; }\n\
          \x20 __out(x);\n\
          \x20 return 0;\n\
          }",
        0,
        b"ABCDDA",
        b"ended 0\n",
    ),
    // six parameters in their order, and a function without a value
    (
        b"void six(long a, long b, long c, long d, long e, long f) {\n\
          \x20 __out(a); __out(b); __out(c); __out(d); __out(e); __out(f);\n\
          }\n\
          long main(void) { six('a', 'b', 'c', 'd', 'e', 'f'); return 0; }",
        0,
        b"abcdef",
        b"ended 0\n",
    ),
    // the low byte is written; a function that falls off its end gives 0
    (
        b"long f(void) { __out(0x141); __out(-1); }\nlong main(void) { return f(); }",
        0,
        b"A\xff",
        b"ended 0\n",
    ),
    // functions are equal where they are the same definition
    (
        b"static long a(void) { return 1; }\n\
          static long b(void) { return 1; }\n\
          fn0 p = a;\n\
          long main(void) { fn0 q = b; fn0 none; return (p == a) + 2 * (p != q) + 4 * (q == b) + 8 * !none; }",
        1,
        b"",
        b"ended 15\n",
    ),
    // initialised elements, and the others 0
    (
        b"static long t[5] = {'a', -1, 0x20,};\n\
          long u = -7;\n\
          long main(void) { return t[0] + t[1] + t[2] + t[3] + t[4] + u; }",
        1,
        b"",
        b"ended 121\n",
    ),
    // unsigned comparison, division and shift
    (
        b"long main(void) {\n\
          \x20 unsigned long n = -8;\n\
          \x20 return (n > 1) + 2 * (n / 2 > 9) + 4 * (n >> 63 == 1) + 8 * (-8 >> 1 == -4) + 16 * (-8 < 1u);\n\
          }",
        1,
        b"",
        b"ended 15\n",
    ),
];

/// Programs that take nothing, with a bound of their steps, the status, the output and the line.
const BOUNDS: [(&[u8], &[&str], u8, &[u8], &[u8]); 11] = [
    // the call of main is a step
    (
        b"long main(void) { return 0; }",
        &["one", "main.c", "--steps", "0"],
        5,
        b"",
        b"step bound spent\n",
    ),
    (
        b"long main(void) { return 0; }",
        &["one", "main.c", "--steps", "1"],
        0,
        b"",
        b"ended 0\n",
    ),
    // a return to the start is one
    (
        b"long main(void) { while (1) { __out(46); } return 0; }",
        &["one", "main.c", "--steps", "4"],
        5,
        b"....",
        b"step bound spent\n",
    ),
    // break is none
    (
        b"long main(void) { while (1) { break; } return 0; }",
        &["one", "main.c", "--steps", "1"],
        0,
        b"",
        b"ended 0\n",
    ),
    // do returns where its condition holds
    (
        b"long main(void) { do { __out(46); } while (0); return 0; }",
        &["one", "main.c", "--steps", "1"],
        0,
        b".",
        b"ended 0\n",
    ),
    (
        b"long main(void) { do { __out(46); } while (1); return 0; }",
        &["one", "main.c", "--steps", "3"],
        5,
        b"...",
        b"step bound spent\n",
    ),
    // calls and returns together
    (
        b"static long f(long n) { __out(48 + n); return n ? f(n - 1) : 0; }\n\
          long main(void) { for (long i = 0; i < 2; i = i + 1) f(i); return 0; }",
        &["one", "main.c", "--steps", "5"],
        5,
        b"010",
        b"step bound spent\n",
    ),
    (
        b"static long f(long n) { __out(48 + n); return n ? f(n - 1) : 0; }\n\
          long main(void) { for (long i = 0; i < 2; i = i + 1) f(i); return 0; }",
        &["one", "main.c", "--steps", "6"],
        0,
        b"010",
        b"ended 0\n",
    ),
    // a call takes its step before its depth is looked at
    (
        b"long f(void) { return f(); }\nlong main(void) { return f(); }",
        &["one", "main.c", "--steps", "1000"],
        5,
        b"",
        b"step bound spent\n",
    ),
    (
        b"long f(void) { return f(); }\nlong main(void) { return f(); }",
        &["one", "main.c", "--steps", "1001"],
        4,
        b"",
        b"checked fault depth in app:main.c:f line 1\n",
    ),
    // the greatest bound
    (
        b"long main(void) { return 0; }",
        &["one", "main.c", "--steps", "1000000000"],
        0,
        b"",
        b"ended 0\n",
    ),
];

/// A program that writes its input, and takes one byte more.
pub const COPY: &[u8] = b"long main(void) {\n\
      \x20 long c = __in();\n\
      \x20 while (c != -1) { __out(c); c = __in(); }\n\
      \x20 return __in();\n\
      }";

/// A program that writes how many of the bytes of its input are small letters.
pub const COUNT: &[u8] = b"static void put_dec(long v) {\n\
      \x20 if (v > 9) put_dec(v / 10);\n\
      \x20 __out('0' + v % 10);\n\
      }\n\
      static long upper(long c) { return c >= 'A' && c <= 'Z'; }\n\
      static long lower(long c) { return c >= 'a' && c <= 'z'; }\n\
      static fn1 test = lower;\n\
      long main(void) {\n\
      \x20 long c = __in();\n\
      \x20 long n;\n\
      \x20 while (c != -1) {\n\
      \x20   if (test(c)) n = n + 1;\n\
      \x20   c = __in();\n\
      \x20 }\n\
      \x20 put_dec(n);\n\
      \x20 return 0;\n\
      }";

/// Programs with a bound of their steps and the bytes of the input; then the status, the output, the line, and the bytes that are left.
const INPUTS: [(&[u8], &[&str], &[u8], u8, &[u8], &[u8], &[u8]); 7] = [
    // up to the end, which is met again
    (
        COPY,
        &["one", "--steps", "1000000", "main.c"],
        b"one\n\xff\x00",
        1,
        b"one\n\xff\x00",
        b"ended 18446744073709551615\n",
        b"",
    ),
    // two bytes of five
    (
        b"long main(void) { __out(__in()); return __in(); }",
        &["one", "--steps", "1000000", "main.c"],
        b"abcde",
        1,
        b"a",
        b"ended 98\n",
        b"cde",
    ),
    // nothing is taken
    (
        b"long main(void) { return 0; }",
        &["one", "--steps", "1000000", "main.c"],
        b"abc",
        0,
        b"",
        b"ended 0\n",
        b"abc",
    ),
    // a table chooses the test
    (
        COUNT,
        &["one", "--steps", "1000000", "main.c"],
        b"Hello, Piece World",
        0,
        b"12",
        b"ended 0\n",
        b"",
    ),
    // a step too few
    (
        COUNT,
        &["one", "--steps", "38", "main.c"],
        b"Hello, Piece World",
        5,
        b"",
        b"step bound spent\n",
        b"",
    ),
    // a fault before the next byte
    (
        b"long main(void) { __out(__in()); return 1 / (__in() - 98); }",
        &["one", "--steps", "1000000", "main.c"],
        b"abc",
        4,
        b"a",
        b"checked fault division in app:main.c:main line 1\n",
        b"c",
    ),
    // no step is left at the third byte
    (
        b"long main(void) { while (1) __out(__in()); return 0; }",
        &["one", "--steps", "2", "main.c"],
        b"abc",
        5,
        b"ab",
        b"step bound spent\n",
        b"c",
    ),
];

#[test]
fn each_program_ends_as_it_means(rt: HostRuntime) -> Result<(), Fail> {
    for (text, status, out, msg) in PROGRAMS {
        let given = Given {
            words: &ONE,
            text,
            input: b"",
            fails: NONE,
        };
        let answer = Expected {
            status,
            out,
            msg,
            left: b"",
        };
        answers(&rt, rt.alloc(), given, answer)?;
    }
    Ok(())
}

#[test]
fn a_run_takes_as_many_steps_as_it_is_given(rt: HostRuntime) -> Result<(), Fail> {
    for (text, words, status, out, msg) in BOUNDS {
        let given = Given {
            words,
            text,
            input: b"",
            fails: NONE,
        };
        let answer = Expected {
            status,
            out,
            msg,
            left: b"",
        };
        answers(&rt, rt.alloc(), given, answer)?;
    }
    Ok(())
}

#[test]
fn a_program_takes_what_it_reads(rt: HostRuntime) -> Result<(), Fail> {
    for (text, words, input, status, out, msg, left) in INPUTS {
        let given = Given {
            words,
            text,
            input,
            fails: NONE,
        };
        let answer = Expected {
            status,
            out,
            msg,
            left,
        };
        answers(&rt, rt.alloc(), given, answer)?;
    }
    Ok(())
}
