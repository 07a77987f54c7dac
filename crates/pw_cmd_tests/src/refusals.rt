//! What the command says of texts that are refused, and of texts as deep, as long and with as many names as there may be.
use crate::command::{Given, NONE, ONE, run};
use pw_mem::FlatMemory;
use std::alloc::{AllocError, Global};
use std::test::Fail;

/// A text, and what stands after `refused: ` in its message.
const ROWS: [(&str, &str); 25] = [
    // no operand
    (
        "long main(void) { return 1 + ; }",
        "main.c: syntax at line 1 token 9",
    ),
    // the text ends too early
    ("long", "main.c: syntax at line 1 token 1"),
    // a comment without an end
    ("/*", "main.c: open comment at line 1 byte 0"),
    // octal digits
    ("long x = 010;", "main.c: bad number at line 1 byte 9"),
    // a fault of syntax comes before one of types
    (
        "long main(void) { return x; }\nlong g( {",
        "main.c: syntax at line 2 token 13",
    ),
    // a fault of the text comes before one of syntax
    (
        "long main(void) { return x; }\nlong g( {@",
        "main.c: bad byte at line 2 byte 39",
    ),
    // above 64 bits
    (
        "long main(void) { return 0x1ffffffffffffffff; }",
        "main.c: number too wide at line 1 byte 25",
    ),
    // 64 bytes
    (
        "long aaaaaaaaaaaaaaaaaaaaaaaaaaaaaaaaaaaaaaaaaaaaaaaaaaaaaaaaaaaaaaaa;",
        "main.c: name too long at line 1 byte 5",
    ),
    // no declaration
    (
        "long main(void) { return x; }",
        "main.c: type Unknown at line 1 token 7",
    ),
    // an argument too few
    (
        "long f(long a) { return a; }\nlong main(void) { return f(); }",
        "main.c: type ArgCount at line 2 token 20",
    ),
    // no loop
    (
        "long main(void) { break; return 0; }",
        "main.c: type OutsideLoop at line 1 token 7",
    ),
    // a keyword of C
    ("long register;", "main.c: type Reserved at line 1 token 1"),
    // a fault of types comes before one of the link
    (
        "long f(void) { return x; }",
        "main.c: type Unknown at line 1 token 7",
    ),
    // no function
    ("", "app: no main"),
    // no `main`
    ("long f(void) { return 1; }", "app: no main"),
    // a `main` that no other module sees
    ("static long main(void) { return 1; }", "app: no main"),
    // a `main` that is declared alone
    ("long main(void);", "app: no main"),
    // a `main` with a parameter
    ("long main(long a) { return a; }", "app: main has type l(l)"),
    // a `main` without a value
    ("void main(void) { }", "app: main has type v()"),
    // a `main` that is no function
    ("long main[3];", "app: main has type l[3]"),
    // a fault of the link comes before a name without a definition
    (
        "extern long x;\nunsigned long main(void) { return x; }",
        "app: main has type u()",
    ),
    // a variable without a definition
    (
        "extern long t[16];\nlong main(void) { return t[0]; }",
        "app: t is not defined",
    ),
    // the first of two names in the order of their declarations
    (
        "long g(void);\n\
          long f(void);\n\
          long main(void) { return f() + g(); }",
        "app: g is not defined",
    ),
    // a name in an initialiser
    (
        "long f(void);\n\
          fn0 p = f;\n\
          long main(void) { return 0; }",
        "app: f is not defined",
    ),
    // a name in a function that is never called
    (
        "long f(void);\n\
          long g(void) { return f(); }\n\
          long main(void) { return 0; }",
        "app: f is not defined",
    ),
];

/// A text that nests, and the line that the command writes for it.
#[derive(Clone, Copy)]
struct Deep {
    head: &'static str,
    open: &'static str,
    core: &'static str,
    close: &'static str,
    tail: &'static str,
    times: usize,
    expected: &'static str,
}

/// A value that `main` returns.
const fn returned(
    open: &'static str,
    core: &'static str,
    close: &'static str,
    times: usize,
    expected: &'static str,
) -> Deep {
    Deep {
        head: "long main(void) {return ",
        open,
        core,
        close,
        tail: ";}",
        times,
        expected,
    }
}

/// A statement of `main`.
const fn done(
    open: &'static str,
    core: &'static str,
    times: usize,
    expected: &'static str,
) -> Deep {
    Deep {
        head: "long main(void) {",
        open,
        core,
        close: "",
        tail: ";return 0;}",
        times,
        expected,
    }
}

/// Texts as deep as a function may be, and deeper ones.
fn deep_texts() -> [Deep; 16] {
    [
        returned("~", "1", "", 8182, "ended 1"),
        returned(
            "~",
            "1",
            "",
            8183,
            "refused: main.c: function too long at line 1 token 8192",
        ),
        returned(
            "(",
            "x",
            ")",
            199,
            "refused: main.c: type Unknown at line 1 token 206",
        ),
        returned(
            "(",
            "x",
            ")",
            200,
            "refused: main.c: brackets too deep at line 1 token 206",
        ),
        returned("1?1:", "1", "", 2000, "ended 1"),
        returned("1?", "1", ":1", 2000, "ended 1"),
        returned(
            "1?",
            "x",
            ":1",
            2000,
            "refused: main.c: type Unknown at line 1 token 4007",
        ),
        returned("1+", "1", "", 4090, "ended 4091"),
        returned(
            "1+",
            "x",
            "",
            4090,
            "refused: main.c: type Unknown at line 1 token 8187",
        ),
        returned(
            "",
            "x",
            "()",
            2700,
            "refused: main.c: type Unknown at line 1 token 7",
        ),
        returned("1+(", "1", ")", 99, "ended 100"),
        returned(
            "1+(",
            "1",
            ")",
            101,
            "refused: main.c: type TooDeep at line 1 token 411",
        ),
        done("if(1);else ", "", 1300, "ended 0"),
        done(
            "if(1);else ",
            "x",
            1300,
            "refused: main.c: type Unknown at line 1 token 7806",
        ),
        done("while(0)", "", 2000, "ended 0"),
        done(
            "while(0)",
            "x",
            2000,
            "refused: main.c: type Unknown at line 1 token 8006",
        ),
    ]
}

/// A piece joins a text this many times.
fn push_times(text: &mut String, times: usize, piece: &str) -> Result<(), AllocError> {
    for _ in 0..times {
        text.push_str(piece)?;
    }
    Ok(())
}

/// The text.
fn text_of(alloc: Global, deep: Deep) -> Result<String, AllocError> {
    let mut text = String::from_str(alloc, deep.head)?;
    push_times(&mut text, deep.times, deep.open)?;
    text.push_str(deep.core)?;
    push_times(&mut text, deep.times, deep.close)?;
    text.push_str(deep.tail)?;
    Ok(text)
}

/// The line that the command writes for a text of which there is no output, without its end; where there is output, that.
fn said(alloc: Global, text: &[u8]) -> Result<String, Fail> {
    let given = Given {
        words: &ONE,
        text,
        input: b"",
        fails: NONE,
    };
    let seen = run(alloc, given, FlatMemory::new(alloc))?;
    if seen.out.written().is_empty() {
        line(alloc, seen.msg.written())
    } else {
        line(alloc, seen.out.written())
    }
}

/// A line as text, without its end.
fn line(alloc: Global, bytes: &[u8]) -> Result<String, Fail> {
    Ok(String::from_str(alloc, str::from_utf8(bytes)?.trim_end())?)
}

#[test]
fn each_refused_text_has_its_line(rt: HostRuntime) -> Result<(), Fail> {
    for (text, expected) in ROWS {
        let line = format!(in rt.alloc(); "refused: {expected}")?;
        let seen = said(rt.alloc(), text.as_bytes())?;
        assert_eq!(rt; seen.as_str(), line.as_str(), "in {text:?}");
    }
    Ok(())
}

#[test]
fn a_deep_text_is_judged_and_run_within_the_stack(rt: HostRuntime) -> Result<(), Fail> {
    for deep in deep_texts() {
        let text = text_of(rt.alloc(), deep)?;
        let seen = said(rt.alloc(), text.as_bytes())?;
        assert_eq!(rt;
            seen.as_str(),
            deep.expected,
            "{} times {:?}",
            deep.times,
            deep.open
        );
    }
    Ok(())
}

/// A program that does nothing, behind so many variables, and then blanks up to so many bytes.
fn long_text(alloc: Global, variables: usize, bytes: usize) -> Result<String, AllocError> {
    let mut text = String::from_str(alloc, "long main(void) { return 0; }\n")?;
    for n in 0..variables {
        let line = format!(in alloc; "long a{n};\n")?;
        text.push_str(line.as_str())?;
    }
    let more = bytes.saturating_sub(text.len());
    push_times(&mut text, more, " ")?;
    Ok(text)
}

#[test]
fn a_text_is_as_long_and_has_as_many_names_as_the_limits_say(rt: HostRuntime) -> Result<(), Fail> {
    let rows = [
        (0, 1_048_576, "ended 0"),
        (0, 1_048_577, "refused: main.c: more than 1048576 bytes"),
        (16_383, 0, "ended 0"),
        (16_384, 0, "refused: app: 16385 names, at most 16384"),
    ];
    for (variables, bytes, expected) in rows {
        let text = long_text(rt.alloc(), variables, bytes)?;
        let seen = said(rt.alloc(), text.as_bytes())?;
        assert_eq!(rt; seen.as_str(), expected);
    }
    Ok(())
}
