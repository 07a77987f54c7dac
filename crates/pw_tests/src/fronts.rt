//! What `front` says of texts, and the message of each fault.

ghost use Rattle.std.specs.Prelude.{◌<◌, ◌^◌, length};

use pw_front::{FrontError, front};
use pw_grammar::SyntaxError;
use pw_lex::LexError;
use pw_tree::TUnit;
use pw_types::TypeError;
use std::alloc::{AllocError, Global};
use std::test::Fail;

/// A text, and its functions and variables (name and line, or name alone) or its fault.
const ROWS: [(&str, &str); 13] = [
    // no operand
    (
        "long main(void) { return 1 + ; }",
        "syntax at line 1 token 9",
    ),
    // the text ends too early
    ("long", "syntax at line 1 token 1"),
    // the same, on the line of its end
    ("long\n\n", "syntax at line 3 token 1"),
    // a comment without an end
    ("/*", "open comment at line 1 byte 0"),
    // octal digits
    ("long x = 010;", "bad number at line 1 byte 9"),
    // a fault of syntax comes before one of types
    (
        "long main(void) { return x; }\nlong g( {",
        "syntax at line 2 token 13",
    ),
    // a fault of the text comes before one of syntax
    (
        "long main(void) { return x; }\nlong g( {@",
        "bad byte at line 2 byte 39",
    ),
    // above 64 bits
    (
        "long main(void) { return 18446744073709551616; }",
        "number too wide at line 1 byte 25",
    ),
    // no declaration
    (
        "long main(void) { return x; }",
        "type Unknown at line 1 token 7",
    ),
    // an argument too few
    (
        "long f(long a) { return a; }\nlong main(void) { return f(); }",
        "type ArgCount at line 2 token 20",
    ),
    // no loop
    (
        "long main(void) { break; return 0; }",
        "type OutsideLoop at line 1 token 7",
    ),
    // a keyword of C
    ("long register;", "type Reserved at line 1 token 1"),
    // no fault
    ("long x;\nlong main(void) { return x; }\n", "main/2 x "),
];

/// The functions of a unit, each with its line.
fn push_functions(alloc: Global, out: &mut String, unit: &TUnit) -> Result<(), Fail> {
    for fun in unit.funs.as_slice() {
        let name = str::from_utf8(fun.name.bytes())?;
        out.push_str(format!(in alloc; "{name}/{} ", fun.line)?.as_str())?;
    }
    Ok(())
}

/// The variables of a unit.
fn push_variables(out: &mut String, unit: &TUnit) -> Result<(), Fail> {
    for var in unit.vars.as_slice() {
        out.push_str(str::from_utf8(var.name.bytes())?)?;
        out.push_str(" ")?;
    }
    Ok(())
}

/// The functions and variables of a text, or its fault.
fn said(alloc: Global, text: &[u8]) -> Result<String, Fail>
    requires { length text.now < 2 ^ 32 }
{
    let mut out = String::new(alloc);
    match front(alloc, text) {
        Ok(unit) => {
            push_functions(alloc, &mut out, &unit)?;
            push_variables(&mut out, &unit)?;
        }
        Err(fault) => out.push_str(format!(in alloc; "{fault}")?.as_str())?,
    }
    Ok(out)
}

#[test]
fn a_text_has_a_typed_unit_or_its_first_fault(rt: HostRuntime) -> Result<(), Fail> {
    for (text, expected) in ROWS {
        assert!(rt; text.len() < 1000);
        let answer = said(rt.alloc(), text.as_bytes())?;
        assert_eq!(rt; answer.as_str(), expected, "in {text:?}");
    }
    Ok(())
}

#[test]
fn each_fault_has_its_text(rt: HostRuntime) -> Result<(), Fail> {
    let rows = [
        (
            FrontError::Lex(LexError::LongName(7), 2),
            "name too long at line 2 byte 7",
        ),
        (
            FrontError::Syntax(SyntaxError::TooNested(205), 3),
            "brackets too deep at line 3 token 205",
        ),
        (
            FrontError::Syntax(SyntaxError::TooLong(8192), 4),
            "function too long at line 4 token 8192",
        ),
        (FrontError::Typing(TypeError::NoMemory), "out of memory"),
        (FrontError::NoMemory, "out of memory"),
    ];
    for (fault, expected) in rows {
        let text = format!(in rt.alloc(); "{fault}")?;
        assert_eq!(rt; text.as_str(), expected);
    }
    Ok(())
}
