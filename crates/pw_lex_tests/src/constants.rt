//! Constants: integers and characters, with their values and types.

use crate::rows::{Row, agree};
use std::test::Fail;

const AN_INTEGER_CONSTANT_HAS_THE_VALUE_AND_THE_TYPE_OF_ITS_SPELLING: [Row; 19] = [
    (b"0", "0@0..1/1 ", "zero, which is no octal"),
    (b"7", "7@0..1/1 ", "one digit"),
    (b"42", "42@0..2/1 ", "two digits"),
    (b"0x0", "0@0..3/1 ", "hexadecimal zero"),
    (b"0X1f", "31@0..4/1 ", "the other letter of the mark"),
    (b"0xAbC", "2748@0..5/1 ", "digits of both cases"),
    (b"1u", "1u@0..2/1 ", "u makes it unsigned"),
    (b"1ul", "1u@0..3/1 ", "u, then l"),
    (b"1LU", "1u@0..3/1 ", "L, then U"),
    (b"1Ul", "1u@0..3/1 ", "cases may differ"),
    (b"0L", "0@0..2/1 ", "l alone changes nothing"),
    (b"0uL", "0u@0..3/1 ", "zero with a suffix"),
    (
        b"9223372036854775807",
        "9223372036854775807@0..19/1 ",
        "the largest of long",
    ),
    (
        b"9223372036854775808u",
        "9223372036854775808u@0..20/1 ",
        "one more, unsigned",
    ),
    (
        b"18446744073709551615u",
        "18446744073709551615u@0..21/1 ",
        "the largest of unsigned long",
    ),
    (
        b"0x7fffffffffffffff",
        "9223372036854775807@0..18/1 ",
        "hexadecimal, the largest of long",
    ),
    (
        b"0x8000000000000000",
        "9223372036854775808u@0..18/1 ",
        "hexadecimal takes unsigned long by itself",
    ),
    (
        b"0xffffffffffffffffl",
        "18446744073709551615u@0..19/1 ",
        "also with an l",
    ),
    (
        b"0x123456789abcdef0",
        "1311768467463790320@0..18/1 ",
        "each digit has its value",
    ),
];

#[test]
fn an_integer_constant_has_the_value_and_the_type_of_its_spelling(
    rt: HostRuntime,
) -> Result<(), Fail> {
    agree(
        &rt,
        rt.alloc(),
        &AN_INTEGER_CONSTANT_HAS_THE_VALUE_AND_THE_TYPE_OF_ITS_SPELLING,
    )
}

const A_RUN_OF_ANOTHER_FORM_IS_A_BAD_NUMBER: [Row; 14] = [
    (b"00", "bad number at line 1 byte 0", "a leading zero"),
    (
        b"08",
        "bad number at line 1 byte 0",
        "a leading zero before no octal digit",
    ),
    (b"0x", "bad number at line 1 byte 0", "a mark with no digit"),
    (b"0xG", "bad number at line 1 byte 0", "G is no digit"),
    (
        b"0x1.",
        "bad byte at line 1 byte 3",
        "a point begins no token",
    ),
    (
        b"1_",
        "bad number at line 1 byte 0",
        "a letter goes on with the run",
    ),
    (
        b"1e5",
        "bad number at line 1 byte 0",
        "no floating constants",
    ),
    (b"1ull", "bad number at line 1 byte 0", "one l at most"),
    (
        b"1ll",
        "bad number at line 1 byte 0",
        "one l at most, without u too",
    ),
    (b"1uu", "bad number at line 1 byte 0", "one u at most"),
    (b"0b1", "bad number at line 1 byte 0", "no binary constants"),
    (
        b"0xu",
        "bad number at line 1 byte 0",
        "a suffix needs digits",
    ),
    (
        b"long x = 010;",
        "bad number at line 1 byte 9",
        "no octal constants",
    ),
    (
        b"1lul",
        "bad number at line 1 byte 0",
        "a suffix of three letters",
    ),
];

#[test]
fn a_run_of_another_form_is_a_bad_number(rt: HostRuntime) -> Result<(), Fail> {
    agree(&rt, rt.alloc(), &A_RUN_OF_ANOTHER_FORM_IS_A_BAD_NUMBER)
}

const A_VALUE_ABOVE_THE_LIMIT_OF_ITS_TYPE_IS_TOO_WIDE: [Row; 5] = [
    (
        b"9223372036854775808",
        "number too wide at line 1 byte 0",
        "above long, without u",
    ),
    (
        b"9223372036854775808l",
        "number too wide at line 1 byte 0",
        "an l does not help",
    ),
    (
        b"18446744073709551616u",
        "number too wide at line 1 byte 0",
        "above unsigned long",
    ),
    (
        b"0x10000000000000000",
        "number too wide at line 1 byte 0",
        "65 bits",
    ),
    (
        b"long main(void) { return 0x1ffffffffffffffff; }",
        "number too wide at line 1 byte 25",
        "the fault has the constant's first byte",
    ),
];

#[test]
fn a_value_above_the_limit_of_its_type_is_too_wide(rt: HostRuntime) -> Result<(), Fail> {
    agree(
        &rt,
        rt.alloc(),
        &A_VALUE_ABOVE_THE_LIMIT_OF_ITS_TYPE_IS_TOO_WIDE,
    )
}

const A_CHARACTER_CONSTANT_IS_ONE_BYTE_OR_AN_ESCAPE: [Row; 12] = [
    (b"'c'", "char99@0..3/1 ", "a letter"),
    (b"' '", "char32@0..3/1 ", "the least that prints"),
    (b"'~'", "char126@0..3/1 ", "the greatest that prints"),
    (
        b"'\"'",
        "char34@0..3/1 ",
        "a double quote stands for itself",
    ),
    (b"'\\n'", "char10@0..4/1 ", "line feed"),
    (b"'\\t'", "char9@0..4/1 ", "tab"),
    (b"'\\r'", "char13@0..4/1 ", "carriage return"),
    (b"'\\0'", "char0@0..4/1 ", "zero"),
    (b"'\\\\'", "char92@0..4/1 ", "backslash"),
    (b"'\\''", "char39@0..4/1 ", "quote"),
    (b"'\\\"'", "char34@0..4/1 ", "double quote"),
    (b"'a''b'", "char97@0..3/1 char98@3..6/1 ", "two that touch"),
];

#[test]
fn a_character_constant_is_one_byte_or_an_escape(rt: HostRuntime) -> Result<(), Fail> {
    agree(
        &rt,
        rt.alloc(),
        &A_CHARACTER_CONSTANT_IS_ONE_BYTE_OR_AN_ESCAPE,
    )
}

const ANOTHER_QUOTE_IS_A_BAD_BYTE: [Row; 12] = [
    (b"''", "bad byte at line 1 byte 0", "no byte"),
    (b"'ab'", "bad byte at line 1 byte 0", "two bytes"),
    (b"'", "bad byte at line 1 byte 0", "the text ends"),
    (
        b"'''",
        "bad byte at line 1 byte 0",
        "a quote stands for itself only after a backslash",
    ),
    (
        b"'\\'",
        "bad byte at line 1 byte 0",
        "the escape takes the closing quote",
    ),
    (b"'\\q'", "bad byte at line 1 byte 0", "no such escape"),
    (
        b"'\\",
        "bad byte at line 1 byte 0",
        "the text ends in an escape",
    ),
    (
        b"'\\n",
        "bad byte at line 1 byte 0",
        "the text ends after an escape",
    ),
    (
        b"a 'x",
        "bad byte at line 1 byte 2",
        "the fault has the quote's place",
    ),
    (
        b"'\n'",
        "bad byte at line 1 byte 0",
        "a line end does not print",
    ),
    (
        b"'\x80'",
        "bad byte at line 1 byte 0",
        "above the bytes that print",
    ),
    (
        b"'\x1f'",
        "bad byte at line 1 byte 0",
        "below the bytes that print",
    ),
];

#[test]
fn another_quote_is_a_bad_byte(rt: HostRuntime) -> Result<(), Fail> {
    agree(&rt, rt.alloc(), &ANOTHER_QUOTE_IS_A_BAD_BYTE)
}
