//! Tokens: which bytes are one, with its number and its line.

use crate::rows::{Row, agree};
use pw_lex::{Token, TokenKind, end_line, line_at, tokens};
use std::test::Fail;

const THE_LONGEST_TOKEN_THAT_FITS_IS_TAKEN: [Row; 9] = [
    (
        b"a+++b",
        "word@0..1/1 punct31@1..3/1 punct9@3..4/1 word@4..5/1 ",
        "`++` before `+`",
    ),
    (
        b"a<<=b",
        "word@0..1/1 punct41@1..4/1 word@4..5/1 ",
        "three bytes before two",
    ),
    (
        b"a>>>=b",
        "word@0..1/1 punct21@1..3/1 punct17@3..5/1 word@5..6/1 ",
        "the longest first, not the longest later",
    ),
    (
        b"x<=>y",
        "word@0..1/1 punct16@1..3/1 punct15@3..4/1 word@4..5/1 ",
        "no token has these three bytes",
    ),
    (
        b"!==a",
        "punct19@0..2/1 punct8@2..3/1 word@3..4/1 ",
        "the rest begins a token of its own",
    ),
    (
        b"&&&|||",
        "punct27@0..2/1 punct22@2..3/1 punct28@3..5/1 punct23@5..6/1 ",
        "two bytes, then one",
    ),
    (
        b"---1",
        "punct32@0..2/1 punct10@2..3/1 1@3..4/1 ",
        "a sign is no part of a number",
    ),
    (
        b"long1 long",
        "word@0..5/1 key0@6..10/1 ",
        "a keyword that goes on is a name",
    ),
    (
        b"__in__ __in __out _",
        "word@0..6/1 key20@7..11/1 key21@12..17/1 word@18..19/1 ",
        "an underline is a letter",
    ),
];

#[test]
fn the_longest_token_that_fits_is_taken(rt: HostRuntime) -> Result<(), Fail> {
    agree(&rt, rt.alloc(), &THE_LONGEST_TOKEN_THAT_FITS_IS_TAKEN)
}

const COMMENTS_AND_WHITE_SPACE_PART_TOKENS_AND_DO_NOT_NEST: [Row; 13] = [
    (b"", "", "no bytes, no tokens"),
    (b"/**/", "", "the shortest comment"),
    (b"/***/", "", "a star in a comment"),
    (b"//", "", "a comment ends at the text's end"),
    (b"/* // */", "", "no comment in a comment"),
    (
        b"/* /* */ */",
        "punct11@9..10/1 punct12@10..11/1 ",
        "the first close ends it",
    ),
    (
        b"a// b\nc",
        "word@0..1/1 word@6..7/2 ",
        "a line comment ends at its line's end",
    ),
    (b"// a */ b", "", "a close in a line comment"),
    (
        b"a/**/b",
        "word@0..1/1 word@5..6/1 ",
        "a comment parts tokens",
    ),
    (
        b"/*/ */1",
        "1@6..7/1 ",
        "the slash of the opening closes nothing",
    ),
    (
        b"/ /",
        "punct12@0..1/1 punct12@2..3/1 ",
        "two slashes that are apart",
    ),
    (
        b"a\r\nb\tc \n",
        "word@0..1/1 word@3..4/2 word@5..6/2 ",
        "the four bytes of white space",
    ),
    (b"/*\n\n*/ x", "word@7..8/3 ", "lines count in a comment"),
];

#[test]
fn comments_and_white_space_part_tokens_and_do_not_nest(rt: HostRuntime) -> Result<(), Fail> {
    agree(
        &rt,
        rt.alloc(),
        &COMMENTS_AND_WHITE_SPACE_PART_TOKENS_AND_DO_NOT_NEST,
    )
}

const EVERY_KEYWORD_AND_PUNCTUATOR_HAS_ITS_NUMBER: [Row; 2] = [
    (
        b"long unsigned void fn0 fn1 fn2 fn3 fn4 fn5 fn6 extern static if else while do for return break continue __in __out",
        "key0@0..4/1 key1@5..13/1 key2@14..18/1 key3@19..22/1 key4@23..26/1 key5@27..30/1 key6@31..34/1 key7@35..38/1 key8@39..42/1 key9@43..46/1 key10@47..53/1 key11@54..60/1 key12@61..63/1 key13@64..68/1 key14@69..74/1 key15@75..77/1 key16@78..81/1 key17@82..88/1 key18@89..94/1 key19@95..103/1 key20@104..108/1 key21@109..114/1 ",
        "each keyword, in order",
    ),
    (
        b"( ) { } [ ] ; , = + - * / % < > <= >= == != << >> & | ^ ~ ! && || ? : ++ -- += -= *= /= %= &= |= ^= <<= >>=",
        "punct0@0..1/1 punct1@2..3/1 punct2@4..5/1 punct3@6..7/1 punct4@8..9/1 punct5@10..11/1 punct6@12..13/1 punct7@14..15/1 punct8@16..17/1 punct9@18..19/1 punct10@20..21/1 punct11@22..23/1 punct12@24..25/1 punct13@26..27/1 punct14@28..29/1 punct15@30..31/1 punct16@32..34/1 punct17@35..37/1 punct18@38..40/1 punct19@41..43/1 punct20@44..46/1 punct21@47..49/1 punct22@50..51/1 punct23@52..53/1 punct24@54..55/1 punct25@56..57/1 punct26@58..59/1 punct27@60..62/1 punct28@63..65/1 punct29@66..67/1 punct30@68..69/1 punct31@70..72/1 punct32@73..75/1 punct33@76..78/1 punct34@79..81/1 punct35@82..84/1 punct36@85..87/1 punct37@88..90/1 punct38@91..93/1 punct39@94..96/1 punct40@97..99/1 punct41@100..103/1 punct42@104..107/1 ",
        "each punctuator, in order, those without a place in the grammar last",
    ),
];

#[test]
fn every_keyword_and_punctuator_has_its_number(rt: HostRuntime) -> Result<(), Fail> {
    agree(
        &rt,
        rt.alloc(),
        &EVERY_KEYWORD_AND_PUNCTUATOR_HAS_ITS_NUMBER,
    )
}

const A_NAME_HAS_AT_MOST_63_BYTES: [Row; 3] = [
    (
        b"aaaaaaaaaaaaaaaaaaaaaaaaaaaaaaaaaaaaaaaaaaaaaaaaaaaaaaaaaaaaaaa",
        "word@0..63/1 ",
        "the longest name",
    ),
    (
        b"aaaaaaaaaaaaaaaaaaaaaaaaaaaaaaaaaaaaaaaaaaaaaaaaaaaaaaaaaaaaaaaa",
        "name too long at line 1 byte 0",
        "one byte more",
    ),
    (
        b"aaaaaaaaaaaaaaaaaaaaaaaaaaaaaaaaaaaaaaaaaaaaaaaaaaaaaaaaaaaaaaa(_9_9_9_9_9_9_9_9_9_9_9_9_9_9_9_9_9_9_9_9_9_9_9_9_9_9_9_9_9_9_9Zq",
        "name too long at line 1 byte 64",
        "the second name is too long",
    ),
];

#[test]
fn a_name_has_at_most_63_bytes(rt: HostRuntime) -> Result<(), Fail> {
    agree(&rt, rt.alloc(), &A_NAME_HAS_AT_MOST_63_BYTES)
}

#[test]
fn a_word_carries_its_bytes_and_the_end_has_a_line(rt: HostRuntime) -> Result<(), Fail> {
    let text = b"x\nfoo_9\n";
    let tokens = tokens(rt.alloc(), text)?;
    let names = tokens
        .as_slice()
        .iter()
        .filter(|token| matches!(token.kind, TokenKind::Word(_)));
    assert_eq!(rt; names.count(), 2);
    match tokens.get(1) {
        Some(
            Token {
                kind: TokenKind::Word(name),
                ..
            },
        ) => assert_eq!(rt; name.bytes(), b"foo_9".as_slice()),
        _ => panic!(rt; "the second token is no word"),
    }
    assert_eq!(rt; end_line(text), 3);
    assert_eq!(rt; line_at(text, 2), 2);
    Ok(())
}
