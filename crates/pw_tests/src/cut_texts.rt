//! A text with every form of the grammar, cut after each of its tokens: a unit where a declaration ends, as an
//! independent model of the language says, and else a fault at the end.

use pw_grammar::SyntaxError;
use pw_lex::{Token, tokens};
use pw_parse::parse;
use std::alloc::Global;
use std::process::Abort;
use std::test::Fail;

const TEXT: &[u8] = b"
extern long a;
static unsigned long b = 0x10u;
fn0 g = f;
long t[3] = {1, -2, f,};
fn6 h[1] = {'A'};
extern fn5 u[2];
long p(void);
extern void q(long, unsigned long, fn4);
long r(fn3 x, unsigned long y);
extern long o(long x);
static void s(long x, fn1 y) {}
void v(long x) {
    {
        long z;
        fn2 k = p;
        ;
    }
    z = 1;
    t[x + 1] = 2;
    if (x) y(); else if (z) {} else return;
    while (x) continue;
    do break; while (x);
    for (long i = 0; i < 9; i = i + 1) f(i);
    for (t[0] = 1; x; f()) {}
    for (z = 0;;) ;
    for (;;) ;
}
long m(void) {
    a || b && c | d ^ e & f == g != h < i > j <= k >= l << m >> n + o - p * q / r % s;
    -+~!a(b, c)[d](e);
    return (x ? y : z) ? __in() : __out(x);
}
";

/// How many tokens the text has.
const TOKENS: u32 = 296;

/// How many tokens make up a unit, and how many declarations it has.
const UNITS: [(u32, usize); 14] = [
    (0, 0),
    (4, 1),
    (11, 2),
    (16, 3),
    (32, 4),
    (42, 5),
    (49, 6),
    (55, 7),
    (67, 8),
    (78, 9),
    (86, 10),
    (98, 11),
    (216, 12),
    (296, 13),
];

/// How many declarations the unit of the first tokens has, or the fault.
fn expected(count: u32) -> Result<usize, SyntaxError> {
    for (tokens, decls) in UNITS {
        if tokens == count {
            return Ok(decls);
        }
    }
    Err(SyntaxError::At(count))
}

/// How many declarations the unit of these tokens has, or the fault; the unit has the line of each token.
fn read(rt: &impl Abort, alloc: Global, tokens: &[Token]) -> Result<usize, SyntaxError> {
    assert!(rt; tokens.len() < 100000);
    let unit = parse(alloc, tokens)?;
    assert_eq!(rt; unit.lines.len(), tokens.len());
    Ok(unit.decls.len())
}

#[test]
fn a_text_may_end_only_behind_a_declaration(rt: HostRuntime) -> Result<(), Fail> {
    let tokens = tokens(rt.alloc(), TEXT)?;
    assert!(rt; tokens.len() == TOKENS as usize);
    for count in 0..TOKENS + 1 {
        let cut = &tokens.as_slice()[..count as usize];
        assert_eq!(rt;
            read(&rt, rt.alloc(), cut),
            expected(count),
            "behind {count} tokens"
        );
    }
    Ok(())
}
