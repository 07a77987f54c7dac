//! The trees and faults of expressions, as an independent model of the language gives them. Each is what a statement
//! assigns, and its tokens are counted from its own first.
use crate::assigned::{AFTER, BEFORE, TOKENS_BEFORE, assigned};
use crate::parsed::parsed;
use crate::tree_text::show_expression;
use pw_grammar::SyntaxError;
use pw_tree::Unit;
use std::alloc::{AllocError, Global};
use std::process::Abort;
use std::test::Fail;

/// An expression, and its tree with the number of the token after it, or its fault.
type Row = (&'static [u8], &'static str);

/// The expression's tree, and the number of the token after it.
fn assigned_text(alloc: Global, unit: &Unit) -> Result<String, AllocError> {
    let mut out = String::new(alloc);
    if let Some((value, end)) = assigned(unit) {
        show_expression(alloc, &mut out, TOKENS_BEFORE, value)?;
        let at = end.saturating_sub(TOKENS_BEFORE);
        out.push_str(format!(in alloc; " to {at}")?.as_str())?;
    }
    Ok(out)
}

/// A fault, its token counted from the expression's first.
fn fault_text(alloc: Global, fault: SyntaxError) -> Result<String, AllocError> {
    match fault {
        SyntaxError::At(at) => {
            let at = at.saturating_sub(TOKENS_BEFORE);
            format!(in alloc; "At({at})")
        }
        _ => format!(in alloc; "{fault:?}"),
    }
}

/// The expression's tree, or the fault.
fn outcome(rt: &impl Abort, alloc: Global, expression: &[u8]) -> Result<String, Fail> {
    let mut text = Vec::new(alloc);
    text.extend_from_slice(BEFORE)?;
    text.extend_from_slice(expression)?;
    text.extend_from_slice(AFTER)?;
    match parsed(rt, alloc, text.as_slice())? {
        Ok(unit) => Ok(assigned_text(alloc, &unit)?),
        Err(fault) => Ok(fault_text(alloc, fault)?),
    }
}

/// Each expression has its outcome.
fn agree(rt: &impl Abort, alloc: Global, rows: &[Row]) -> Result<(), Fail> {
    for (text, expected) in rows {
        assert_eq!(rt;
            outcome(rt, alloc, text)?.as_str(),
            *expected,
            "in {text:?}"
        );
    }
    Ok(())
}

const THE_TIGHTEST_OPERATOR_STANDS_DEEPEST: [Row; 18] = [
    // a name
    (b"a", "a@0-0/1 to 1"),
    // brackets leave no node
    (b"(a)", "a@1-1/1 to 3"),
    // nor do two pairs
    (b"((a))", "a@2-2/1 to 5"),
    // a number
    (b"5", "5@0-0/1 to 1"),
    // a character is a number
    (b"'A'", "65@0-0/1 to 1"),
    // an unsigned number
    (b"0xfu", "15u@0-0/1 to 1"),
    // the product is the right operand
    (
        b"a+b*c",
        "(Add@0-4/1 a@0-0/1 (Mul@2-4/1 b@2-2/1 c@4-4/1)) to 5",
    ),
    // the product is the left operand
    (
        b"a*b+c",
        "(Add@0-4/1 (Mul@0-2/1 a@0-0/1 b@2-2/1) c@4-4/1) to 5",
    ),
    // to the left
    (
        b"a-b-c",
        "(Sub@0-4/1 (Sub@0-2/1 a@0-0/1 b@2-2/1) c@4-4/1) to 5",
    ),
    // brackets come first
    (
        b"(a+b)*c",
        "(Mul@0-6/1 (Add@1-3/1 a@1-1/1 b@3-3/1) c@6-6/1) to 7",
    ),
    // one level, to the left
    (
        b"a/b%c",
        "(Rem@0-4/1 (Div@0-2/1 a@0-0/1 b@2-2/1) c@4-4/1) to 5",
    ),
    // `&&` before `||`
    (
        b"a||b&&c",
        "(OrOr@0-4/1 a@0-0/1 (AndAnd@2-4/1 b@2-2/1 c@4-4/1)) to 5",
    ),
    // `&`, then `^`, then `|`
    (
        b"a|b^c&d",
        "(Or@0-6/1 a@0-0/1 (Xor@2-6/1 b@2-2/1 (And@4-6/1 c@4-4/1 d@6-6/1))) to 7",
    ),
    // order before equality
    (
        b"a==b<c",
        "(Eq@0-4/1 a@0-0/1 (Lt@2-4/1 b@2-2/1 c@4-4/1)) to 5",
    ),
    // the sum before the shift
    (
        b"a<<1+2",
        "(Shl@0-4/1 a@0-0/1 (Add@2-4/1 1@2-2/1 2@4-4/1)) to 5",
    ),
    // the shift before the comparison
    (
        b"a>>b>=c",
        "(Ge@0-4/1 (Shr@0-2/1 a@0-0/1 b@2-2/1) c@4-4/1) to 5",
    ),
    // one level of comparisons
    (
        b"a>b<=c",
        "(Le@0-4/1 (Gt@0-2/1 a@0-0/1 b@2-2/1) c@4-4/1) to 5",
    ),
    // equality, `&&`, `||`
    (
        b"a&&b||c==d!=e",
        "(OrOr@0-8/1 (AndAnd@0-2/1 a@0-0/1 b@2-2/1) (Ne@4-8/1 (Eq@4-6/1 c@4-4/1 d@6-6/1) e@8-8/1)) to 9",
    ),
];

#[test]
fn the_tightest_operator_stands_deepest(rt: HostRuntime) -> Result<(), Fail> {
    agree(&rt, rt.alloc(), &THE_TIGHTEST_OPERATOR_STANDS_DEEPEST)
}

const PREFIX_OPERATORS_AND_SUFFIXES_HAVE_THEIR_TOKENS: [Row; 13] = [
    // one operator
    (b"-a", "(Neg@0-1/1 a@1-1/1) to 2"),
    // two, which are two tokens
    (b"- -a", "(Neg@0-2/1 (Neg@1-2/1 a@2-2/1)) to 3"),
    // all four
    (
        b"-~!+a",
        "(Neg@0-4/1 (Not@1-4/1 (Bang@2-4/1 (Plus@3-4/1 a@4-4/1)))) to 5",
    ),
    // before the product
    (b"-a*b", "(Mul@0-3/1 (Neg@0-1/1 a@1-1/1) b@3-3/1) to 4"),
    // after the call
    (b"-f(x)", "(Neg@0-4/1 (Call@1-4/1 f@1-1/1 x@3-3/1)) to 5"),
    // an index
    (b"a[1]", "(Index@0-3/1 a@0-0/1 1@2-2/1) to 4"),
    // a call without arguments
    (b"f()", "(Call@0-2/1 f@0-0/1) to 3"),
    // a call with one
    (b"f(a)", "(Call@0-3/1 f@0-0/1 a@2-2/1) to 4"),
    // a call with three
    (
        b"f(a,b,c)",
        "(Call@0-7/1 f@0-0/1 a@2-2/1 b@4-4/1 c@6-6/1) to 8",
    ),
    // suffixes one after another
    (
        b"f(a)(b)[c]",
        "(Index@0-9/1 (Call@0-6/1 (Call@0-3/1 f@0-0/1 a@2-2/1) b@5-5/1) c@8-8/1) to 10",
    ),
    // brackets round the callee
    (b"(f)(a)", "(Call@0-5/1 f@1-1/1 a@4-4/1) to 6"),
    // input
    (b"__in()", "(Input@0-2/1) to 3"),
    // output
    (
        b"__out(a+1)",
        "(Output@0-5/1 (Add@2-4/1 a@2-2/1 1@4-4/1)) to 6",
    ),
];

#[test]
fn prefix_operators_and_suffixes_have_their_tokens(rt: HostRuntime) -> Result<(), Fail> {
    agree(
        &rt,
        rt.alloc(),
        &PREFIX_OPERATORS_AND_SUFFIXES_HAVE_THEIR_TOKENS,
    )
}

const A_CHOICE_TAKES_IN_THOSE_IN_IT_AND_AFTER_IT: [Row; 5] = [
    // a choice
    (b"a?b:c", "(Cond@0-4/1 a@0-0/1 b@2-2/1 c@4-4/1) to 5"),
    // another one after it
    (
        b"a?b:c?d:e",
        "(Cond@0-8/1 a@0-0/1 b@2-2/1 (Cond@4-8/1 c@4-4/1 d@6-6/1 e@8-8/1)) to 9",
    ),
    // another one in it
    (
        b"a?b?c:d:e",
        "(Cond@0-8/1 a@0-0/1 (Cond@2-6/1 b@2-2/1 c@4-4/1 d@6-6/1) e@8-8/1) to 9",
    ),
    // looser than `||`
    (
        b"a||b?c:d",
        "(Cond@0-6/1 (OrOr@0-2/1 a@0-0/1 b@2-2/1) c@4-4/1 d@6-6/1) to 7",
    ),
    // in an argument
    (
        b"f(a?b:c,d)",
        "(Call@0-9/1 f@0-0/1 (Cond@2-6/1 a@2-2/1 b@4-4/1 c@6-6/1) d@8-8/1) to 10",
    ),
];

#[test]
fn a_choice_takes_in_those_in_it_and_after_it(rt: HostRuntime) -> Result<(), Fail> {
    agree(&rt, rt.alloc(), &A_CHOICE_TAKES_IN_THOSE_IN_IT_AND_AFTER_IT)
}

const A_NODE_HAS_THE_LINE_OF_ITS_OPERATOR: [Row; 7] = [
    // of `+`
    (b"a\n+\nb", "(Add@0-2/2 a@0-0/1 b@2-2/3) to 3"),
    // of `?`, which stands in the first line
    (b"a?\nb\n:c", "(Cond@0-4/1 a@0-0/1 b@2-2/2 c@4-4/3) to 5"),
    // of `?`, which stands in the second
    (b"a\n?b:c", "(Cond@0-4/2 a@0-0/1 b@2-2/2 c@4-4/2) to 5"),
    // of `(`
    (b"f\n(\na)", "(Call@0-3/2 f@0-0/1 a@2-2/3) to 4"),
    // of `[`
    (b"a\n[\n1]", "(Index@0-3/2 a@0-0/1 1@2-2/3) to 4"),
    // of each `-`
    (b"-\n-\n5", "(Neg@0-2/1 (Neg@1-2/2 5@2-2/3)) to 3"),
    // of `__out`
    (b"\n__out(\na)", "(Output@0-3/2 a@2-2/3) to 4"),
];

#[test]
fn a_node_has_the_line_of_its_operator(rt: HostRuntime) -> Result<(), Fail> {
    agree(&rt, rt.alloc(), &A_NODE_HAS_THE_LINE_OF_ITS_OPERATOR)
}

const THE_FAULT_IS_THE_TOKEN_AFTER_THE_LONGEST_EXPRESSION: [Row; 5] = [
    // a second name
    (b"a b", "At(1)"),
    // assignment is no expression
    (b"a=b", "At(1)"),
    // after a sum
    (b"a+b c", "At(3)"),
    // a bracket that closes nothing
    (b"a)", "At(1)"),
    // there is no comma operator
    (b"a,b", "At(1)"),
];

#[test]
fn the_fault_is_the_token_after_the_longest_expression(rt: HostRuntime) -> Result<(), Fail> {
    agree(
        &rt,
        rt.alloc(),
        &THE_FAULT_IS_THE_TOKEN_AFTER_THE_LONGEST_EXPRESSION,
    )
}

const THE_FIRST_TOKEN_WITH_NO_PLACE_IS_THE_FAULT: [Row; 17] = [
    // nothing
    (b"", "At(0)"),
    // no operand
    (b"+", "At(1)"),
    // no right operand
    (b"a+", "At(2)"),
    // no argument after the comma
    (b"f(a,)", "At(4)"),
    // no argument before it
    (b"f(,a)", "At(2)"),
    // no `)` of a call
    (b"f(a", "At(3)"),
    // no `)`
    (b"(a", "At(2)"),
    // nothing in brackets
    (b"()", "At(1)"),
    // no index
    (b"a[]", "At(2)"),
    // no `]`
    (b"a[1", "At(3)"),
    // no `:`
    (b"a?b", "At(3)"),
    // nothing in the middle
    (b"a?:b", "At(2)"),
    // nothing after `:`
    (b"a?b:", "At(4)"),
    // input takes no argument
    (b"__in(a)", "At(2)"),
    // output takes one
    (b"__out()", "At(2)"),
    // a type is no expression
    (b"long", "At(0)"),
    // no operand after `-`
    (b"-;", "At(1)"),
];

#[test]
fn the_first_token_with_no_place_is_the_fault(rt: HostRuntime) -> Result<(), Fail> {
    agree(&rt, rt.alloc(), &THE_FIRST_TOKEN_WITH_NO_PLACE_IS_THE_FAULT)
}
