//! Faults of statements.

use crate::answer::{Row, agree};
use std::test::Fail;

/// Statements that leave a function or a loop.
const LEAVING: [Row; 5] = [
    // a value from a void function
    ("void f(void) { return 1; }", "ReturnType at line 1 token 8"),
    // no value from another
    ("long f(void) { return; }", "ReturnType at line 1 token 7"),
    // a pointer for a number
    (
        "fn0 p; long f(void) { return p; }",
        "ReturnType at line 1 token 11",
    ),
    // no loop
    (
        "long main(void) { break; return 0; }",
        "OutsideLoop at line 1 token 7",
    ),
    // a `continue` after the loop
    (
        "long main(void) { while (1) { break; } continue; return 0; }",
        "OutsideLoop at line 1 token 15",
    ),
];

#[test]
fn a_statement_leaves_with_what_is_wanted(rt: HostRuntime) -> Result<(), Fail> {
    agree(&rt, rt.alloc(), &LEAVING)
}
