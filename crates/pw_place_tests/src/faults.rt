//! Units that make no module.

use crate::answer::{Refused, agree_on_fault};
use pw_base::Kind;
use std::test::Fail;

const ROWS: [Refused; 11] = [
    Refused {
        why: "no units make no program",
        kind: Kind::Program,
        units: &[],
        fault: "no main",
    },
    Refused {
        why: "a name that two units define",
        kind: Kind::Library,
        units: &[
            ("a.c", "long f(void) { return 1; }"),
            ("b.c", "long f(void) { return 2; }"),
        ],
        fault: "twice f",
    },
    Refused {
        why: "the first of two such names, in order of first appearance",
        kind: Kind::Library,
        units: &[
            ("a.c", "extern long y; long f(void) { return y; } long x;"),
            ("b.c", "long x; long y;"),
            ("c.c", "long y;"),
        ],
        fault: "twice y",
    },
    Refused {
        why: "a name with two types: its first text and the other",
        kind: Kind::Library,
        units: &[
            (
                "a.c",
                "extern long f(long a); long g(void) { return f(1); }",
            ),
            ("b.c", "long f(void) { return 2; }"),
        ],
        fault: "f l(l) l()",
    },
    Refused {
        why: "of three types the first two count",
        kind: Kind::Library,
        units: &[
            ("a.c", "extern long t[3]; long g(void) { return t[0]; }"),
            ("b.c", "extern long t[4]; long h(void) { return t[0]; }"),
            ("c.c", "long t[5];"),
        ],
        fault: "t l[3] l[4]",
    },
    Refused {
        why: "a program with a static main has none",
        kind: Kind::Program,
        units: &[(
            "a.c",
            "static long main(void) { return 0; } long f(void) { return main(); }",
        )],
        fault: "no main",
    },
    Refused {
        why: "a program that uses main and does not define it has none",
        kind: Kind::Program,
        units: &[(
            "a.c",
            "extern long main(void); long f(void) { return main(); }",
        )],
        fault: "no main",
    },
    Refused {
        why: "a main of another type",
        kind: Kind::Program,
        units: &[("a.c", "void main(void) { }")],
        fault: "main v()",
    },
    Refused {
        why: "a variable that is named main has a wrong type too",
        kind: Kind::Program,
        units: &[("a.c", "long main[2];")],
        fault: "main l[2]",
    },
    Refused {
        why: "of a name that two units define and one with two types, the first of these faults",
        kind: Kind::Library,
        units: &[
            (
                "a.c",
                "extern long f(long a); long g(void) { return f(1); }",
            ),
            (
                "b.c",
                "long f(void) { return 2; } long g(void) { return 3; }",
            ),
        ],
        fault: "twice g",
    },
    Refused {
        why: "types are compared before main is looked for",
        kind: Kind::Program,
        units: &[
            ("a.c", "extern long x; long g(void) { return x; }"),
            ("b.c", "unsigned long x;"),
        ],
        fault: "x l u",
    },
];

#[test]
fn the_first_fault_is_told(rt: HostRuntime) -> Result<(), Fail> {
    for row in &ROWS {
        agree_on_fault(&rt, rt.alloc(), row)?;
    }
    Ok(())
}
