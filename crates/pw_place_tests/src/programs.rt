//! Units that make a module: the text, and what references reach.

use crate::answer::{Row, agree};
use pw_base::Kind;
use std::test::Fail;

const ROWS: [Row; 11] = [
    Row {
        why: "a program of one unit: the entry stands first, and the slot of main",
        kind: Kind::Program,
        units: &[("a.c", "long main(void) { return 0; }")],
        words: 21,
        slots: &["main"],
        bytes: 8,
        zeros: 0,
        symbols: 3,
        relocations: 1,
        digest: 0x66b039f6e11c55b,
    },
    Row {
        why: "three units: functions one after another, calls through slots",
        kind: Kind::Program,
        units: &[
            (
                "a.c",
                "extern long f(long x); long main(void) { return f(1); }",
            ),
            (
                "b.c",
                "extern long g(long x); long f(long x) { return g(x) + 1; }",
            ),
            ("c.c", "long g(long x) { return x * 2; }"),
        ],
        words: 71,
        slots: &["main", "f", "g"],
        bytes: 24,
        zeros: 0,
        symbols: 5,
        relocations: 3,
        digest: 0x18e722b28fe8ac63,
    },
    Row {
        why: "a library has no entry",
        kind: Kind::Library,
        units: &[("a.c", "long f(void) { return 1; }")],
        words: 15,
        slots: &[],
        bytes: 0,
        zeros: 0,
        symbols: 2,
        relocations: 0,
        digest: 0xb79cce10aac4992,
    },
    Row {
        why: "a library may lack main, and may define it with any type",
        kind: Kind::Library,
        units: &[("a.c", "void main(void) { }")],
        words: 13,
        slots: &[],
        bytes: 0,
        zeros: 0,
        symbols: 2,
        relocations: 0,
        digest: 0x3856f8f091e34f58,
    },
    Row {
        why: "a name that may be interposed is reached by its slot, even from its own unit",
        kind: Kind::Library,
        units: &[(
            "a.c",
            "long f(void) { return 1; } long g(void) { return f(); }",
        )],
        words: 32,
        slots: &["f"],
        bytes: 8,
        zeros: 0,
        symbols: 3,
        relocations: 1,
        digest: 0xc12e1caf80c28c6c,
    },
    Row {
        why: "static functions of one name in two units are two symbols",
        kind: Kind::Program,
        units: &[
            (
                "a.c",
                "static long f(void) { return 1; } extern long g(void); long main(void) { return f() + g(); }",
            ),
            (
                "b.c",
                "static long f(void) { return 2; } long g(void) { return f(); }",
            ),
        ],
        words: 76,
        slots: &["main", "g"],
        bytes: 16,
        zeros: 0,
        symbols: 6,
        relocations: 2,
        digest: 0x740e9a3b68deacb8,
    },
    Row {
        why: "static variables of one name in two units are two symbols and two places",
        kind: Kind::Program,
        units: &[
            (
                "a.c",
                "static long x = 1; extern long g(void); long main(void) { return x + g(); }",
            ),
            ("b.c", "static long x = 2; long g(void) { return x; }"),
        ],
        words: 46,
        slots: &["main", "g"],
        bytes: 32,
        zeros: 0,
        symbols: 6,
        relocations: 2,
        digest: 0xf6cb457dfc4b2ca8,
    },
    Row {
        why: "a name that is referred to twice, from two units, has one slot",
        kind: Kind::Program,
        units: &[
            (
                "a.c",
                "extern long f(void); long main(void) { return f() + f(); }",
            ),
            ("b.c", "extern long f(void); long h(void) { return f(); }"),
            ("c.c", "long f(void) { return 1; }"),
        ],
        words: 61,
        slots: &["main", "f"],
        bytes: 16,
        zeros: 0,
        symbols: 5,
        relocations: 2,
        digest: 0xf953a96d0f99eb30,
    },
    Row {
        why: "slots stand in order of first reference, and not of definition",
        kind: Kind::Library,
        units: &[(
            "a.c",
            "long a; long b; long f(void) { return b; } long g(void) { return a; }",
        )],
        words: 34,
        slots: &["b", "a"],
        bytes: 16,
        zeros: 16,
        symbols: 5,
        relocations: 2,
        digest: 0x309082dbed580876,
    },
    Row {
        why: "variables with an initialiser stand before the others, over all units",
        kind: Kind::Library,
        units: &[
            ("a.c", "long a; long b = 1;"),
            ("b.c", "long c; long d = 2;"),
        ],
        words: 0,
        slots: &[],
        bytes: 16,
        zeros: 16,
        symbols: 5,
        relocations: 0,
        digest: 0x7e6111fa1c5ecb3b,
    },
    Row {
        why: "within each group variables stand in order of units and definition",
        kind: Kind::Library,
        units: &[
            (
                "a.c",
                "static long x[3]; long a = 1; static long y; long b[2] = {2, 3};",
            ),
            ("b.c", "long c[2]; long d = 4;"),
        ],
        words: 0,
        slots: &[],
        bytes: 32,
        zeros: 48,
        symbols: 7,
        relocations: 0,
        digest: 0x3e7d0fee224c53c6,
    },
];

#[test]
fn units_make_their_module(rt: HostRuntime) -> Result<(), Fail> {
    for row in &ROWS {
        agree(&rt, rt.alloc(), row)?;
    }
    Ok(())
}
