//! Units that make a module: pointers, undefined names and initialisers.

use crate::answer::{Row, agree};
use pw_base::Kind;
use std::test::Fail;

const ROWS: [Row; 8] = [
    Row {
        why: "the elements that an initialiser leaves out are zeros of the file",
        kind: Kind::Library,
        units: &[(
            "a.c",
            "long t[4] = {7}; unsigned long u = 18446744073709551615ul;",
        )],
        words: 0,
        slots: &[],
        bytes: 40,
        zeros: 0,
        symbols: 3,
        relocations: 0,
        digest: 0x64de63370805fdc4,
    },
    Row {
        why: "a pointer to a static function is the module's base and its place",
        kind: Kind::Program,
        units: &[(
            "a.c",
            "static long cb(void) { return 5; } fn0 hook = cb; long main(void) { return hook(); }",
        )],
        words: 45,
        slots: &["main", "hook"],
        bytes: 24,
        zeros: 0,
        symbols: 5,
        relocations: 3,
        digest: 0xb1c0a376e487f99c,
    },
    Row {
        why: "a pointer to an external function is its symbol, and a root",
        kind: Kind::Program,
        units: &[
            (
                "a.c",
                "extern long cb(void); fn0 hook = cb; long main(void) { return hook(); }",
            ),
            ("b.c", "long cb(void) { return 6; }"),
        ],
        words: 45,
        slots: &["main", "hook"],
        bytes: 24,
        zeros: 0,
        symbols: 5,
        relocations: 3,
        digest: 0x291f6111fd116ed6,
    },
    Row {
        why: "each element that names a function is a pointer and a root",
        kind: Kind::Library,
        units: &[(
            "a.c",
            "static long f(void) { return 1; } long g(void) { return 2; } static fn0 t[4] = {g, f, g};",
        )],
        words: 30,
        slots: &[],
        bytes: 32,
        zeros: 0,
        symbols: 4,
        relocations: 3,
        digest: 0xb8c22c5654052e5e,
    },
    Row {
        why: "a pointer in a unit after others stands after their variables",
        kind: Kind::Library,
        units: &[
            ("a.c", "long a[5] = {1}; long f(void) { return 1; }"),
            (
                "b.c",
                "extern long f(void); static long b = 3; static fn0 p = f;",
            ),
        ],
        words: 15,
        slots: &[],
        bytes: 56,
        zeros: 0,
        symbols: 5,
        relocations: 1,
        digest: 0xba82697cdf903e8c,
    },
    Row {
        why: "names that are used and not defined are undefined symbols",
        kind: Kind::Library,
        units: &[(
            "a.c",
            "extern long gone(void); extern long far[16]; long f(long i) { return gone() + far[i]; }",
        )],
        words: 33,
        slots: &["gone", "far"],
        bytes: 16,
        zeros: 0,
        symbols: 4,
        relocations: 2,
        digest: 0x7d61af6714a98df8,
    },
    Row {
        why: "the kind of a name is that of its definition in another unit, wherever it appeared first",
        kind: Kind::Library,
        units: &[
            ("a.c", "extern long x; long f(void) { return x; }"),
            ("b.c", "long x = 9;"),
        ],
        words: 17,
        slots: &["x"],
        bytes: 16,
        zeros: 0,
        symbols: 3,
        relocations: 1,
        digest: 0xde5b31e668f1b269,
    },
    Row {
        why: "no units make an empty library",
        kind: Kind::Library,
        units: &[],
        words: 0,
        slots: &[],
        bytes: 0,
        zeros: 0,
        symbols: 1,
        relocations: 0,
        digest: 0x421bccfb8f7084d7,
    },
];

#[test]
fn data_stand_where_they_are_to(rt: HostRuntime) -> Result<(), Fail> {
    for row in &ROWS {
        agree(&rt, rt.alloc(), row)?;
    }
    Ok(())
}
