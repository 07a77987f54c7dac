//! Whole objects: functions with their dependencies, variables in order, and names.

use crate::shown::{functions_of, names_of, variables_of};
use crate::units::object_of;
use std::test::Fail;

/// A text, and the functions, the variables and the names of its object.
type Row = (&'static str, &'static str, &'static str, &'static str);

/// Objects.
const OBJECTS: [Row; 19] = [
    // nothing
    ("", "", "", ""),
    // a program
    (
        "long main(void) { return 0; }",
        "main l(): 00049a63 00400513 00100593 40200893 00000073 fff48493 ff010113 00113023 00000513 0080006f 00000513 00013083 01010113 00148493 00008067 |",
        "",
        "main l()",
    ),
    // static functions are dependencies by their numbers, and no names
    (
        "static long h(void) { return 3; }\nlong main(void) { return h(); }",
        "static h l(): 00049a63 00400513 00100593 40200893 00000073 fff48493 ff010113 00113023 00300513 0080006f 00000513 00013083 01010113 00148493 00008067 |; main l(): 00049a63 00400513 00200593 40200893 00000073 fff48493 ff010113 00113023 5=f0 000280e7 0080006f 00000513 00013083 01010113 00148493 00008067 | f0",
        "",
        "main l()",
    ),
    // each function that is named is a dependency once, in order of text
    (
        "extern long f(void); extern long g(void);\nlong h(void) { return g() + f() + g() + f(); }",
        "h l(): 00049a63 00400513 00200593 40200893 00000073 fff48493 ff010113 00113423 5=g 000280e7 00a13023 5=f 000280e7 00013283 00a28533 00a13023 5=g 000280e7 00013283 00a28533 00a13023 5=f 000280e7 00013283 00a28533 0080006f 00000513 00813083 01010113 00148493 00008067 | g f",
        "",
        "f l(); g l(); h l()",
    ),
    // a function that is declared and not named is no name
    (
        "extern long f(void); extern long g(void);\nlong h(void) { return g(); }",
        "h l(): 00049a63 00400513 00200593 40200893 00000073 fff48493 ff010113 00113023 5=g 000280e7 0080006f 00000513 00013083 01010113 00148493 00008067 | g",
        "",
        "g l(); h l()",
    ),
    // a function that is named and not called is a dependency; a variable is none
    (
        "extern long f(void); extern fn0 p;\nvoid h(void) { p = f; }",
        "h v(): 00049a63 00400513 00200593 40200893 00000073 fff48493 ff010113 00113023 10=f 5=p 00a2b023 00000513 00013083 01010113 00148493 00008067 | f",
        "",
        "f l(); p 0; h v()",
    ),
    // a call names its function before its arguments
    (
        "extern long f(long a); extern long g(void);\nlong h(void) { return f(g()); }",
        "h l(): 00049a63 00400513 00200593 40200893 00000073 fff48493 ff010113 00113423 5=g 000280e7 00a13023 00013503 5=f 000280e7 0080006f 00000513 00813083 01010113 00148493 00008067 | f g",
        "",
        "f l(l); g l(); h l()",
    ),
    // a callee that is chosen is named before the arguments, and compiled after them
    (
        "extern long f(long a); extern long g(long a); extern long k(void);\nlong h(long a) { return (a ? f : g)(k()); }",
        "h l(l): 00049a63 00400513 00200593 40200893 00000073 fff48493 fe010113 00113823 00a13023 5=k 000280e7 00a13423 00013503 00051463 0100006f 10=f 00c0006f 10=g 00050293 00029a63 00300513 00200593 40200893 00000073 00813503 000280e7 0080006f 00000513 01013083 02010113 00148493 00008067 | f g k",
        "",
        "f l(l); g l(l); k l(); h l(l)",
    ),
    // the last part of a `for` is named before its body, and compiled after it
    (
        "extern long f(void); extern long g(void); extern long k(void); extern long m(void);\nvoid h(void) { for (f(); g(); k()) m(); }",
        "h v(): 00049a63 00400513 00200593 40200893 00000073 fff48493 ff010113 00113023 5=f 000280e7 5=g 000280e7 00051463 0200006f 5=m 000280e7 5=k 000280e7 fd5ff06f 00000513 00013083 01010113 00148493 00008067 | f g k m",
        "",
        "f l(); g l(); k l(); m l(); h v()",
    ),
    // the body of a `do` is named before its condition
    (
        "extern long f(void); extern long g(void);\nvoid h(void) { do f(); while (g()); }",
        "h v(): 00049a63 00400513 00200593 40200893 00000073 fff48493 ff010113 00113023 5=f 000280e7 5=g 000280e7 00050463 fe5ff06f 00000513 00013083 01010113 00148493 00008067 | f g",
        "",
        "f l(); g l(); h v()",
    ),
    // a function's number is its place among the definitions
    (
        "static long b(void);\nstatic long a(void) { return b(); }\nstatic long b(void) { return a(); }",
        "static a l(): 00049a63 00400513 00200593 40200893 00000073 fff48493 ff010113 00113023 5=f1 000280e7 0080006f 00000513 00013083 01010113 00148493 00008067 | f1; static b l(): 00049a63 00400513 00300593 40200893 00000073 fff48493 ff010113 00113023 5=f0 000280e7 0080006f 00000513 00013083 01010113 00148493 00008067 | f0",
        "",
        "",
    ),
    // variables with an initialiser come first, and static ones are numbered anew
    (
        "long a; long b = 1; static long c; static long d = 2;\nlong h(void) { return a + b + c + d; }",
        "h l(): 00049a63 00400513 00200593 40200893 00000073 fff48493 ff010113 00113423 5=a 0002b503 00a13023 5=b 0002b503 00013283 00a28533 00a13023 5=v3 0002b503 00013283 00a28533 00a13023 5=v1 0002b503 00013283 00a28533 0080006f 00000513 00813083 01010113 00148493 00008067 |",
        "b l = 1; static d l = 2; a l; static c l",
        "a l; b l; h l()",
    ),
    // setting a variable uses the new number too
    (
        "static long a; static long b = 1; static long t[2];\nvoid h(void) { a = 1; b = 2; t[0] = t[1]; }",
        "h v(): 00049a63 00400513 00200593 40200893 00000073 fff48493 ff010113 00113423 00100513 5=v1 00a2b023 00200513 5=v0 00a2b023 00000513 00200313 00656a63 00100513 00200593 40200893 00000073 00a13023 00100513 00200313 00656a63 00100513 00200593 40200893 00000073 00351513 5=v2 00a282b3 0002b503 00013303 00331313 5=v2 006282b3 00a2b023 00000513 00813083 01010113 00148493 00008067 |",
        "static b l = 1; static a l; static t l[2]",
        "h v()",
    ),
    // an initialiser is filled with zeros
    (
        "long t[4] = {1, 2}; unsigned long u = -1; static long v[2] = {0};",
        "",
        "t l[4] = 1 2 0 0; u u = 18446744073709551615; static v l[2] = 0 0",
        "t l[4]; u u",
    ),
    // a pointer is initialised by a function, which is not a dependency of `main`
    (
        "static long cb(void) { return 5; }\nfn0 hook = cb;\nlong main(void) { return 0; }",
        "static cb l(): 00049a63 00400513 00100593 40200893 00000073 fff48493 ff010113 00113023 00500513 0080006f 00000513 00013083 01010113 00148493 00008067 |; main l(): 00049a63 00400513 00300593 40200893 00000073 fff48493 ff010113 00113023 00000513 0080006f 00000513 00013083 01010113 00148493 00008067 |",
        "hook 0 = f0",
        "hook 0; main l()",
    ),
    // a table of functions, of this unit and of another
    (
        "extern long f(long a); static long g(long a) { return a; }\nstatic fn1 t[3] = {g, f};\nlong h(long i) { return t[i](i); }",
        "static g l(l): 00049a63 00400513 00100593 40200893 00000073 fff48493 ff010113 00113423 00a13023 00013503 0080006f 00000513 00813083 01010113 00148493 00008067 |; h l(l): 00049a63 00400513 00300593 40200893 00000073 fff48493 fe010113 00113823 00a13023 00013503 00a13423 00013503 00300313 00656a63 00100513 00300593 40200893 00000073 00351513 5=v0 00a282b3 0002b503 00050293 00029a63 00300513 00300593 40200893 00000073 00813503 000280e7 0080006f 00000513 01013083 02010113 00148493 00008067 |",
        "static t 1[3] = f0 f 0",
        "f l(l); h l(l)",
    ),
    // names stand in order of first declaration, with the texts of their types
    (
        "extern unsigned long u; void z(void); extern long t[10]; fn2 q; extern long f(fn2 a, unsigned long b);\nvoid z(void) { f(q, u + t[0]); }",
        "z v(): 00049a63 00400513 00200593 40200893 00000073 fff48493 fe010113 00113823 5=q 0002b503 00a13023 5=u 0002b503 00a13423 00000513 00a00313 00656a63 00100513 00200593 40200893 00000073 00351513 5=t 00a282b3 0002b503 00813283 00a28533 00a13423 00013503 00813583 5=f 000280e7 00000513 01013083 02010113 00148493 00008067 | f",
        "q 2",
        "u u; z v(); t l[10]; q 2; f l(2u)",
    ),
    // a parameter hides a static variable of its name
    (
        "static long a = 1;\nlong h(long a) { return a; }\nlong k(void) { return a; }",
        "h l(l): 00049a63 00400513 00200593 40200893 00000073 fff48493 ff010113 00113423 00a13023 00013503 0080006f 00000513 00813083 01010113 00148493 00008067 |; k l(): 00049a63 00400513 00300593 40200893 00000073 fff48493 ff010113 00113023 5=v0 0002b503 0080006f 00000513 00013083 01010113 00148493 00008067 |",
        "static a l = 1",
        "h l(l); k l()",
    ),
    // a local hides a static function of its name
    (
        "static long f(void) { return 1; }\nlong h(void) { long f = 2; return f; }",
        "static f l(): 00049a63 00400513 00100593 40200893 00000073 fff48493 ff010113 00113023 00100513 0080006f 00000513 00013083 01010113 00148493 00008067 |; h l(): 00049a63 00400513 00200593 40200893 00000073 fff48493 ff010113 00113423 00200513 00a13023 00013503 0080006f 00000513 00813083 01010113 00148493 00008067 |",
        "",
        "h l()",
    ),
];

#[test]
fn each_object_has_its_parts(rt: HostRuntime) -> Result<(), Fail> {
    let alloc = rt.alloc();
    for (text, functions, variables, names) in &OBJECTS {
        let object = object_of(&rt, alloc, text)?;
        assert_eq!(&rt;
            functions_of(alloc, &object)?.as_str(),
            *functions,
            "of {text:?}"
        );
        assert_eq!(&rt;
            variables_of(alloc, &object)?.as_str(),
            *variables,
            "of {text:?}"
        );
        assert_eq!(&rt; names_of(alloc, &object)?.as_str(), *names, "of {text:?}");
    }
    Ok(())
}
