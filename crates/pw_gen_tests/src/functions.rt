//! Whole functions: what stands before a body and after it.

use crate::shown::functions_of;
use crate::units::object_of;
use std::test::Fail;

/// Texts, and the functions of their objects.
const FUNCTIONS: [(&str, &str); 10] = [
    // the parameter is stored, the body follows at word 9, and the frame of three slots is 32 bytes
    (
        "long h(long n) { return n + 1; }",
        "h l(l): 00049a63 00400513 00100593 40200893 00000073 fff48493 fe010113 00113823 00a13023 00013503 00a13423 00100513 00813283 00a28533 0080006f 00000513 01013083 02010113 00148493 00008067 |",
    ),
    // no parameter, no body: the value is 0, and the frame of one slot is 16 bytes
    (
        "long h(void) { }",
        "h l(): 00049a63 00400513 00100593 40200893 00000073 fff48493 ff010113 00113023 00000513 00013083 01010113 00148493 00008067 |",
    ),
    // `return` alone leaves a0 as it is
    (
        "void h(void) { return; }",
        "h v(): 00049a63 00400513 00100593 40200893 00000073 fff48493 ff010113 00113023 0080006f 00000513 00013083 01010113 00148493 00008067 |",
    ),
    // six parameters, in order; seven slots are 64 bytes
    (
        "long h(long a, long b, long c, long d, long e, long f) { }",
        "h l(llllll): 00049a63 00400513 00100593 40200893 00000073 fff48493 fc010113 02113823 00a13023 00b13423 00c13823 00d13c23 02e13023 02f13423 00000513 03013083 04010113 00148493 00008067 |",
    ),
    // five slots are 48 bytes
    (
        "long h(long a, long b) { long c; long d; }",
        "h l(ll): 00049a63 00400513 00100593 40200893 00000073 fff48493 fd010113 02113023 00a13023 00b13423 00013823 00013c23 00000513 02013083 03010113 00148493 00008067 |",
    ),
    // the second parameter is a pointer, and two values are held
    (
        "long h(long a, fn1 f) { return a - (a - f(a)); }",
        "h l(l1): 00049a63 00400513 00100593 40200893 00000073 fff48493 fd010113 02113423 00a13023 00b13423 00013503 00a13823 00013503 00a13c23 00013503 02a13023 00813503 00050293 00029a63 00300513 00100593 40200893 00000073 02013503 000280e7 01813283 40a28533 01013283 40a28533 0080006f 00000513 02813083 03010113 00148493 00008067 |",
    ),
    // the fault of the depth has the line of the name
    (
        "\n\nlong\nh(void) { return 0; }",
        "h l(): 00049a63 00400513 00400593 40200893 00000073 fff48493 ff010113 00113023 00000513 0080006f 00000513 00013083 01010113 00148493 00008067 |",
    ),
    // a function calls itself, and depends on itself
    (
        "long h(long n) { return n ? n * h(n - 1) : 1; }",
        "h l(l): 00049a63 00400513 00100593 40200893 00000073 fff48493 fe010113 00113c23 00a13023 00013503 00051463 0400006f 00013503 00a13423 00013503 00a13823 00100513 01013283 40a28533 00a13823 01013503 5=h 000280e7 00813283 02a28533 0080006f 00100513 0080006f 00000513 01813083 02010113 00148493 00008067 | h",
    ),
    // a static function has the same code
    (
        "static long h(long n) { return n + 1; }",
        "static h l(l): 00049a63 00400513 00100593 40200893 00000073 fff48493 fe010113 00113823 00a13023 00013503 00a13423 00100513 00813283 00a28533 0080006f 00000513 01013083 02010113 00148493 00008067 |",
    ),
    // a division's fault has the line of its operator
    (
        "unsigned long h(unsigned long n) {\nreturn n\n/ n; }",
        "h u(u): 00049a63 00400513 00100593 40200893 00000073 fff48493 fe010113 00113823 00a13023 00013503 00a13423 00013503 00813283 00051a63 00200513 00300593 40200893 00000073 02a2d533 0080006f 00000513 01013083 02010113 00148493 00008067 |",
    ),
];

#[test]
fn each_function_opens_and_closes_its_frame(rt: HostRuntime) -> Result<(), Fail> {
    let alloc = rt.alloc();
    for (text, functions) in &FUNCTIONS {
        let object = object_of(&rt, alloc, text)?;
        assert_eq!(&rt;
            functions_of(alloc, &object)?.as_str(),
            *functions,
            "of {text:?}"
        );
    }
    Ok(())
}
