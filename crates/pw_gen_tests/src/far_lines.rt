//! Functions at lines that few texts reach, or none.

use crate::quiet::quiet_unit;
use crate::shown::functions_of;
use pw_base::Name;
use pw_gen::object;
use std::test::Fail;

/// Lines, and the function that a unit has there.
const LINES: [(u32, &str); 4] = [
    // the last one that is an immediate
    (
        2047,
        "static h v(): 00049a63 00400513 7ff00593 40200893 00000073 fff48493 ff010113 00113023 00000513 00013083 01010113 00148493 00008067 |",
    ),
    // two words, the second negative
    (
        2048,
        "static h v(): 00049c63 00400513 000015b7 8005859b 40200893 00000073 fff48493 ff010113 00113023 00000513 00013083 01010113 00148493 00008067 |",
    ),
    // the rest is loaded first
    (
        2147483648,
        "static h v(): 02049063 00400513 000805b7 0005859b 00c59593 00058593 40200893 00000073 fff48493 ff010113 00113023 00000513 00013083 01010113 00148493 00008067 |",
    ),
    // the last line: 32 ones are no negative number
    (
        4294967295,
        "static h v(): 02049063 00400513 001005b7 0005859b 00c59593 fff58593 40200893 00000073 fff48493 ff010113 00113023 00000513 00013083 01010113 00148493 00008067 |",
    ),
];

#[test]
fn the_fault_of_the_depth_loads_the_line_however_long_that_is(rt: HostRuntime) -> Result<(), Fail> {
    let alloc = rt.alloc();
    let name = Name::read(alloc, b"h")?;
    for (line, functions) in LINES {
        let unit = quiet_unit(alloc, &name, line)?;
        let object = object(alloc, &unit, &name)?;
        assert_eq!(&rt;
            functions_of(alloc, &object)?.as_str(),
            functions,
            "at line {line}"
        );
    }
    Ok(())
}
