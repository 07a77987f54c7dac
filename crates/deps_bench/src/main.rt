//! Reads a dependency table from standard input and writes it again: what the benchmark of the table times.
#![tactic(auto)]

use pw_deps::{allowed_tables_can_be_written, read, write};
use pw_wire::u64_at;
use std::io::{self, Read};

/// The bytes of standard input: the bytes of the text as a field of eight bytes, then the table.
fn input<R: Input + AllocGlobal>(rt: &R) -> io::Result<Vec<u8>> {
    let mut bytes = Vec::new(rt.alloc());
    rt.reader().read_to_end(&mut bytes)?;
    Ok(bytes)
}

fn main(rt: HostRuntime) -> io::Result<()> {
    let bytes = input(&rt)?;
    let text = match u64_at(bytes.as_slice(), 0) {
        Some(text) => text,
        None => return println!(rt; "no length of the text"),
    };
    let given = &bytes[8..];
    allowed_tables_can_be_written();
    match read(rt.alloc(), given, u32::MAX, text) {
        Ok(table) => {
            let functions = table.funs.len();
            match write(rt.alloc(), &table) {
                Ok(written) if written.as_slice() == given => println!(rt; "{functions} functions"),
                Ok(_) => println!(rt; "the bytes differ"),
                Err(_) => println!(rt; "out of memory"),
            }
        }
        Err(fault) => println!(rt; "{fault}"),
    }
}
