//! Reads a text from standard input and says how many tokens it has, or its fault: what the benchmark of the lexer times.
#![tactic(auto)]

use pw_base::Limits;
use pw_lex::tokens;
use std::io::{self, Read};

/// The bytes of standard input, at most those of a source file.
fn text<R: Input + AllocGlobal>(rt: &R) -> io::Result<Vec<u8>> {
    let mut bytes = Vec::new(rt.alloc());
    rt.reader().read_to_end(&mut bytes)?;
    Ok(bytes)
}

fn main(rt: HostRuntime) -> io::Result<()> {
    let bytes = text(&rt)?;
    if bytes.len() as u64 > Limits::SOURCE_BYTES {
        println!(rt; "too long")?;
        return Ok(());
    }
    match tokens(rt.alloc(), bytes.as_slice()) {
        Ok(tokens) => {
            let count = tokens.len();
            println!(rt; "{count} tokens")
        }
        Err(fault) => println!(rt; "{fault}"),
    }
}
