//! Reads a graph from standard input and closes it: what the benchmark of the closure times.
//!
//! The input is numbers in fields of four bytes: how many roots there are, and these; then for each function how many others
//! it depends on, and these.
#![tactic(auto)]

use pw_base::NoMemory;
use pw_close::{Graph, close};
use pw_wire::u32_at;
use std::alloc::Global;
use std::io::{self, Read};

/// The bytes of standard input.
fn input<R: Input + AllocGlobal>(rt: &R) -> io::Result<Vec<u8>> {
    let mut bytes = Vec::new(rt.alloc());
    rt.reader().read_to_end(&mut bytes)?;
    Ok(bytes)
}

/// The numbers that the bytes are.
fn numbers(alloc: Global, bytes: &[u8]) -> Result<Vec<u32>, NoMemory> {
    let mut numbers = Vec::with_capacity(alloc, bytes.len() / 4)?;
    for k in 0..bytes.len() / 4 {
        if let Some(n) = u32_at(bytes, 4 * k as u64) {
            numbers.push(n).map_err(|_| NoMemory)?;
        }
    }
    Ok(numbers)
}

/// The numbers that follow their count, and what is left after them; `None` where there are fewer.
fn counted(numbers: &[u32]) -> Option<(&[u32], &[u32])> {
    let (count, rest) = numbers.split_first()?;
    if rest.len() < *count as usize {
        return None;
    }
    Some(rest.split_at(*count as usize))
}

/// The rows of functions that the numbers are, as far as each has all of its numbers.
fn rows(alloc: Global, numbers: &[u32]) -> Result<Vec<Vec<u32>>, NoMemory> {
    let mut rows = Vec::new(alloc);
    let mut left = numbers;
    for _ in 0..numbers.len() {
        match counted(left) {
            Some((row, rest)) => {
                rows.push(row.to_vec(alloc)?).map_err(|_| NoMemory)?;
                left = rest;
            }
            None => return Ok(rows),
        }
    }
    Ok(rows)
}

/// The graph that the numbers are; `None` where they are none.
fn graph(alloc: Global, numbers: &[u32]) -> Result<Option<Graph>, NoMemory> {
    match counted(numbers) {
        Some((roots, rest)) => {
            let edges = rows(alloc, rest)?;
            let funs = u32::try_from(edges.len()).unwrap_or(0);
            let roots = roots.to_vec(alloc)?;
            Ok(Some(Graph { funs, edges, roots }))
        }
        None => Ok(None),
    }
}

/// How many functions of the graph are kept; `None` where the bytes are no graph.
fn kept(alloc: Global, bytes: &[u8]) -> Result<Option<usize>, NoMemory> {
    let numbers = numbers(alloc, bytes)?;
    match graph(alloc, &numbers)? {
        Some(graph) => {
            if !graph.is_whole() {
                return Ok(None);
            }
            let levels = close(alloc, &graph)?;
            Ok(Some(levels.level.iter().filter(|level| level.is_some()).count()))
        }
        None => Ok(None),
    }
}

fn main(rt: HostRuntime) -> io::Result<()> {
    let bytes = input(&rt)?;
    match kept(rt.alloc(), &bytes) {
        Ok(Some(kept)) => println!(rt; "{kept} functions are kept"),
        Ok(None) => println!(rt; "no graph"),
        Err(_) => println!(rt; "out of memory"),
    }
}
