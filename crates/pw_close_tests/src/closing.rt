//! A graph as a row of a table, and whether its levels, parents and paths are the row's.

use pw_close::{Graph, Levels, close, kept_functions_have_levels, path};
use std::alloc::{AllocError, Global};
use std::process::Abort;
use std::test::Fail;

/// A graph and what is to come of it.
pub(crate) struct Row {
    /// What the graph is there for.
    pub(crate) why: &'static str,
    /// For each function, those that it names.
    pub(crate) edges: &'static [&'static [u32]],
    /// The roots.
    pub(crate) roots: &'static [u32],
    /// The level and the parent of each function, where it is kept.
    pub(crate) kept: &'static [Option<(u32, Option<u32>)>],
    /// The path to each function; empty where it is not kept.
    pub(crate) paths: &'static [&'static [u32]],
}

/// The graph of a row.
fn graph(alloc: Global, row: &Row) -> Result<Graph, AllocError> {
    let mut edges = Vec::new(alloc);
    for targets in row.edges {
        edges.push(targets.to_vec(alloc)?)?;
    }
    Ok(Graph {
        funs: u32::try_from(row.edges.len()).unwrap_or(0),
        edges,
        roots: row.roots.to_vec(alloc)?,
    })
}

/// The level and the parent of a function.
fn kept(levels: &Levels, n: usize) -> Option<(u32, Option<u32>)> {
    let level = *levels.level.get(n)?;
    let parent = *levels.parent.get(n)?;
    Some((level?, parent))
}

/// Fails where a level, a parent or a path is another than the row's.
pub(crate) fn agree(rt: &impl Abort, alloc: Global, row: &Row) -> Result<(), Fail> {
    let why = row.why;
    assert!(rt; row.edges.len() < 100, "{why}");
    let graph = graph(alloc, row)?;
    assert!(rt; graph.is_whole(), "{why}");
    let levels = close(alloc, &graph)?;
    assert_eq!(rt; levels.level.len(), row.kept.len(), "{why}");
    for (n, want) in row.kept.iter().enumerate() {
        assert_eq!(rt; kept(&levels, n), *want, "{why}");
    }
    kept_functions_have_levels();
    for (n, want) in row.paths.iter().enumerate() {
        assert!(rt; n < levels.level.len() && n < 100, "{why}");
        match path(alloc, &levels, n as u32)? {
            Some(found) => assert!(rt; found.as_slice() == *want, "{why}"),
            None => assert!(rt; want.is_empty(), "{why}"),
        }
    }
    Ok(())
}
