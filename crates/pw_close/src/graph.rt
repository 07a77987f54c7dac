//! Graphs of functions, and the levels of what is kept of them.
ghost use Rattle.std.specs.Prelude.{◌<◌, ◌↔◌, IsTrue};
ghost use Rattle.std.specs.List.{All};
ghost use Rattle.pw_close.specs.Graphs.{IsGraph, AreRowsBelow};

/// The functions of a program by number, from 0: which others each one names, and which are roots.
#[derive(Debug, Drop)]
pub struct Graph {
    /// How many functions there are.
    pub funs: u32,
    /// For each function, the numbers of those that it depends on.
    pub edges: Vec<Vec<u32>>,
    /// The numbers of the roots: functions that are kept because the program begins there or data points there.
    pub roots: Vec<u32>,
}

impl Graph {
    /// Whether each function has its list of edges, and all numbers are those of functions.
    pub fn is_whole(&self) -> bool
        ensures { IsTrue result ↔ IsGraph self.now }
    {
        self.edges.len() == self.funs as usize
            && are_rows_below(&self.edges, self.funs)
            && are_below(&self.roots, self.funs)
    }
}

/// Whether all numbers are below a bound.
fn are_below(numbers: &[u32], bound: u32) -> bool
    ensures { IsTrue result ↔ All (λ n. n < bound) numbers.now }
{
    numbers.iter().all(|n| *n < bound)
}

/// Whether all numbers of all rows are below a bound.
fn are_rows_below(rows: &[Vec<u32>], bound: u32) -> bool
    ensures { IsTrue result ↔ AreRowsBelow bound rows.now }
{
    rows.iter().all(|row| are_below(row, bound))
}

/// For each function by number, whether it is kept, and why.
#[derive(Debug, Drop)]
pub struct Levels {
    /// The length of a shortest way from a root to the function; `None` where the function is not kept.
    pub level: Vec<Option<u32>>,
    /// The first function of the level before that leads to it; `None` for roots and for functions that are not kept.
    pub parent: Vec<Option<u32>>,
}
