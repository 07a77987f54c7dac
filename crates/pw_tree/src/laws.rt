//! Two laws of the meaning, each the contract of a function: what a greater bound on the steps can change.
ghost use Rattle.pw_tree.specs.Laws.{OutputGrows, EndStays};

/// The output for a smaller bound is a prefix of the output for a greater one.
pub fn output_grows_with_the_bound()
    ensures { OutputGrows }
{}

/// A run that ends otherwise than spent is the same for every greater bound.
pub fn an_end_stays_for_every_greater_bound()
    ensures { EndStays }
{}
