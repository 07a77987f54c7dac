//! Worked graphs: what is kept of each, against an independent model.
#![tactic(auto)]

#[cfg(test)]
mod closing;
#[cfg(test)]
mod graphs;
