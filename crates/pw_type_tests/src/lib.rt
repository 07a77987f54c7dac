//! Worked texts: the first fault of each, or what its typed unit has.
#![tactic(auto)]

#[cfg(test)]
mod answer;
#[cfg(test)]
mod declarations;
#[cfg(test)]
mod expressions;
#[cfg(test)]
mod first;
#[cfg(test)]
mod limits;
#[cfg(test)]
mod names;
#[cfg(test)]
mod references;
#[cfg(test)]
mod statements;
#[cfg(test)]
mod units;
