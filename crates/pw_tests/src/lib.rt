//! Worked rows that cross crates, with the values of the manual or of an independent model of the language, and copies of
//! whole units.
#![tactic(auto)]

#[cfg(test)]
mod cut_texts;
#[cfg(test)]
mod deep_copies;
#[cfg(test)]
mod division;
#[cfg(test)]
mod fronts;
#[cfg(test)]
mod units;
