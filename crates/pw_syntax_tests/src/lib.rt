//! Worked texts: the trees of expressions and statements, the places of declarations, and the first fault of each list.
#![tactic(auto)]

#[cfg(test)]
mod assigned;
#[cfg(test)]
mod declarations;
#[cfg(test)]
mod deep_expressions;
#[cfg(test)]
mod expressions;
#[cfg(test)]
mod parsed;
#[cfg(test)]
mod statements;
#[cfg(test)]
mod tree_text;
