//! Copies over memory in which something fails at each place, and a checker of what their logs tell, by public calls alone.
//!
//! A test ends at once where memory is wanting: with a `?` beside values that are let go its proof would be dear.
#![tactic(auto)]

#[cfg(test)]
mod checker;
#[cfg(test)]
mod faults;
#[cfg(test)]
mod outside;

/// What is said where memory is wanting.
#[cfg(test)]
const MEMORY: &str = "memory for a test";
