//! Tests of the crates of the file layer, by public calls alone.
#![tactic(auto)]

#[cfg(test)]
mod asking;
#[cfg(test)]
mod gets;
#[cfg(test)]
mod getting;
#[cfg(test)]
mod messages;
#[cfg(test)]
mod pages;
#[cfg(test)]
mod puts;
#[cfg(test)]
mod putting;
#[cfg(test)]
mod refusals;
#[cfg(test)]
mod serving;

/// What is said where memory is wanting.
#[cfg(test)]
const MEMORY: &str = "memory for a test";
