//! Tests of the crates of registered pages, by public calls alone.
#![tactic(auto)]

#[cfg(test)]
mod accesses;
#[cfg(test)]
mod calls;
#[cfg(test)]
mod records;
#[cfg(test)]
mod regions;
#[cfg(test)]
mod rings;
#[cfg(test)]
mod slots;
#[cfg(test)]
mod workers;

/// What is said where memory is wanting.
#[cfg(test)]
const MEMORY: &str = "memory for a test";
