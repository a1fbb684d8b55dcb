//! Tests of the crates that read, write, cut and gather messages, and count their credits, by public calls alone.
#![tactic(auto)]

#[cfg(test)]
mod credits;
#[cfg(test)]
mod cutting;
#[cfg(test)]
mod descriptors;
#[cfg(test)]
mod gathering;
#[cfg(test)]
mod negotiation;
#[cfg(test)]
mod transfer;

/// What is said where memory is wanting.
#[cfg(test)]
const MEMORY: &str = "memory for a test";
