//! Tests of `smbd_base` and `smbd_outside`, by their public calls alone.
#![tactic(auto)]

#[cfg(test)]
mod outside;
#[cfg(test)]
mod values;

/// What is said where memory is wanting.
#[cfg(test)]
const MEMORY: &str = "memory for a test";
