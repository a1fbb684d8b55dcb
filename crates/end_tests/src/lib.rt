//! Tests of `connection_core`: one end, step by step, by public calls alone.
#![tactic(auto)]

#[cfg(test)]
mod steps;
