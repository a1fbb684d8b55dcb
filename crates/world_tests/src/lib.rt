//! Tests of `world_core`: two ends in one world, by public calls alone.
#![tactic(auto)]

#[cfg(test)]
mod choices;
#[cfg(test)]
mod raw;
