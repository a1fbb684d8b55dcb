//! Tests of the crates of lines: the log, scripts and the lines of a run, by public calls alone.
#![tactic(auto)]

#[cfg(test)]
mod lines;
#[cfg(test)]
mod lists;
#[cfg(test)]
mod runs;
#[cfg(test)]
mod scripts;
