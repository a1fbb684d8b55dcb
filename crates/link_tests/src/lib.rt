//! Tests of links and of ends on them (`sim_adapter`, `link_ends`), by public calls alone.
#![tactic(auto)]

#[cfg(test)]
mod calls;
#[cfg(test)]
mod talker;
#[cfg(test)]
mod threads;
#[cfg(test)]
mod turns;
