//! Tests of `smbd_cli`: words, copies and runs of scripts, by public calls alone.
#![tactic(auto)]

#[cfg(test)]
mod copies;
