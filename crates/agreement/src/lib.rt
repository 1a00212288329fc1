// Laws that join the answers of several crates. This crate has no other functions.
#![tactic(auto)]

pub mod laws;
