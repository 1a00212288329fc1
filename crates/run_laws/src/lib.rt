// Laws of what the top call promises, which join the laws of the crates below. The program doesn't need them.
#![tactic(auto)]

pub mod laws;
