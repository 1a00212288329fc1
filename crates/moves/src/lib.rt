// Single keys: the spawn, what a key does to a state, and where a state comes to rest. Laws say what keys reach above
// the stack.
#![tactic(auto)]

mod key;
pub mod laws;
mod rest;
mod turn;

pub use key::{DropMode, Key};
pub use rest::fall;
pub use turn::{spawn, step};
