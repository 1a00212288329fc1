// A store of questions that are known to have no tiling. When it is full, it evicts the least recently used one.
#![tactic(auto)]

mod key;
mod memo;

pub use memo::DeadMemo;
