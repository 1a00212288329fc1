// Pages that are made from a number, by draws from it.
#![tactic(auto)]

mod draws;
mod pages;

pub use pages::{Sample, sample_of, sample_pages};
