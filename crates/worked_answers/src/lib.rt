// Worked cases of the search, of tails and of the answers about queues.
#![tactic(auto)]

#[cfg(test)]
mod calls;
#[cfg(test)]
mod cover_sets;
#[cfg(test)]
mod good_queues;
#[cfg(test)]
mod good_queues_as_bits;
#[cfg(test)]
mod key_words;
#[cfg(test)]
mod longest_runs;
#[cfg(test)]
mod questions;
#[cfg(test)]
mod searches;
#[cfg(test)]
mod small_fields;
#[cfg(test)]
mod solutions_as_numbers;
#[cfg(test)]
mod tail_sets;
