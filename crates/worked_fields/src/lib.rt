// Worked cases of the libraries of the field, of queues and of tilings.
#![tactic(auto)]

#[cfg(test)]
mod boards;
#[cfg(test)]
mod counts;
#[cfg(test)]
mod dead_questions;
#[cfg(test)]
mod listed_tilings;
#[cfg(test)]
mod moves_and_keys;
#[cfg(test)]
mod numbers_of_placements;
#[cfg(test)]
mod orders_of_pieces;
#[cfg(test)]
mod patterns;
#[cfg(test)]
mod pieces;
#[cfg(test)]
mod places;
#[cfg(test)]
mod queues;
#[cfg(test)]
mod tables;
#[cfg(test)]
mod texts_of_placements;
#[cfg(test)]
mod tilings;
#[cfg(test)]
mod wells;
