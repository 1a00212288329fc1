// Worked runs of the commands on a field, over sources and sinks in memory.
#![tactic(auto)]

#[cfg(test)]
mod combos;
#[cfg(test)]
mod covers;
#[cfg(test)]
mod failed_queues;
#[cfg(test)]
mod fields;
#[cfg(test)]
mod floods;
#[cfg(test)]
mod formats;
#[cfg(test)]
mod held;
#[cfg(test)]
mod left_alone;
#[cfg(test)]
mod limits;
#[cfg(test)]
mod percents;
#[cfg(test)]
mod ranges;
#[cfg(test)]
mod solutions;
#[cfg(test)]
mod stats;
#[cfg(test)]
mod whole;
