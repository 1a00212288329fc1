// Worked runs of the commands on texts, and of runs whose reads or writes fail, over sources and sinks in memory.
#![tactic(auto)]

#[cfg(test)]
mod cut_texts;
#[cfg(test)]
mod encodes;
#[cfg(test)]
mod failing_calls;
#[cfg(test)]
mod faults;
#[cfg(test)]
mod kicks;
#[cfg(test)]
mod long_sources;
#[cfg(test)]
mod pages;
#[cfg(test)]
mod pieces_of_reads;
#[cfg(test)]
mod selfruns;
#[cfg(test)]
mod sources_and_sinks;
#[cfg(test)]
mod tables;
#[cfg(test)]
mod whole;
