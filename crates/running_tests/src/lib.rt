//! Tests of what runs and no command shows, by public calls alone: endpoint code, networks whose queues have a capacity,
//! workers and offices, and transcripts that are written while workers run. They say what no clause says: that the calls
//! succeed where there is memory, and that they answer what was worked out by hand, or what a plainer call answers.
#![tactic(auto)]

#[cfg(test)]
mod capacities;
#[cfg(test)]
mod codes;
#[cfg(test)]
mod crews;
#[cfg(test)]
mod gates;
#[cfg(test)]
mod offices;
#[cfg(test)]
mod own_events;
#[cfg(test)]
mod programs;
#[cfg(test)]
mod rings;
#[cfg(test)]
mod sinks;
#[cfg(test)]
mod streams;
#[cfg(test)]
mod transcripts;
