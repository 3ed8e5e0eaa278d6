//! Tests of what lies below the commands and speaks of text, by public calls alone: values and events, and
//! sources that say the same. They say what no clause says: that the calls succeed where there is memory, and
//! what comes of sources, worked out by hand. What a command shows is among the cases of `command_tests`.
#![tactic(auto)]

#[cfg(test)]
mod sameness;
#[cfg(test)]
mod values;
