//! Bits whose set ones are counted: how many there are is known, and each is found by its number
//! without going through all bits.
#![tactic(auto)]

mod bits;
mod counts;

pub use bits::CountedBits;
