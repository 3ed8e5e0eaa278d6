//! Tests of the layer that judges files, by public calls alone. The commands end with the first class of rules that a
//! file violates, and ask for one bound of the sets of states that a role tells apart: these tests ask the classes that
//! stand on no other one by themselves, and for other bounds. They say what no clause says: that the calls succeed where
//! there is memory, and that they answer what was worked out by hand.
#![tactic(auto)]

#[cfg(test)]
mod bounds;
#[cfg(test)]
mod classes;
#[cfg(test)]
mod projections;
