//! Typing: each choreography keeps to its protocols, to the holders of its roles and to the sorts of
//! its variables.
#![tactic(auto)]

mod allowed;
mod standings;
