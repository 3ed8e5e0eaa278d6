//! The projection of whole files by as many threads as there are processors.
#![tactic(auto)]

mod all;
mod roots;
mod size;
mod units;

pub use all::{project_all, project_beside};
