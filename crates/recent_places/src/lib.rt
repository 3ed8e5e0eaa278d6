//! Where something was found lately.
#![tactic(auto)]

mod places;

pub use places::RecentPlaces;
