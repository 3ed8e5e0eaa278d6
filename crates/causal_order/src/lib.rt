//! What each event of a run waits for, and what happens before what.
#![tactic(auto)]

mod adding;
mod causes;
mod index;
mod marking;
mod ordering;
mod orders;
mod scan;

pub use ordering::order;
pub use orders::Order;
