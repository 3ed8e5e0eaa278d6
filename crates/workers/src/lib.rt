//! Workers that run the network of endpoint programs together. Each makes the local events of its own
//! processes by itself, and all others in its turn.
#![tactic(auto)]

mod bells;
mod beside;
mod desks;
mod fed;
mod next;
mod origin;
mod printing;
mod programs;
mod run;
mod running;
mod seats;
mod side_by_side;
mod streamed;
mod team;
mod turns;
mod worker;

pub use beside::run_workers_to;
pub use origin::Origin;
pub use run::Task;
pub use running::{Report, run_workers};
pub use streamed::Streamed;
