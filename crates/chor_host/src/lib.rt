//! Host functions: functions of the program that choreographies call by name.
#![tactic(auto)]

mod fault;
mod function;
mod operations;
mod program;
mod table;

pub use fault::AddFault;
pub use function::HostFn;
pub use operations::{host_dice, host_gap, host_max, host_min};
pub use program::program_hosts;
pub use table::HostTable;
