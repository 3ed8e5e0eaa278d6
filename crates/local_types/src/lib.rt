//! Local types: what a role of a protocol does and sees, as a table of states.
#![tactic(auto)]

mod apart;
mod laws;
mod local_type;
mod print;
mod types;
mod view;

pub use laws::{one_state, one_text, only_numbers_are_free, states_are_sets, view_leads_to_states};
pub use local_type::{LocalState, LocalType};
pub use print::print_local;
pub use types::types_text;
pub use view::{check_views, local};
