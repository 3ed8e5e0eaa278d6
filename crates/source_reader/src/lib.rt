//! Reads the parts of sources: from tokens to headers, declarations and bodies.
#![tactic(auto)]

mod block;
mod expression;
mod header;
mod input;
mod limits;
mod lists;
mod procedure;
mod protocol;
mod statement;

pub use block::{Room, read_block};
pub use header::read_header;
pub use input::Input;
pub use lists::read_any_names;
pub use procedure::{Parameters, read_parameters};
pub use protocol::{read_protocol, read_service};
