//! Reads endpoint files: from tokens to their parts.
#![tactic(auto)]

mod body;
mod expression;
mod input;
mod laws;
mod lines;
mod lists;
mod node;
mod operand;
mod roles;
mod tail;
mod tokens;
mod written;

pub use body::read_body;
pub use expression::read_expression;
pub use input::{Input, Named};
pub use laws::{tokens_are_known, tokens_are_lexemes};
pub use lines::{Arm, Line, LineId, Lines};
pub use lists::{Signature, Two, read_role_of_channel, read_signature};
pub use node::Action;
pub use roles::{Roles, read_roles};
pub use written::{Channel, Procedure, Process, Service, Written};
