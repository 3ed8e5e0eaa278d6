//! Source files as they are read: protocols, services, procedures and the nodes of choreographies.
#![tactic(auto)]

mod comparison;
mod file;
mod header;
mod laws;
mod protocol;
mod tree;
mod walks;

pub use comparison::same;
pub use file::{File, Named, Proc, ProcParam, Service, SessionParam};
pub use header::Header;
pub use laws::same_is_an_equivalence;
pub use protocol::{Payload, ProtoArm, ProtoStep, Protocol, State};
pub use tree::{Form, Node, NodeId, Part, Tree};
pub use walks::{Following, what_follows};
