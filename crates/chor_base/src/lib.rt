//! Names, values, expressions and events: what every other crate speaks of.
#![tactic(auto)]

mod event;
mod expr;
mod fault;
mod list;
mod meaning;
mod memory;
mod name_map;
mod names;
mod rule;
mod sorts;
mod table;
mod texts;
mod value;
mod writing;

pub use event::{Entry, Event, Why};
pub use expr::{BinOp, Expr, UnOp, eval};
pub use fault::{Fault, earlier, fault_if};
pub use list::{List, Word};
pub use meaning::{HostOp, Meaning};
pub use memory::Memory;
pub use name_map::{NameMap, Vars};
pub use names::{NameId, Names};
pub use rule::{Denied, Place, Refusal, Rule};
pub use sorts::{Env, sort_of};
pub use texts::Texts;
pub use value::{Load, Sort, Value};
pub use writing::{put_bytes, put_int, put_literal, put_name, put_number, put_truth};
