//! Reads the text of events.
#![tactic(auto)]

mod bodies;
mod fault;
mod fields;
mod fronts;
mod kind;
mod laws;
mod literal;
mod named;
mod numbers;
mod parts;
mod reader;
mod values;
mod words;

pub use fault::LineFault;
pub use laws::one_spelling;
pub use numbers::number_of;
pub use reader::read_event;
pub use words::are_words;
