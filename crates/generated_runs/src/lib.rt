//! What is printed of a generated file: its text, or how much happens in its run.
#![tactic(auto)]

mod counts;
mod summary;
mod text;

pub use summary::generated_summary;
pub use text::generated_text;
