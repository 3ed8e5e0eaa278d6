//! The words of the command line.
#![tactic(auto)]

mod command_name;
mod numbers;
mod option_name;
mod options;
mod order_form;
mod settings;
mod word;
mod words;

pub use options::Options;
pub use order_form::OrderForm;
pub use words::{Command, Words, form_of, read_words};
