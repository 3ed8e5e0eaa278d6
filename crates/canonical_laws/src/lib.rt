//! What the canonical text of a file says when it is read again.
#![tactic(auto)]

mod laws;

pub use laws::{
    numbers_are_free, symbols_read_back, text_has_symbols, text_is_settled, text_reads_anew,
    text_reads_back,
};
