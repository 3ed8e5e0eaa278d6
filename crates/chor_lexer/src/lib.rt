//! Cuts the bytes of a file into tokens, and reads and writes expressions.
#![tactic(auto)]

mod canonical;
mod expression;
mod keyword;
mod laws;
mod level;
mod lex;
mod mark;
mod number;
mod place;
mod scan;
mod text;
mod token;

pub use canonical::print_expr;
pub use expression::read_expr;
pub use keyword::is_keyword;
pub use laws::{
    derived_is_longest, derived_is_source, never_both, one_expression, one_or_the_other,
    one_reading, one_refusal, symbols_read_back, text_reads_back,
};
pub use lex::tokens;
pub use mark::Mark;
pub use token::{Kind, Token, Tokens};
