//! What a transcript is written with.

use chor_base::{List, NameId, Names, Texts};

/// The names and literal texts of a program, and the processes that exist from the beginning, by
/// their numbers.
#[derive(Clone, Copy)]
pub struct Book<'a> {
    pub names: &'a Names,
    pub texts: &'a Texts,
    pub processes: &'a List<NameId>,
}
