//! Processes with their codes.

use chor_base::NameId;
use endpoint_code::CodeId;

/// A process and where its code stands.
#[derive(Clone, Copy)]
pub struct Coded {
    pub process: NameId,
    pub code: CodeId,
}
