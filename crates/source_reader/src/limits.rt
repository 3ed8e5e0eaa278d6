//! How much of each thing a declaration may have.

/// The greatest capacity that a header may declare.
pub const CAPACITY: u64 = 1_000_000;
/// Roles of a protocol; of a service, over both its lists.
pub const ROLES: usize = 16;
/// States of a protocol.
pub const STATES: usize = 256;
/// Labels of one choice.
pub const LABELS: usize = 64;
/// Process parameters, and session parameters, of a procedure.
pub const PARAMETERS: usize = 8;
/// Variables of one process parameter.
pub const VARIABLES: usize = 16;
