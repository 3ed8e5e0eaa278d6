//! What host functions may answer.

/// An operation on two numbers.
#[derive(Clone, Copy)]
pub enum HostOp {
    /// The smaller number.
    Min,
    /// The greater number.
    Max,
    /// How far apart the two numbers are, at most 2^63 - 1.
    Gap,
}

/// What a host function may answer to two numbers.
#[derive(Clone, Copy)]
pub enum Meaning {
    /// The operation's value and nothing else.
    Exact(HostOp),
    /// Any number from the first to the second.
    Within(i64, i64),
}
