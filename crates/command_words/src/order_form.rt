//! What `order` is asked for.

/// What `order` writes of a transcript, whose events are numbered from 1.
#[derive(Clone, Copy, PartialEq, Eq)]
pub enum OrderForm {
    /// The causes of each event.
    Whole,
    /// How two events stand to each other.
    Pair(u64, u64),
    /// The shortest run that leads to an event.
    Lead(u64),
}
