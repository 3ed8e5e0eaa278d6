//! Service roles of channels.

use chor_tree::Named;

/// A service role of a channel, both as declared.
#[derive(Clone, Copy, PartialEq, Eq)]
pub struct Served {
    pub channel: Named,
    pub role: Named,
}
