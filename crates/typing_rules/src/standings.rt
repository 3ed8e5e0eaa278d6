//! Where sessions stand.

use chor_base::NameId;

/// A session, its protocol, and the state of that in which it is.
#[derive(Clone, Copy)]
pub struct Standing {
    pub session: NameId,
    pub protocol: NameId,
    pub state: NameId,
}
