//! What a step of a protocol allows one role to send to another.

use chor_base::NameId;

/// The type of an endpoint: its protocol, its state and its role.
#[derive(Clone, Copy)]
pub struct EndpointType {
    pub protocol: NameId,
    pub state: NameId,
    pub role: NameId,
}
