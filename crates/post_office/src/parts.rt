//! Parts of a start.

ghost use Rattle.std.specs.Prelude.{◌≡◌, ◌+◌, ◌<◌, ◌^◌, ◌++◌, length, OnOk};
ghost use Rattle.std.specs.Option.{option_copied};
ghost use Rattle.endpoint_code.specs.Network.{channel_of, served_parts};

use chor_base::{List, Memory, NameId};
use endpoint_code::Channel;

/// The channel of a name.
pub fn channel_named(channels: &[Channel], name: NameId) -> Option<&Channel>
    ensures { option_copied result ≡ channel_of channels.now name }
{
    for channel in channels {
        if channel.name == name {
            return Some(channel);
        }
    }
    None
}

// Adds the service roles with the numbers of their processes.
pub fn add_served(
    parts: &mut List<(NameId, u32)>,
    roles: &[NameId],
    first: u32,
) -> Result<(), Memory>
    requires { first + length roles.now < 2 ^ 32 }
    ensures { OnOk result (parts.new ≡ parts.old ++ served_parts roles.now first) }
{
    for (place, role) in roles.iter().enumerate() {
        parts.push((*role, first + place as u32))?;
    }
    Ok(())
}
