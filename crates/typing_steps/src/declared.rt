//! What a file declares, by name: of several of one name the first counts.

ghost use Rattle.std.specs.Prelude.{◌≡◌, option_copied};
ghost use Rattle.chor_tree.specs.Names.{protocol_of, channel_of, procedure_of, first_named};

use chor_base::NameId;
use chor_tree::{File, Proc, Protocol, Service, State};

// The protocol of a name.
pub fn protocol_of(file: &File, name: NameId) -> Option<&Protocol>
    ensures { option_copied result ≡ protocol_of file.now name }
{
    for protocol in file.protocols.as_slice() {
        if protocol.name.name == name {
            return Some(protocol);
        }
    }
    None
}

// The channel of a name.
pub fn channel_of(file: &File, name: NameId) -> Option<&Service>
    ensures { option_copied result ≡ channel_of file.now name }
{
    for channel in file.services.as_slice() {
        if channel.name.name == name {
            return Some(channel);
        }
    }
    None
}

// The procedure of a name.
pub fn procedure_of(file: &File, name: NameId) -> Option<&Proc>
    ensures { option_copied result ≡ procedure_of file.now name }
{
    for procedure in file.procs.as_slice() {
        if procedure.name.name == name {
            return Some(procedure);
        }
    }
    None
}

// The state of a name.
pub fn state_of(states: &[State], name: NameId) -> Option<&State>
    ensures { option_copied result ≡ first_named (λ s. s.name) states.now name }
{
    for state in states {
        if state.name.name == name {
            return Some(state);
        }
    }
    None
}
