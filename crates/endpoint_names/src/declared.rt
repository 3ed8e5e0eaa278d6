//! What a file declares, by its names.

ghost use Rattle.std.specs.Prelude.{◌≡◌, IfOk, option_copied, is_some};
ghost use Rattle.chor_base.specs.Faults.{first_of_all};
ghost use Rattle.endpoint_code.specs.Faults.{is_among};
ghost use Rattle.endpoint_names.specs.Faults.{channel_of, procedure_of, names_in};
ghost use Rattle.endpoint_names.specs.Faults.{unknown_channel, unlisted, inactive, unserved, unprovided, wrong_call, unknown_function};
ghost use Rattle.endpoint_names.specs.Functions.{setting_of};

use crate::functions::Functions;
use crate::index::Index;
use crate::key::Key;
use chor_base::{Fault, List, Memory, NameId, Rule, fault_if};
use endpoint_reader::{Channel, Named, Procedure, Service, Signature, Written};
use std::alloc::Global;

// A file with its declarations by name.
pub struct Declared<'a> {
    pub alloc: Global,
    pub written: &'a Written,
    pub functions: Functions,
    channels: Index<'a, Channel>,
    procedures: Index<'a, Procedure>,
    services: Index<'a, Service>,
    ghost channels_are: { channels.items.now ≡ written.now.channels },
    ghost procedures_are: { procedures.items.now ≡ written.now.procedures },
    ghost services_are: { services.items.now ≡ written.now.services },
}

impl Drop for Declared<'_> {
    fn drop(self) {
        let Declared {
            alloc: _,
            written: _,
            functions: _,
            channels: _,
            procedures: _,
            services: _,
        } = self;
    }
}

impl<'a> Declared<'a> {
    pub fn new(alloc: Global, written: &'a Written, functions: Functions) -> Result<Self, Memory>
        ensures written { IfOk result (λ declared. declared.written.now ≡ written.now) }
        ensures functions { IfOk result (λ declared. declared.functions ≡ functions) }
    {
        let channels = Index::new(alloc, written.channels.as_slice())?;
        let procedures = Index::new(alloc, written.procedures.as_slice())?;
        let services = Index::new(alloc, written.services.as_slice())?;
        Ok(Declared {
            alloc,
            written,
            functions,
            channels,
            procedures,
            services,
        })
    }

    // The first channel of a name.
    fn channel(&self, name: NameId) -> Option<&'a Channel>
        ensures { option_copied result ≡ channel_of self.now.written.now name }
    {
        self.channels.find(Key::alone(name))
    }

    // The first procedure of a name and a parameter.
    fn procedure(&self, name: NameId, param: NameId) -> Option<&'a Procedure>
        ensures { option_copied result ≡ procedure_of self.now.written.now name param }
    {
        self.procedures.find(Key::both(name, param))
    }

    // A channel that isn't declared.
    pub fn unknown_channel(&self, channel: &Named) -> Option<Fault>
        ensures { result ≡ first_of_all (unknown_channel self.now.written.now channel.now) }
    {
        fault_if(
            self.channel(channel.name).is_none(),
            Rule::E2,
            channel.place,
        )
    }

    // A role that isn't active in a channel.
    pub fn inactive(&self, channel: NameId, role: &Named) -> Option<Fault>
        ensures { result ≡ first_of_all (inactive (channel_of self.now.written.now channel) role.now) }
    {
        match self.channel(channel) {
            Some(channel) => unlisted(&channel.roles.active, role),
            None => None,
        }
    }

    // A role that isn't one of a channel's service roles.
    pub fn unserved(&self, channel: NameId, role: &Named) -> Option<Fault>
        ensures { result ≡ first_of_all (unserved (channel_of self.now.written.now channel) role.now) }
    {
        match self.channel(channel) {
            Some(channel) => unlisted(&channel.roles.serve, role),
            None => None,
        }
    }

    // A service role without a service.
    pub fn unprovided(&self, channel: NameId, role: &Named) -> Option<Fault>
        ensures { result ≡ first_of_all (unprovided self.now.written.now channel role.now) }
    {
        let key = Key::both(channel, role.name);
        fault_if(!self.services.has(key), Rule::E2, role.place)
    }

    // A host function that isn't there.
    pub fn unknown_function(&self, function: &Named) -> Option<Fault>
        ensures { result ≡ first_of_all (unknown_function (setting_of self.now.written.now self.now.functions) function.now) }
    {
        fault_if(!self.functions.has(function.name), Rule::E2, function.place)
    }

    // A call of what isn't declared, or with another number of sessions.
    pub fn wrong_call(&self, call: &Signature) -> Option<Fault>
        ensures { result ≡ first_of_all (wrong_call (procedure_of self.now.written.now call.now.name.name call.now.param.name) call.now) }
    {
        let fits = match self.procedure(call.name.name, call.param.name) {
            Some(procedure) => call.sessions.len() == procedure.signature.sessions.len(),
            None => false,
        };
        fault_if(!fits, Rule::E2, call.name.place)
    }
}

// A role that isn't in a list.
fn unlisted(roles: &List<Named>, role: &Named) -> Option<Fault>
    ensures { result ≡ first_of_all (unlisted roles.now role.now) }
{
    fault_if(!has_name(roles, role.name), Rule::E2, role.place)
}

// Whether a list has a name.
fn has_name(names: &List<Named>, name: NameId) -> bool
    ensures { result ≡ is_among name (names_in names.now) }
{
    for named in names.as_slice() {
        if named.name == name {
            return true;
        }
    }
    false
}
