//! What a file declares, by name.

ghost use Rattle.std.specs.Prelude.{◌≡◌, IfOk, option_copied};
ghost use Rattle.chor_tree.specs.Names.{unknown, protocols_of, channels_of, procedures_of, protocol_of, channel_of, procedure_of, named_as_channel};
ghost use Rattle.chor_base.specs.Faults.{first_of_all};

use crate::index::Index;
use chor_base::{Fault, Memory, NameId, Rule, fault_if};
use chor_tree::{File, Named, Proc, Protocol, Service};
use std::alloc::Global;

// A file with its declarations by name.
pub struct Declared<'a> {
    pub file: &'a File,
    protocols: Index<'a, Protocol>,
    channels: Index<'a, Service>,
    procedures: Index<'a, Proc>,
    ghost protocols_are: { protocols.items.now ≡ file.now.protocols },
    ghost channels_are: { channels.items.now ≡ file.now.services },
    ghost procedures_are: { procedures.items.now ≡ file.now.procs },
}

impl Drop for Declared<'_> {
    fn drop(self) {
        let Declared {
            file: _,
            protocols: _,
            channels: _,
            procedures: _,
        } = self;
    }
}

impl<'a> Declared<'a> {
    pub fn new(alloc: Global, file: &'a File) -> Result<Self, Memory>
        ensures { IfOk result (λ declared. declared.file.now ≡ file.now) }
    {
        let protocols = Index::new(alloc, file.protocols.as_slice())?;
        let channels = Index::new(alloc, file.services.as_slice())?;
        let procedures = Index::new(alloc, file.procs.as_slice())?;
        Ok(Declared {
            file,
            protocols,
            channels,
            procedures,
        })
    }

    // A session name that is also a channel's name.
    pub fn named_as_channel(&self, session: &Named) -> Option<Fault>
        ensures { result ≡ first_of_all (named_as_channel self.now.file.now session.now) }
    {
        fault_if(self.channels.has(session.name), Rule::N2, session.place)
    }

    // The first protocol of a name.
    pub fn protocol(&self, name: NameId) -> Option<&'a Protocol>
        ensures { option_copied result ≡ protocol_of self.now.file.now name }
    {
        self.protocols.find(name)
    }

    pub fn unknown_protocol(&self, name: &Named) -> Option<Fault>
        ensures { result ≡ first_of_all (unknown (protocols_of self.now.file.now) name.now) }
    {
        self.protocols.unknown(name)
    }

    // The first channel of a name.
    pub fn channel(&self, name: NameId) -> Option<&'a Service>
        ensures { option_copied result ≡ channel_of self.now.file.now name }
    {
        self.channels.find(name)
    }

    pub fn unknown_channel(&self, name: &Named) -> Option<Fault>
        ensures { result ≡ first_of_all (unknown (channels_of self.now.file.now) name.now) }
    {
        self.channels.unknown(name)
    }

    // The first procedure of a name.
    pub fn procedure(&self, name: NameId) -> Option<&'a Proc>
        ensures { option_copied result ≡ procedure_of self.now.file.now name }
    {
        self.procedures.find(name)
    }

    pub fn unknown_procedure(&self, name: &Named) -> Option<Fault>
        ensures { result ≡ first_of_all (unknown (procedures_of self.now.file.now) name.now) }
    {
        self.procedures.unknown(name)
    }
}
