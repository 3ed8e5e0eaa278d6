//! The names of units.

ghost use Rattle.std.specs.Prelude.{◌≡◌, ◌<◌, ◌++◌, IfOk, length};
ghost use Rattle.std.specs.List.{flat_map};
ghost use Rattle.chor_base.specs.Faults.{first_of_all};
ghost use Rattle.endpoint_names.specs.Faults.{unprovided, channel_faults, procedure_faults, service_faults, process_faults};
ghost use Rattle.endpoint_names.specs.Faults.{faults_of_channels, faults_of_procedures, faults_of_services, faults_of_processes, name_faults};
ghost use Rattle.endpoint_names.specs.Functions.{setting_of};

use crate::bound::Bound;
use crate::declared::Declared;
use crate::places::twice_in;
use chor_base::{Fault, List, Memory, NameId, earlier};
use endpoint_reader::{Channel, Named, Procedure, Process, Roles, Service};
use std::alloc::Global;

impl<'a> Declared<'a> {
    // The first fault of all names.
    #[tactic(auto, using(chor_base::proofs::Faults::first_append))]
    pub fn first_in_file(&self) -> Result<Option<Fault>, Memory>
        ensures { IfOk result (λ o. o ≡ first_of_all (name_faults (setting_of self.now.written.now self.now.functions))) }
    {
        let channels = self.first_in_channels()?;
        let procedures = self.first_in_procedures()?;
        let services = self.first_in_services()?;
        let processes = self.first_in_processes()?;
        Ok(earlier(earlier(earlier(channels, procedures), services), processes))
    }

    #[tactic(auto, using(chor_base::proofs::Faults::first_append))]
    fn first_in_channels(&self) -> Result<Option<Fault>, Memory>
        ensures { IfOk result (λ o. o ≡ first_of_all (faults_of_channels self.now.written.now)) }
    {
        let channels = self.written.channels.as_slice();
        let mut first = twice_in(self.alloc, channels)?;
        for channel in channels {
            let found = self.first_in_channel(channel)?;
            first = earlier(first, found);
        }
        Ok(first)
    }

    #[tactic(auto, using(chor_base::proofs::Faults::first_append))]
    fn first_in_channel(&self, channel: &Channel) -> Result<Option<Fault>, Memory>
        ensures { IfOk result (λ o. o ≡ first_of_all (channel_faults self.now.written.now channel.now)) }
    {
        let roles = all_roles(self.alloc, &channel.roles)?;
        let twice = twice_in(self.alloc, roles.as_slice())?;
        let unprovided = self.unprovided_in(channel.name.name, &channel.roles.serve);
        Ok(earlier(twice, unprovided))
    }

    // The first service role of a list without a service.
    fn unprovided_in(&self, channel: NameId, roles: &List<Named>) -> Option<Fault>
        ensures { result ≡ first_of_all (flat_map (unprovided self.now.written.now channel) roles.now) }
    {
        let mut first = None;
        for role in roles.as_slice() {
            first = earlier(first, self.unprovided(channel, role));
        }
        first
    }

    #[tactic(auto, using(chor_base::proofs::Faults::first_append))]
    fn first_in_procedures(&self) -> Result<Option<Fault>, Memory>
        ensures { IfOk result (λ o. o ≡ first_of_all (faults_of_procedures (setting_of self.now.written.now self.now.functions))) }
    {
        let procedures = self.written.procedures.as_slice();
        let mut first = twice_in(self.alloc, procedures)?;
        for procedure in procedures {
            let found = self.first_in_procedure(procedure)?;
            first = earlier(first, found);
        }
        Ok(first)
    }

    #[tactic(auto, using(chor_base::proofs::Faults::first_append))]
    fn first_in_procedure(&self, procedure: &Procedure) -> Result<Option<Fault>, Memory>
        requires { procedure.now.body.0 < length self.now.written.now.lines.items }
        ensures { IfOk result (λ o. o ≡ first_of_all (procedure_faults (setting_of self.now.written.now self.now.functions) procedure.now)) }
    {
        let sessions = procedure.signature.sessions.as_slice();
        let twice = twice_in(self.alloc, sessions)?;
        let bound = Bound::of_sessions(self.alloc, sessions)?;
        let body = self.first_in_body(bound, procedure.body)?;
        Ok(earlier(twice, body))
    }

    #[tactic(auto, using(chor_base::proofs::Faults::first_append))]
    fn first_in_services(&self) -> Result<Option<Fault>, Memory>
        ensures { IfOk result (λ o. o ≡ first_of_all (faults_of_services (setting_of self.now.written.now self.now.functions))) }
    {
        let services = self.written.services.as_slice();
        let mut first = twice_in(self.alloc, services)?;
        for service in services {
            let found = self.first_in_service(service)?;
            first = earlier(first, found);
        }
        Ok(first)
    }

    #[tactic(auto, using(chor_base::proofs::Faults::first_append))]
    fn first_in_service(&self, service: &Service) -> Result<Option<Fault>, Memory>
        requires { service.now.body.0 < length self.now.written.now.lines.items }
        ensures { IfOk result (λ o. o ≡ first_of_all (service_faults (setting_of self.now.written.now self.now.functions) service.now)) }
    {
        let channel = service.channel;
        let head = earlier(
            self.unknown_channel(&channel),
            self.unserved(channel.name, &service.role),
        );
        let mut bound = Bound::new(self.alloc);
        bound.bind(channel.name)?;
        let body = self.first_in_body(bound, service.body)?;
        Ok(earlier(head, body))
    }

    #[tactic(auto, using(chor_base::proofs::Faults::first_append))]
    fn first_in_processes(&self) -> Result<Option<Fault>, Memory>
        ensures { IfOk result (λ o. o ≡ first_of_all (faults_of_processes (setting_of self.now.written.now self.now.functions))) }
    {
        let processes = self.written.processes.as_slice();
        let mut first = twice_in(self.alloc, processes)?;
        for process in processes {
            let found = self.first_in_process(process)?;
            first = earlier(first, found);
        }
        Ok(first)
    }

    fn first_in_process(&self, process: &Process) -> Result<Option<Fault>, Memory>
        requires { process.now.body.0 < length self.now.written.now.lines.items }
        ensures { IfOk result (λ o. o ≡ first_of_all (process_faults (setting_of self.now.written.now self.now.functions) process.now)) }
    {
        let bound = Bound::new(self.alloc);
        let first = self.first_in_body(bound, process.body)?;
        Ok(first)
    }
}

// The active roles of a channel, and then its service roles.
fn all_roles(alloc: Global, roles: &Roles) -> Result<List<Named>, Memory>
    ensures { IfOk result (λ all. all ≡ roles.now.active ++ roles.now.serve) }
{
    let mut all = roles.active.copy(alloc)?;
    for role in roles.serve.as_slice() {
        all.push(*role)?;
    }
    Ok(all)
}
