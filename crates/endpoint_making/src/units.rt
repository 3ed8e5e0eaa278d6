//! Units of endpoint programs.

ghost use Rattle.std.specs.Prelude.{◌≡◌, IfOk, map};
ghost use Rattle.endpoint_making.specs.Making.{channel_made, procedure_made, service_made, process_made};

use crate::nodes::{code_id, names_in};
use chor_base::{List, Memory};
use endpoint_code::{
    Channel as CodeChannel, Procedure as CodeProcedure, Process as CodeProcess, ServiceCode,
};
use endpoint_reader::{Channel, Procedure, Process, Service};
use std::alloc::Global;

pub fn channels_of(alloc: Global, channels: &[Channel]) -> Result<List<CodeChannel>, Memory>
    ensures { IfOk result (λ list. list ≡ map channel_made channels.now) }
{
    let mut list = List::new(alloc);
    for channel in channels {
        list.push(channel_of(alloc, channel)?)?;
    }
    Ok(list)
}

fn channel_of(alloc: Global, channel: &Channel) -> Result<CodeChannel, Memory>
    ensures { IfOk result (λ made. made ≡ channel_made channel.now) }
{
    Ok(CodeChannel {
        name: channel.name.name,
        active: names_in(alloc, channel.roles.active.as_slice())?,
        serve: names_in(alloc, channel.roles.serve.as_slice())?,
    })
}

pub fn procedures_of(alloc: Global, procedures: &[Procedure]) -> Result<List<CodeProcedure>, Memory>
    ensures { IfOk result (λ list. list ≡ map procedure_made procedures.now) }
{
    let mut list = List::new(alloc);
    for procedure in procedures {
        list.push(procedure_of(alloc, procedure)?)?;
    }
    Ok(list)
}

fn procedure_of(alloc: Global, procedure: &Procedure) -> Result<CodeProcedure, Memory>
    ensures { IfOk result (λ made. made ≡ procedure_made procedure.now) }
{
    let signature = &procedure.signature;
    Ok(CodeProcedure {
        name: signature.name.name,
        param: signature.param.name,
        sessions: names_in(alloc, signature.sessions.as_slice())?,
        body: code_id(procedure.body),
    })
}

pub fn services_of(alloc: Global, services: &[Service]) -> Result<List<ServiceCode>, Memory>
    ensures { IfOk result (λ list. list ≡ map service_made services.now) }
{
    let mut list = List::new(alloc);
    for service in services {
        list.push(ServiceCode {
            channel: service.channel.name,
            role: service.role.name,
            body: code_id(service.body),
        })?;
    }
    Ok(list)
}

pub fn processes_of(alloc: Global, processes: &[Process]) -> Result<List<CodeProcess>, Memory>
    ensures { IfOk result (λ list. list ≡ map process_made processes.now) }
{
    let mut list = List::new(alloc);
    for process in processes {
        list.push(CodeProcess {
            name: process.name.name,
            body: code_id(process.body),
        })?;
    }
    Ok(list)
}
