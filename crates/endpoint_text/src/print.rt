//! The text of whole endpoint programs.

ghost use Rattle.std.specs.Prelude.{◌≡◌, ◌<◌, ◌++◌, All, OnOk, OnErr, length};
ghost use Rattle.std.specs.List.{flat_map};
ghost use Rattle.endpoint_text.specs.Text.{serving, channel_line, procedure_line, service_line, process_line, endpoints_text};

use crate::code::put_body;
use crate::words::{put_list, put_role, put_sessions, put_words};
use chor_base::{Memory, NameId, put_bytes};
use endpoint_code::{Channel, Endpoints, Procedure, Process, ServiceCode};
use std::alloc::Global;

/// Appends the text of endpoint programs: a header, and a line for each channel, procedure, service
/// and process.
pub fn print_endpoints(alloc: Global, e: &Endpoints, out: &mut Vec<u8>) -> Result<(), Memory>
    ensures ok { OnOk result (out.new.items ≡ out.old.items ++ endpoints_text e.now) }
    ensures err { OnErr result (out.new.items ≡ out.old.items) }
{
    let mut text = Vec::new(alloc);
    put_endpoints(&mut text, alloc, e)?;
    put_bytes(out, text.as_slice())
}

// Appends the text, or some of it where there is no memory.
fn put_endpoints(out: &mut Vec<u8>, alloc: Global, e: &Endpoints) -> Result<(), Memory>
    ensures { OnOk result (out.new.items ≡ out.old.items ++ endpoints_text e.now) }
{
    put_bytes(out, b"endpoints 1;\n".as_slice())?;
    put_channels(out, e)?;
    put_procedures(out, alloc, e)?;
    put_services(out, alloc, e)?;
    put_processes(out, alloc, e)
}

fn put_channels(out: &mut Vec<u8>, e: &Endpoints) -> Result<(), Memory>
    ensures { OnOk result (out.new.items ≡ out.old.items ++ flat_map (channel_line e.now) e.now.channels) }
{
    for channel in e.channels.as_slice() {
        put_channel(out, e, channel)?;
    }
    Ok(())
}

fn put_channel(out: &mut Vec<u8>, e: &Endpoints, channel: &Channel) -> Result<(), Memory>
    ensures { OnOk result (out.new.items ≡ out.old.items ++ channel_line e.now channel.now) }
{
    put_words(out, e, b"channel".as_slice(), [channel.name].as_slice())?;
    put_bytes(out, b" (".as_slice())?;
    put_list(out, e, channel.active.as_slice())?;
    put_serving(out, e, channel.serve.as_slice())?;
    put_bytes(out, b");\n".as_slice())
}

// Appends the service roles of a channel, where there are any.
fn put_serving(out: &mut Vec<u8>, e: &Endpoints, roles: &[NameId]) -> Result<(), Memory>
    ensures { OnOk result (out.new.items ≡ out.old.items ++ serving e.now roles.now) }
{
    if roles.is_empty() {
        return Ok(());
    }
    put_bytes(out, b" | ".as_slice())?;
    put_list(out, e, roles)
}

fn put_procedures(out: &mut Vec<u8>, alloc: Global, e: &Endpoints) -> Result<(), Memory>
    ensures { OnOk result (out.new.items ≡ out.old.items ++ flat_map (procedure_line e.now) e.now.procedures) }
{
    for procedure in e.procedures.as_slice() {
        put_procedure(out, alloc, e, procedure)?;
    }
    Ok(())
}

fn put_procedure(
    out: &mut Vec<u8>,
    alloc: Global,
    e: &Endpoints,
    procedure: &Procedure,
) -> Result<(), Memory>
    requires { procedure.now.body.0 < length e.now.code.nodes }
    ensures { OnOk result (out.new.items ≡ out.old.items ++ procedure_line e.now procedure.now) }
{
    put_words(
        out,
        e,
        b"procedure".as_slice(),
        [procedure.name, procedure.param].as_slice(),
    )?;
    put_sessions(out, e, procedure.sessions.as_slice())?;
    put_body(out, alloc, e, procedure.body)
}

fn put_services(out: &mut Vec<u8>, alloc: Global, e: &Endpoints) -> Result<(), Memory>
    ensures { OnOk result (out.new.items ≡ out.old.items ++ flat_map (service_line e.now) e.now.services) }
{
    for service in e.services.as_slice() {
        put_service(out, alloc, e, *service)?;
    }
    Ok(())
}

fn put_service(
    out: &mut Vec<u8>,
    alloc: Global,
    e: &Endpoints,
    service: ServiceCode,
) -> Result<(), Memory>
    requires { service.body.0 < length e.now.code.nodes }
    ensures { OnOk result (out.new.items ≡ out.old.items ++ service_line e.now service) }
{
    put_role(out, e, b"service".as_slice(), service.channel, service.role)?;
    put_body(out, alloc, e, service.body)
}

fn put_processes(out: &mut Vec<u8>, alloc: Global, e: &Endpoints) -> Result<(), Memory>
    ensures { OnOk result (out.new.items ≡ out.old.items ++ flat_map (process_line e.now) e.now.processes) }
{
    for process in e.processes.as_slice() {
        put_process(out, alloc, e, *process)?;
    }
    Ok(())
}

fn put_process(
    out: &mut Vec<u8>,
    alloc: Global,
    e: &Endpoints,
    process: Process,
) -> Result<(), Memory>
    requires { process.body.0 < length e.now.code.nodes }
    ensures { OnOk result (out.new.items ≡ out.old.items ++ process_line e.now process) }
{
    put_words(out, e, b"process".as_slice(), [process.name].as_slice())?;
    put_body(out, alloc, e, process.body)
}
