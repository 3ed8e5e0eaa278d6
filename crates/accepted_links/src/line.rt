//! The line that says which given unit can't be linked.

ghost use Rattle.std.specs.Prelude.{◌≡◌, ◌++◌, IfOk, OnOk};
ghost use Rattle.accepted_links.specs.Line.{rule_word, channel_text, procedure_text, service_text, process_text, unit_text, refusal_line};

use chor_base::{Memory, put_bytes, put_name};
use endpoint_code::{Channel, Endpoints, Procedure, Process, ServiceCode};
use endpoint_link::{LinkRule, Unit};
use std::alloc::Global;

/// `refused`, the rule and the unit. A unit that isn't among the given ones adds no bytes.
pub fn refusal_line(
    alloc: Global,
    given: &Endpoints,
    rule: LinkRule,
    unit: Unit,
) -> Result<Vec<u8>, Memory>
    ensures { IfOk result (λ line. line.items ≡ refusal_line given.now rule unit) }
{
    let mut line = b"refused ".to_vec(alloc)?;
    put_bytes(&mut line, rule_word(rule))?;
    put_bytes(&mut line, b" ".as_slice())?;
    put_unit(&mut line, given, unit)?;
    put_bytes(&mut line, b"\n".as_slice())?;
    Ok(line)
}

fn rule_word(rule: LinkRule) -> &'static [u8]
    ensures { result.now ≡ rule_word rule }
{
    match rule {
        LinkRule::K1 => b"K1".as_slice(),
        LinkRule::K2 => b"K2".as_slice(),
    }
}

fn put_unit(line: &mut Vec<u8>, given: &Endpoints, unit: Unit) -> Result<(), Memory>
    ensures { OnOk result (line.new.items ≡ line.old.items ++ unit_text given.now unit) }
{
    match unit {
        Unit::Channel(place) => match given.channels.as_slice().get(place as usize) {
            Some(channel) => put_channel(line, given, channel),
            None => Ok(()),
        },
        Unit::Procedure(place) => match given.procedures.as_slice().get(place as usize) {
            Some(procedure) => put_procedure(line, given, procedure),
            None => Ok(()),
        },
        Unit::Service(place) => match given.services.as_slice().get(place as usize) {
            Some(service) => put_service(line, given, *service),
            None => Ok(()),
        },
        Unit::Process(place) => match given.processes.as_slice().get(place as usize) {
            Some(process) => put_process(line, given, *process),
            None => Ok(()),
        },
    }
}

fn put_channel(line: &mut Vec<u8>, given: &Endpoints, channel: &Channel) -> Result<(), Memory>
    ensures { OnOk result (line.new.items ≡ line.old.items ++ channel_text given.now channel.now) }
{
    put_bytes(line, b"channel ".as_slice())?;
    put_name(line, &given.names, channel.name)
}

fn put_procedure(line: &mut Vec<u8>, given: &Endpoints, procedure: &Procedure) -> Result<(), Memory>
    ensures { OnOk result (line.new.items ≡ line.old.items ++ procedure_text given.now procedure.now) }
{
    put_bytes(line, b"procedure ".as_slice())?;
    put_name(line, &given.names, procedure.name)?;
    put_bytes(line, b" ".as_slice())?;
    put_name(line, &given.names, procedure.param)
}

fn put_service(line: &mut Vec<u8>, given: &Endpoints, service: ServiceCode) -> Result<(), Memory>
    ensures { OnOk result (line.new.items ≡ line.old.items ++ service_text given.now service) }
{
    put_bytes(line, b"service ".as_slice())?;
    put_name(line, &given.names, service.channel)?;
    put_bytes(line, b"[".as_slice())?;
    put_name(line, &given.names, service.role)?;
    put_bytes(line, b"]".as_slice())
}

fn put_process(line: &mut Vec<u8>, given: &Endpoints, process: Process) -> Result<(), Memory>
    ensures { OnOk result (line.new.items ≡ line.old.items ++ process_text given.now process) }
{
    put_bytes(line, b"process ".as_slice())?;
    put_name(line, &given.names, process.name)
}
