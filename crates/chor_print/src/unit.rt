//! Headers, protocols, services, procedures and main.

ghost use Rattle.std.specs.Prelude.{◌≡◌, ◌++◌, OnOk, codes, map};
ghost use Rattle.chor_print.specs.Text.{step_text, state_line, roles_text, protocol_head};
ghost use Rattle.chor_print.specs.Parts.{line_at, lines_at, capacity_text, header_text, protocol_text, service_text, proc_text, main_text};

use crate::block::put_body;
use crate::piece::{Piece, put_after, put_list, put_list_after};
use chor_base::{Memory, Names, put_bytes, put_number};
use chor_tree::{File, Header, Named, Proc, ProtoStep, Protocol, Service, State};
use std::alloc::Global;

/// Appends a header, `chor 2;` and the capacity each on a line of its own. The first version has
/// none.
pub fn put_header(out: &mut Vec<u8>, alloc: Global, header: &Header) -> Result<(), Memory>
    ensures { OnOk result (out.new.items ≡ out.old.items ++ header_text header.now) }
{
    if header.version == 2 {
        put_bytes(out, b"chor 2;\n")?;
        put_capacity(out, alloc, header.capacity)
    } else {
        Ok(())
    }
}

fn put_capacity(out: &mut Vec<u8>, alloc: Global, capacity: Option<u32>) -> Result<(), Memory>
    ensures { OnOk result (out.new.items ≡ out.old.items ++ capacity_text capacity) }
{
    match capacity {
        Some(number) => {
            put_bytes(out, b"capacity ")?;
            put_number(out, alloc, number as u64)?;
            put_bytes(out, b";\n")
        }
        None => Ok(()),
    }
}

/// Appends a protocol, each state on a line of its own.
pub fn put_protocol(out: &mut Vec<u8>, names: &Names, protocol: &Protocol) -> Result<(), Memory>
    ensures { OnOk result (out.new.items ≡ out.old.items ++ protocol_text names.now protocol.now) }
{
    put_protocol_head(out, names, protocol)?;
    put_states(out, names, protocol.states.as_slice())?;
    put_bytes(out, b"}\n")
}

fn put_protocol_head(out: &mut Vec<u8>, names: &Names, protocol: &Protocol) -> Result<(), Memory>
    ensures { OnOk result (out.new.items ≡ out.old.items ++ line_at 0 (protocol_head names.now protocol.now)) }
{
    put_after(out, names, b"protocol ", &protocol.name)?;
    put_bytes(out, b" (")?;
    put_list(out, names, protocol.roles.as_slice())?;
    put_bytes(out, b") {\n")
}

fn put_states(out: &mut Vec<u8>, names: &Names, states: &[State]) -> Result<(), Memory>
    ensures { OnOk result (out.new.items ≡ out.old.items ++ lines_at 1 (map (state_line names.now) states.now)) }
{
    for state in states {
        put_after(out, names, b"  ", &state.name)?;
        put_bytes(out, b" = ")?;
        put_step(out, names, &state.step)?;
        put_bytes(out, b";\n")?;
    }
    Ok(())
}

fn put_step(out: &mut Vec<u8>, names: &Names, step: &ProtoStep) -> Result<(), Memory>
    ensures { OnOk result (out.new.items ≡ out.old.items ++ step_text names.now step.now) }
{
    match step {
        ProtoStep::End => put_bytes(out, b"end"),
        ProtoStep::Value {
            from,
            to,
            payload,
            next,
        } => {
            from.put(out, names)?;
            put_after(out, names, b" -> ", to)?;
            put_after(out, names, b" : ", payload)?;
            put_after(out, names, b" then ", next)
        }
        ProtoStep::Choice { from, to, arms } => {
            from.put(out, names)?;
            put_after(out, names, b" -> ", to)?;
            put_bytes(out, b" {")?;
            put_list(out, names, arms.as_slice())?;
            put_bytes(out, b"}")
        }
    }
}

/// Appends a service, which is one line.
pub fn put_service(out: &mut Vec<u8>, names: &Names, service: &Service) -> Result<(), Memory>
    ensures { OnOk result (out.new.items ≡ out.old.items ++ service_text names.now service.now) }
{
    put_after(out, names, b"service ", &service.name)?;
    put_after(out, names, b" : ", &service.protocol)?;
    put_bytes(out, b" ")?;
    put_roles(
        out,
        names,
        service.active.as_slice(),
        service.serve.as_slice(),
    )?;
    put_bytes(out, b";\n")
}

fn put_roles(
    out: &mut Vec<u8>,
    names: &Names,
    active: &[Named],
    serve: &[Named],
) -> Result<(), Memory>
    ensures { OnOk result (out.new.items ≡ out.old.items ++ roles_text names.now active.now serve.now) }
{
    put_bytes(out, b"(")?;
    put_list(out, names, active)?;
    put_list_after(out, names, b" | ", serve)?;
    put_bytes(out, b")")
}

/// Appends a procedure with its body.
pub fn put_proc(
    out: &mut Vec<u8>,
    alloc: Global,
    file: &File,
    procedure: &Proc,
) -> Result<(), Memory>
    ensures { OnOk result (out.new.items ≡ out.old.items ++ proc_text file.now procedure.now) }
{
    put_after(out, &file.names, b"proc ", &procedure.name)?;
    put_bytes(out, b" (")?;
    put_list(out, &file.names, procedure.params.as_slice())?;
    put_list_after(out, &file.names, b"; ", procedure.sessions.as_slice())?;
    put_bytes(out, b") {\n")?;
    put_body(out, alloc, file, procedure.body)
}

/// Appends `main` with its body.
pub fn put_main(out: &mut Vec<u8>, alloc: Global, file: &File) -> Result<(), Memory>
    ensures { OnOk result (out.new.items ≡ out.old.items ++ main_text file.now) }
{
    put_bytes(out, b"main (")?;
    put_list(out, &file.names, file.processes.as_slice())?;
    put_bytes(out, b") {\n")?;
    put_body(out, alloc, file, file.body)
}
