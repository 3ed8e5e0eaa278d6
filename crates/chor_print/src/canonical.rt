//! The canonical text of whole files.

ghost use Rattle.std.specs.Prelude.{◌≡◌, ◌++◌, OnOk, OnErr};
ghost use Rattle.std.specs.List.{flat_map};
ghost use Rattle.chor_print.specs.Text.{canonical_text};
ghost use Rattle.chor_print.specs.Parts.{protocol_text, service_text, proc_text};

use crate::unit::{put_header, put_main, put_proc, put_protocol, put_service};
use chor_base::{Memory, put_bytes};
use chor_tree::File;
use std::alloc::Global;

/// Appends the canonical text of a file: its header, if it has one, its protocols, its services, its procedures and `main`, in
/// lines that end with a line feed. What isn't in the tables of the file adds no bytes.
pub fn print(alloc: Global, file: &File, out: &mut Vec<u8>) -> Result<(), Memory>
    ensures ok { OnOk result (out.new.items ≡ out.old.items ++ canonical_text file.now) }
    ensures err { OnErr result (out.new.items ≡ out.old.items) }
{
    let mut text = Vec::new(alloc);
    put_file(&mut text, alloc, file)?;
    put_bytes(out, text.as_slice())
}

// Appends the text, or some of it where there is no memory.
fn put_file(out: &mut Vec<u8>, alloc: Global, file: &File) -> Result<(), Memory>
    ensures { OnOk result (out.new.items ≡ out.old.items ++ canonical_text file.now) }
{
    put_header(out, alloc, &file.header)?;
    put_protocols(out, file)?;
    put_services(out, file)?;
    put_procs(out, alloc, file)?;
    put_main(out, alloc, file)
}

fn put_protocols(out: &mut Vec<u8>, file: &File) -> Result<(), Memory>
    ensures { OnOk result (out.new.items ≡ out.old.items ++ flat_map (protocol_text file.now.names) file.now.protocols) }
{
    for protocol in file.protocols.as_slice() {
        put_protocol(out, &file.names, protocol)?;
    }
    Ok(())
}

fn put_services(out: &mut Vec<u8>, file: &File) -> Result<(), Memory>
    ensures { OnOk result (out.new.items ≡ out.old.items ++ flat_map (service_text file.now.names) file.now.services) }
{
    for service in file.services.as_slice() {
        put_service(out, &file.names, service)?;
    }
    Ok(())
}

fn put_procs(out: &mut Vec<u8>, alloc: Global, file: &File) -> Result<(), Memory>
    ensures { OnOk result (out.new.items ≡ out.old.items ++ flat_map (proc_text file.now) file.now.procs) }
{
    for procedure in file.procs.as_slice() {
        put_proc(out, alloc, file, procedure)?;
    }
    Ok(())
}
