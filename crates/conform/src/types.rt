//! The types of the roles of a file.

ghost use Rattle.std.specs.Prelude.{IfOk};
ghost use Rattle.local_types.specs.Reading.{HasFineRoles};
ghost use Rattle.chor_tree.specs.Protocols.{Protocol as ProtocolIs};
ghost use Rattle.global_types.specs.Moves.{IsIn};
ghost use Rattle.conform.specs.Progress.{AreRead, AreTypesOf};

use chor_base::{List, Memory, Names};
use chor_tree::{File, Protocol};
use local_types::{LocalType, local};
use std::alloc::Global;

// The types of the roles of a protocol, in the order of its head.
fn types_of(alloc: Global, protocol: &Protocol, names: &Names) -> Result<List<LocalType>, Memory>
    requires { HasFineRoles protocol.now protocol.now.roles }
    ensures { IfOk result (AreRead protocol.now) }
{
    let mut types = List::new(alloc);
    for role in protocol.roles.as_slice() {
        match local(alloc, protocol, role.name, names) {
            Ok(local) => types.push(local)?,
            // no role's view has a fault
            Err(_) => return Err(Memory),
        }
    }
    Ok(types)
}

// The types of the roles of each protocol, in the order of the file.
pub fn all_types(alloc: Global, file: &File) -> Result<List<List<LocalType>>, Memory>
    requires { (p : ProtocolIs) → IsIn p file.now.protocols → HasFineRoles p p.roles }
    ensures { IfOk result (AreTypesOf file.now) }
{
    let mut types = List::new(alloc);
    for protocol in file.protocols.as_slice() {
        types.push(types_of(alloc, protocol, &file.names)?)?;
    }
    Ok(types)
}
