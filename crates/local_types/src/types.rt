//! The text of the local types of a file.

ghost use Rattle.std.specs.Prelude.{OnOk, IfOk, IfErr};
ghost use Rattle.chor_tree.specs.Protocols.{Protocol};
ghost use Rattle.global_types.specs.Moves.{IsIn};
ghost use Rattle.local_types.specs.Reading.{HasFineRoles, IsFirstRole, IsFirstRefusal};
ghost use Rattle.local_types.specs.Texts.{AreRoleTexts, IsTypesText};

use crate::print::print_local;
use crate::view::local;
use chor_base::{Denied, Names, put_bytes};
use chor_tree::{File, Protocol};
use std::alloc::Global;

/// The text of the local types of all roles of all protocols, in the order of the file. The first
/// role whose view has a fault is refused, as by `check_views`.
pub fn types_text(alloc: Global, file: &File) -> Result<Vec<u8>, Denied>
    ensures text { IfOk result (λ text. IsTypesText file.now text.items) }
    ensures fine { OnOk result ((p : Protocol) → IsIn p file.now.protocols → HasFineRoles p p.roles) }
    ensures refused { IfErr result (IsFirstRefusal file.now.protocols) }
{
    let mut text = Vec::new(alloc);
    for protocol in file.protocols.as_slice() {
        match roles_text(alloc, protocol, &file.names) {
            Ok(roles) => put_bytes(&mut text, roles.as_slice())?,
            Err(denied) => return Err(denied),
        }
    }
    Ok(text)
}

// The text of the types of a protocol's roles.
fn roles_text(alloc: Global, protocol: &Protocol, names: &Names) -> Result<Vec<u8>, Denied>
    ensures text { IfOk result (λ text. AreRoleTexts names.now protocol.now text.items) }
    ensures fine { OnOk result (HasFineRoles protocol.now protocol.now.roles) }
    ensures refused { IfErr result (IsFirstRole protocol.now) }
{
    let mut text = Vec::new(alloc);
    for role in protocol.roles.as_slice() {
        match local(alloc, protocol, role.name, names) {
            Ok(local) => print_local(alloc, protocol, role.name, &local, names, &mut text)?,
            Err(denied) => return Err(denied),
        }
    }
    Ok(text)
}
