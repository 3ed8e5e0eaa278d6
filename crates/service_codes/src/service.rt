//! The code of one service role.

ghost use Rattle.std.specs.Prelude.{◌≢◌, [], All, IfOk, IfErr};
ghost use Rattle.projection.specs.MergeFaults.{sites_of, HasClash};
ghost use Rattle.service_codes.specs.Starts.{HasNamesResolved, AreStartsOf};
ghost use Rattle.service_codes.specs.Services.{IsDeclared, HasServiceCode, StopsOne};

use crate::fault::ServiceFault;
use crate::served::Served;
use crate::start::start_code;
use branch_merge::MergeFault;
use chor_base::List;
use chor_tree::{File, NodeId};
use endpoint_code::{Code, CodeId};
use service_merge::merge_all;
use std::alloc::Global;

/// The code of a service role: the least above those after all starts of its channel. `Clash` comes
/// where no code is above all.
pub fn service_code(
    alloc: Global,
    file: &File,
    starts: &[NodeId],
    served: Served,
    code: &mut Code,
) -> Result<CodeId, ServiceFault>
    requires names { HasNamesResolved file.now }
    requires clean { All (λ s. HasClash file.now s → ⊥) (sites_of file.now) }
    requires starts { AreStartsOf file.now served.channel.name starts.now }
    requires some { starts.now ≢ [] }
    requires declared { IsDeclared file.now served }
    ensures code { IfOk result (HasServiceCode file.now served code.old.nodes code.new.nodes) }
    ensures stopped { IfErr result (StopsOne file.now served) }
{
    let mut list = List::new(alloc);
    for start in starts {
        let id = start_code(alloc, file, *start, served, code)?;
        list.push(id)?;
    }
    match merge_all(alloc, code, list.as_slice()) {
        Ok(id) => Ok(id),
        Err(MergeFault::Clash) => {
            Err(ServiceFault::Clash(served.channel.place, served.role.name))
        }
        Err(MergeFault::Memory) => Err(ServiceFault::Memory),
    }
}
