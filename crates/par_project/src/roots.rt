//! The processes of a file and where their code begins.

use chor_base::{List, Memory, NameId};
use chor_tree::{File, NodeId};
use std::alloc::Global;

/// A process, and the body in which its code begins.
#[derive(Clone, Copy)]
pub struct Root {
    pub process: NameId,
    pub at: NodeId,
}

/// The parameters of procedures, in source order.
pub fn params(alloc: Global, file: &File) -> Result<List<Root>, Memory> {
    let mut roots = List::new(alloc);
    for proc in file.procs.as_slice() {
        for param in proc.params.as_slice() {
            roots.push(Root {
                process: param.name.name,
                at: proc.body,
            })?;
        }
    }
    Ok(roots)
}

/// The processes of main, in source order.
pub fn processes(alloc: Global, file: &File) -> Result<List<Root>, Memory> {
    let mut roots = List::new(alloc);
    for process in file.processes.as_slice() {
        roots.push(Root {
            process: process.name,
            at: file.body,
        })?;
    }
    Ok(roots)
}

/// The bodies of procedures, in source order, and that of main.
pub fn bodies(alloc: Global, file: &File) -> Result<List<NodeId>, Memory> {
    let mut bodies = List::new(alloc);
    for proc in file.procs.as_slice() {
        bodies.push(proc.body)?;
    }
    bodies.push(file.body)?;
    Ok(bodies)
}
