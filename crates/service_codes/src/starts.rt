//! The starts of a file.

ghost use Rattle.std.specs.Prelude.{◌≡◌, ◌++◌, IfOk, OnOk};
ghost use Rattle.projection.specs.Projects.{starts_of, is_some_start};
ghost use Rattle.service_codes.specs.Starts.{IsStanding, start_at, AddsAllStarts, AreAllStarts, AreStartsOf};

use chor_base::{List, Memory, NameId};
use chor_tree::{File, Following, Form, NodeId, what_follows};
use std::alloc::Global;

/// A start: its channel, and the node where it stands.
#[derive(Clone, Copy, PartialEq, Eq)]
pub struct StartNode {
    pub channel: NameId,
    pub node: NodeId,
}

/// A file with its starts.
#[derive(Clone, Copy)]
pub struct Started<'a> {
    pub file: &'a File,
    pub starts: &'a [StartNode],
}

/// All starts of a file: those in procedures, called or not, and then those in main, in the order
/// of the source.
pub fn all_starts(alloc: Global, file: &File) -> Result<List<StartNode>, Memory>
    ensures { IfOk result (AreAllStarts file.now) }
{
    let mut starts = List::new(alloc);
    for proc in file.procs.as_slice() {
        put_starts(file, proc.body, &mut starts)?;
    }
    put_starts(file, file.body, &mut starts)?;
    Ok(starts)
}

/// The nodes that start a channel.
pub fn starts_of(
    alloc: Global,
    started: &Started<'_>,
    channel: NameId,
) -> Result<List<NodeId>, Memory>
    requires { AreAllStarts started.now.file.now started.now.starts.now }
    ensures { IfOk result (AreStartsOf started.now.file.now channel) }
{
    let mut nodes = List::new(alloc);
    for start in started.starts {
        if start.channel == channel {
            nodes.push(start.node)?;
        }
    }
    Ok(nodes)
}

/// Whether a start names a channel.
pub fn is_started(started: &Started<'_>, channel: NameId) -> bool
    requires { AreAllStarts started.now.file.now started.now.starts.now }
    ensures { result ≡ is_some_start (starts_of started.now.file.now channel) }
{
    for start in started.starts {
        if start.channel == channel {
            return true;
        }
    }
    false
}

// Adds the starts from a node on.
fn put_starts(file: &File, id: NodeId, starts: &mut List<StartNode>) -> Result<(), Memory>
    requires { IsStanding file.now id }
    ensures { OnOk result (AddsAllStarts file.now id starts.old starts.new) }
{
    let node = file.tree.nodes.at(id.0 as usize);
    put_start(&node.form, id, starts)?;
    match what_follows(&node.form) {
        Following::Nothing => Ok(()),
        Following::One(next) => put_starts(file, next, starts),
        Following::Either(first, second) => {
            put_starts(file, first, starts)?;
            put_starts(file, second, starts)
        }
    }
}

// Adds a node of this form where it is a start.
fn put_start(form: &Form, id: NodeId, starts: &mut List<StartNode>) -> Result<(), Memory>
    ensures { OnOk result (starts.new ≡ starts.old ++ start_at id form.now) }
{
    match form {
        Form::Start { channel, .. } => starts.push(StartNode {
            channel: channel.name,
            node: id,
        }),
        _ => Ok(()),
    }
}
