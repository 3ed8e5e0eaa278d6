//! Whether threads are worth their cost.

use chor_tree::File;

// How many nodes a body has at least, on average. A unit has a code table of its own, which is then joined
// with the others: for a smaller body that takes longer than another thread saves.
const LARGE_BODY: usize = 32;

// How many nodes all units together have to read at least. That many take about a millisecond, while
// starting threads takes tens of microseconds.
const MUCH_WORK: usize = 32_768;

/// Whether the units of a file, parameters of procedures and processes of main, are many and large.
pub fn is_large(file: &File) -> bool {
    let nodes = file.tree.nodes.len();
    let bodies = file.procs.len().saturating_add(1);
    let mut units = file.processes.len();
    for proc in file.procs.as_slice() {
        units = units.saturating_add(proc.params.len());
    }
    nodes >= bodies.saturating_mul(LARGE_BODY)
        && units.saturating_mul(nodes) >= bodies.saturating_mul(MUCH_WORK)
}
