//! Compares files with the worked texts of their names.

use chor_io::{DiskShelf, Fetched, Shelf};
use std::alloc::Global;
use std::fs::Files;
use worked::endpoints::EXAMPLES;

// How many bytes of a file are read at most.
const LIMIT: u64 = 1 << 16;

/// Writes a line for each worked text: whether the file of its name below `worked` is that text.
pub fn answer_worked<R: Print + Files>(rt: &R, alloc: Global) -> anyhow::Result<()> {
    let mut shelf = DiskShelf::new(alloc, rt);
    for (name, text) in &EXAMPLES {
        let path = format!(in alloc; "worked/{name}")?;
        if holds(alloc, &mut shelf, path.as_bytes(), text) {
            println!(rt; "{name} is the worked text")?;
        } else {
            println!(rt; "{name} is another text")?;
        }
    }
    Ok(())
}

// Whether the file of this name can be read and has these bytes.
fn holds<F: Shelf>(alloc: Global, shelf: &mut F, name: &[u8], text: &[u8]) -> bool {
    let mut bytes = Vec::new(alloc);
    shelf.fetch(name, LIMIT, &mut bytes) == Fetched::All && bytes.as_slice() == text
}
