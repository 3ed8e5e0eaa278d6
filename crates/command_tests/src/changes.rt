//! Changes of a text.

use anyhow::bail;
use std::alloc::Global;

// A text, and one part of it with another in its place.
#[derive(Drop)]
struct Change {
    source: String,
    old: String,
    new: String,
}

impl Change {
    // The new part stands in the place of the old one, and both are empty.
    fn make(&mut self, alloc: Global) -> anyhow::Result<()> {
        let (old, new) = (self.old.as_str(), self.new.as_str());
        self.source = replaced(alloc, self.source.as_str(), old, new)?;
        self.old.clear();
        self.new.clear();
        Ok(())
    }

    // A line of the old part or of the new one. A line of the old part after a new one begins the next change.
    fn take(&mut self, alloc: Global, line: &str) -> anyhow::Result<()> {
        if let Some(text) = line.strip_prefix("- ") {
            if !self.new.is_empty() {
                self.make(alloc)?;
            }
            return push_line(&mut self.old, text);
        }
        match line.strip_prefix("+ ") {
            Some(text) => push_line(&mut self.new, text),
            None => bail!("a line of a change begins with neither - nor +"),
        }
    }

    fn take_all(&mut self, alloc: Global, lines: &str) -> anyhow::Result<()> {
        for line in lines.lines() {
            self.take(alloc, line)?;
        }
        if self.old.is_empty() {
            return Ok(());
        }
        self.make(alloc)
    }
}

/// The base after the changes that these lines say: lines with `- ` are the old text, and lines with `+ `
/// after them the new one. An `Err` where an old text doesn't stand in it exactly once.
pub fn changed(alloc: Global, base: &str, lines: &str) -> anyhow::Result<String> {
    let mut change = Change {
        source: String::from_str(alloc, base)?,
        old: String::new(alloc),
        new: String::new(alloc),
    };
    if let Err(error) = change.take_all(alloc, lines) {
        drop(change);
        return Err(error);
    }
    Ok(change.source)
}

// Puts a line after those that stand there.
fn push_line(text: &mut String, line: &str) -> anyhow::Result<()> {
    if !text.is_empty() {
        text.push_str("\n")?;
    }
    text.push_str(line)?;
    Ok(())
}

// The text with a new part in the place of an old one, which stands in it exactly once.
fn replaced(alloc: Global, text: &str, old: &str, new: &str) -> anyhow::Result<String> {
    match text.split_once(old) {
        Some((before, after)) if !after.contains(old) => {
            Ok(format!(in alloc; "{before}{new}{after}")?)
        }
        _ => bail!("{old} doesn't stand there exactly once"),
    }
}
