//! Which processes have heard of the last start of a channel, for up to 128 channels at a time.

ghost use Rattle.std.specs.Prelude.{ℕ, ◌≡◌, ◌<◌, ◌||◌, ◌&&◌, ◌==◌, true, false, IfOk, OnOk};
ghost use Rattle.std.specs.List.{list_any, list_all};
ghost use Rattle.linearity.specs.Marks.{is_marked};
ghost use Rattle.linear_check.specs.Heard.{hears};

use chor_base::{List, Memory, NameId};
use chor_tree::Part;
use linearity::Marks;
use std::alloc::Global;

// For each process the channels of which it has heard: those of its entries, and those of which
// all processes have.
pub struct Heard {
    all: Marks,
    entries: List<(NameId, Marks)>,
}

impl Drop for Heard {
    fn drop(self) {
        let Heard { all: _, entries: _ } = self;
    }
}

impl Heard {
    // All processes have heard of all channels.
    pub fn everyone(alloc: Global) -> Self
        ensures { (c x : ℕ) → c < 128 → hears result c x ≡ true }
    {
        Heard {
            all: Marks::all(),
            entries: List::new(alloc),
        }
    }

    // No process has heard of a channel.
    pub fn nobody(alloc: Global) -> Self
        ensures { (c x : ℕ) → hears result c x ≡ false }
    {
        Heard {
            all: Marks::none(),
            entries: List::new(alloc),
        }
    }

    pub fn copy(&self, alloc: Global) -> Result<Self, Memory>
        ensures { IfOk result (λ heard. (c x : ℕ) → hears heard c x ≡ hears self.now c x) }
    {
        let entries = self.entries.copy(alloc)?;
        Ok(Heard {
            all: self.all,
            entries,
        })
    }

    // The channels of which a process has heard.
    pub fn get(&self, process: NameId) -> Marks
        ensures { (c : ℕ) → is_marked result c ≡ hears self.now c process.0 }
    {
        let mut marks = self.all;
        for entry in self.entries.as_slice() {
            if entry.0 == process {
                marks = marks.or(entry.1);
            }
        }
        marks
    }

    // The process hears of these channels.
    pub fn add(&mut self, process: NameId, marks: Marks) -> Result<(), Memory>
        ensures { OnOk result ((c x : ℕ) → hears self.new c x ≡ (hears self.old c x || ((process.0 == x) && is_marked marks c))) }
    {
        let known = self.get(process);
        if known.or(marks) != known {
            self.entries.push((process, marks))?;
        }
        Ok(())
    }

    // The processes of these parts hear of these channels.
    pub fn add_all(&mut self, parts: &[Part], marks: Marks) -> Result<(), Memory>
        ensures { OnOk result ((c x : ℕ) → hears self.new c x ≡ (hears self.old c x || (list_any (λ q. q.process.name.0 == x) parts.now && is_marked marks c))) }
    {
        for part in parts {
            self.add(part.process.name, marks)?;
        }
        Ok(())
    }

    // No process has heard of a channel that isn't among these.
    pub fn keep(&mut self, alloc: Global, marks: Marks) -> Result<(), Memory>
        ensures { OnOk result ((c x : ℕ) → hears self.new c x ≡ (hears self.old c x && is_marked marks c)) }
    {
        let entries = kept(alloc, self.entries.as_slice(), marks)?;
        self.all = self.all.and(marks);
        self.entries = entries;
        Ok(())
    }

    // The channels of which one of these has heard.
    pub fn any_of(&self, parts: &[Part]) -> Marks
        ensures { (c : ℕ) → is_marked result c ≡ list_any (λ q. hears self.now c q.process.name.0) parts.now }
    {
        let mut marks = Marks::none();
        for part in parts {
            marks = marks.or(self.get(part.process.name));
        }
        marks
    }

    // The channels of which all of these have heard.
    pub fn all_of(&self, parts: &[Part]) -> Marks
        ensures { (c : ℕ) → c < 128 → is_marked result c ≡ list_all (λ q. hears self.now c q.process.name.0) parts.now }
    {
        let mut marks = Marks::all();
        for part in parts {
            marks = marks.and(self.get(part.process.name));
        }
        marks
    }
}

// Entries without the channels that aren't among these.
fn kept(
    alloc: Global,
    entries: &[(NameId, Marks)],
    marks: Marks,
) -> Result<List<(NameId, Marks)>, Memory>
    ensures { IfOk result (λ list. (c x : ℕ) → list_any (λ e. (e.0.0 == x) && is_marked e.1 c) list ≡ (list_any (λ e. (e.0.0 == x) && is_marked e.1 c) entries.now && is_marked marks c)) }
{
    let mut list = List::new(alloc);
    for entry in entries {
        list.push((entry.0, entry.1.and(marks)))?;
    }
    Ok(list)
}
