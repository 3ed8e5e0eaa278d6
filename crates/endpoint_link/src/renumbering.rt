//! The numbers that names, texts and code nodes get in other tables.

ghost use Rattle.std.specs.Prelude.{◌≡◌, IfOk, map};
ghost use Rattle.endpoint_link.specs.Renumbered.{renumbered_name, renumbered_text, renumbered_code};

use chor_base::{List, Memory, NameId};
use endpoint_code::CodeId;
use std::alloc::Global;

/// What number each name and each text of some programs gets in other tables, by its own number, and
/// what number their first code node gets.
#[derive(Drop)]
pub struct Renumbering {
    pub names: List<NameId>,
    pub texts: List<u32>,
    pub first: u32,
}

impl Renumbering {
    /// The new number of a name.
    pub fn name(&self, name: NameId) -> NameId
        ensures { result ≡ renumbered_name self.now name }
    {
        if (name.0 as usize) < self.names.len() {
            *self.names.at(name.0 as usize)
        } else {
            name
        }
    }

    /// The new numbers of some names.
    pub fn names(&self, alloc: Global, names: &[NameId]) -> Result<List<NameId>, Memory>
        ensures { IfOk result (λ list. list ≡ map (renumbered_name self.now) names.now) }
    {
        let mut list = List::new(alloc);
        for name in names {
            list.push(self.name(*name))?;
        }
        Ok(list)
    }

    /// The new number of a text.
    pub fn text(&self, text: u32) -> u32
        ensures { result ≡ renumbered_text self.now text }
    {
        if (text as usize) < self.texts.len() {
            *self.texts.at(text as usize)
        } else {
            text
        }
    }

    /// The new number of a code node.
    pub fn code(&self, id: CodeId) -> Result<CodeId, Memory>
        ensures { IfOk result (λ number. number ≡ renumbered_code self.now id) }
    {
        match self.first.checked_add(id.0) {
            Some(number) => Ok(CodeId(number)),
            None => Err(Memory),
        }
    }
}
