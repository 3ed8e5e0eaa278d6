//! Tables of names and of texts to which those of other tables are added.

ghost use Rattle.std.specs.Prelude.{IfOk, ℕ};
ghost use Rattle.chor_base.specs.declared.names.NameId.{NameId};
ghost use Rattle.endpoint_link.specs.JoinedWords.{AreWordsJoined};

use chor_base::{List, Memory, NameId, Names, Texts};
use std::alloc::Global;

/// A table of names, and the number there of each name of another table.
#[derive(Drop)]
pub struct JoinedNames {
    pub names: Names,
    pub numbers: List<NameId>,
}

/// The names of `base`, followed by those of `given` that it doesn't have.
pub fn joined_names(alloc: Global, base: &Names, given: &Names) -> Result<JoinedNames, Memory>
    ensures { IfOk result (λ joined. AreWordsJoined (λ (n : NameId). n.0) base.now given.now joined.names joined.numbers) }
{
    let mut names = base.copy(alloc)?;
    let mut numbers = List::new(alloc);
    for place in 0..given.len() {
        let name = names.intern(given.at(NameId(place as u32)))?;
        numbers.push(name)?;
    }
    // `len` says that no name is twice in the table.
    let _count = names.len();
    Ok(JoinedNames { names, numbers })
}

/// A table of texts, and the number there of each text of another table.
#[derive(Drop)]
pub struct JoinedTexts {
    pub texts: Texts,
    pub numbers: List<u32>,
}

/// The texts of `base`, followed by those of `given` that it doesn't have.
pub fn joined_texts(alloc: Global, base: &Texts, given: &Texts) -> Result<JoinedTexts, Memory>
    ensures { IfOk result (λ joined. AreWordsJoined (λ (n : ℕ). n) base.now given.now joined.texts joined.numbers) }
{
    let mut texts = base.copy(alloc)?;
    let mut numbers = List::new(alloc);
    for place in 0..given.len() {
        let text = texts.intern(given.at(place as u32))?;
        numbers.push(text)?;
    }
    // `len` says that no text is twice in the table.
    let _count = texts.len();
    Ok(JoinedTexts { texts, numbers })
}
