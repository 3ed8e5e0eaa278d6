//! A table of texts.

ghost use Rattle.std.specs.Prelude.{◌≡◌, ◌<◌, ◌↔◌, Some, IsTrue, IfOk, IfSome, OnOk, vec_len};
ghost use Rattle.kept_texts.specs.Kept.{Spelling, AreTextsOf};

use crate::phrase::Phrase;
use chor_base::Memory;
use std::alloc::Global;

// How many phrases are kept of a run of so many events: a power of 2, since a table for a long run
// takes longer to make than a short run to write.
fn count_for(events: usize) -> u32
    ensures { 0 < result }
{
    if events < 64 {
        16
    } else if events < 8192 {
        512
    } else {
        8192
    }
}

// A number that tells most phrases apart.
fn mixed(phrase: Phrase) -> u32 {
    phrase
        .pid
        .wrapping_mul(135)
        .wrapping_add(phrase.sid)
        .wrapping_mul(135)
        .wrapping_add(phrase.from.0)
        .wrapping_mul(135)
        .wrapping_add(phrase.to.0)
        .wrapping_mul(135)
        .wrapping_add(phrase.verb as u32)
}

// A phrase and its text, or nothing.
#[derive(Drop)]
pub struct Slot {
    phrase: Option<Phrase>,
    text: Vec<u8>,
}

impl Slot {
    // Whether this phrase is kept here.
    fn has(&self, phrase: Phrase) -> bool
        ensures { IsTrue result ↔ (self.now.phrase ≡ Some phrase) }
    {
        match self.phrase {
            Some(kept) => kept == phrase,
            None => false,
        }
    }

    // This phrase and its text come in the place of what was kept.
    fn take(&mut self, phrase: Phrase, text: &[u8]) -> Result<(), Memory>
        ensures phrase { self.new.phrase ≡ Some phrase }
        ensures text { OnOk result (self.new.text.items ≡ text.now) }
    {
        self.phrase = Some(phrase);
        self.text.clear();
        self.text.extend_from_slice(text)?;
        Ok(())
    }
}

/// The texts of phrases that were written lately.
pub struct Phrases {
    slots: Vec<Slot>,
    // One less than there are slots.
    mask: u32,
    ghost within: { mask < vec_len slots },
}

impl Drop for Phrases {
    fn drop(self) {
        let Phrases { slots: _, mask: _ } = self;
    }
}

impl Phrases {
    /// No texts, with room for those of a run of so many events.
    pub fn new(alloc: Global, events: usize) -> Result<Phrases, Memory>
        ensures { IfOk result (λ p. (s : Spelling) → AreTextsOf s p.slots.items) }
    {
        let count = count_for(events);
        let mut slots = Vec::new(alloc);
        for _ in 0..count {
            slots.push(Slot {
                phrase: None,
                text: Vec::new(alloc),
            })?;
        }
        Ok(Phrases {
            slots,
            mask: count - 1,
        })
    }

    /// Has room for the texts of so many events, without texts where there was too little.
    pub fn fit(&mut self, events: usize) -> Result<(), Memory>
        ensures { OnOk result ((s : Spelling) → AreTextsOf s self.old.slots.items → AreTextsOf s self.new.slots.items) }
    {
        if self.slots.len() < count_for(events) as usize {
            let alloc = *self.slots.allocator();
            *self = Phrases::new(alloc, events)?;
        }
        Ok(())
    }

    // The slot in which a phrase is kept.
    #[tactic(auto, using(std::proofs::lemmas::Nat::and_le_r))]
    fn slot_of(&self, phrase: Phrase) -> usize
        ensures { result < vec_len self.now.slots }
    {
        (mixed(phrase) & self.mask) as usize
    }

    /// The text of a phrase, if it is kept.
    pub fn text(&self, phrase: Phrase) -> Option<&[u8]>
        ensures { (s : Spelling) → AreTextsOf s self.now.slots.items → IfSome result (λ text. text.now ≡ s phrase) }
    {
        let slot = &self.slots[self.slot_of(phrase)];
        if slot.has(phrase) {
            Some(slot.text.as_slice())
        } else {
            None
        }
    }

    /// Keeps the text of a phrase, in the place of one that was kept.
    pub fn keep(&mut self, phrase: Phrase, text: &[u8]) -> Result<(), Memory>
        ensures { OnOk result ((s : Spelling) → AreTextsOf s self.old.slots.items → text.now ≡ s phrase → AreTextsOf s self.new.slots.items) }
    {
        let place = self.slot_of(phrase);
        let slot = &mut self.slots[place];
        slot.take(phrase, text)
    }
}
