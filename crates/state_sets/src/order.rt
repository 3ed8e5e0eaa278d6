//! Acts in the order of their labels.

ghost use Rattle.std.specs.Prelude.{◌≡◌, ◌<◌, IfOk, slice_index_or};
ghost use Rattle.std.specs.Ordering.{nat_cmp};
ghost use Rattle.std.specs.Cmp.Lexicographic.{slice_cmp};
ghost use Rattle.std.specs.List.Sorted.{IsPermutation};
ghost use Rattle.state_sets.specs.Ascending.{Ascend};
ghost use Rattle.state_sets.specs.Table.{act_words};
ghost use Rattle.state_sets.specs.Order.{IsKeyOf, AreKeyed, keyed_acts, keyed_word};

use crate::act::{Act, by_label, label_bytes};
use chor_base::{Memory, Names};
use std::alloc::Global;
use std::cmp::Ordering;

/// An act, and the first eight bytes of its label as a number, which mostly tell its place.
#[derive(Clone, Copy)]
pub struct Keyed<'a> {
    pub key: u64,
    pub act: &'a Act,
}

// These acts by ascending labels.
pub fn by_labels(alloc: Global, acts: &[Act], names: &Names) -> Result<Vec<Act>, Memory>
    ensures order { IfOk result (λ v. IsPermutation acts.now v.items) }
    ensures ascend { IfOk result (λ v. Ascend (act_words names.now v.items)) }
{
    let mut keyed = with_keys(alloc, acts, names)?;
    keyed.sort_by(|one, other| by_key(names, one, other))?;
    acts_of(alloc, keyed.as_slice())
}

// These acts with their keys.
fn with_keys<'a>(alloc: Global, acts: &'a [Act], names: &Names) -> Result<Vec<Keyed<'a>>, Memory>
    ensures { IfOk result (λ v. AreKeyed names.now acts.now v.items) }
{
    let mut keyed = Vec::new(alloc);
    for act in acts {
        let key = key_of(label_bytes(names, act));
        keyed.push(Keyed { key, act })?;
    }
    Ok(keyed)
}

// The acts without their keys.
fn acts_of(alloc: Global, keyed: &[Keyed]) -> Result<Vec<Act>, Memory>
    ensures { IfOk result (λ v. v.items ≡ keyed_acts keyed.now) }
{
    let mut acts = Vec::new(alloc);
    for item in keyed {
        acts.push(*item.act)?;
    }
    Ok(acts)
}

// The order by keys, and by labels where the keys are the same.
fn by_key(names: &Names, one: &Keyed, other: &Keyed) -> Ordering
    ensures { result ≡ slice_cmp nat_cmp (keyed_word names.now one.now) (keyed_word names.now other.now) }
{
    match one.key.cmp(&other.key) {
        Ordering::Equal => by_label(names, one.act, other.act),
        unequal => unequal,
    }
}

// The first eight bytes of a word as a number, with zeros after a shorter word.
fn key_of(word: &[u8]) -> u64
    ensures { IsKeyOf word.now result }
{
    let mut key: u64 = 0;
    for place in 0..8 {
        let byte = byte_at(word, place);
        key = key * 256 + byte;
    }
    key
}

// The byte at a place, or 0.
fn byte_at(word: &[u8], place: usize) -> u64
    ensures byte { result ≡ slice_index_or word.now place 0 }
    ensures small { result < 256 }
{
    match word.get(place) {
        Some(byte) => u64::from(*byte),
        None => 0,
    }
}
