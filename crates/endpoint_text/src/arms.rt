//! The order of the arms of a branch.

ghost use Rattle.std.specs.Prelude.{◌≡◌, IfOk, OnOk};
ghost use Rattle.endpoint_text.specs.Ascending.{ascending, inserted};
ghost use Rattle.endpoint_text.specs.Places.{place_in, label_in};

use crate::words::word_of;
use chor_base::{Memory, NameId, Names};
use endpoint_code::CodeId;
use std::alloc::Global;

/// A label, and where its code stands.
pub type Arm = (NameId, CodeId);

/// The arms of a branch in ascending order of the bytes of their labels.
#[tactic(auto, using(crate::proofs::Ascents::one_more))]
pub fn ascending_arms(alloc: Global, names: &Names, arms: &[Arm]) -> Result<Vec<Arm>, Memory>
    ensures { IfOk result (λ sorted. sorted.items ≡ ascending (label_in names.now) arms.now) }
{
    let mut sorted = Vec::new(alloc);
    for index in (0..arms.len()).rev() {
        insert_arm(&mut sorted, names, arms[index])?;
    }
    Ok(sorted)
}

// Puts an arm after those at the front whose labels come before its own.
#[tactic(auto, using(crate::proofs::Ascents::place_within, crate::proofs::Ascents::put_place))]
fn insert_arm(sorted: &mut Vec<Arm>, names: &Names, arm: Arm) -> Result<(), Memory>
    ensures { OnOk result (sorted.new.items ≡ inserted (label_in names.now) arm sorted.old.items) }
{
    let place = place_in(names, sorted.as_slice(), word_of(names, arm.0));
    sorted.insert(place, arm)?;
    Ok(())
}

// How many arms at the front have labels before this word.
#[tactic(auto, using(crate::proofs::Ascents::place_further, crate::proofs::Ascents::place_there))]
fn place_in(names: &Names, arms: &[Arm], word: &[u8]) -> usize
    ensures { result ≡ place_in (label_in names.now) word.now arms.now }
{
    for (place, arm) in arms.iter().enumerate() {
        if !word_of(names, arm.0).cmp(&word).is_lt() {
            return place;
        }
    }
    arms.len()
}
