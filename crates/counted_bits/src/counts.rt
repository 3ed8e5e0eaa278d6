//! One level of counts, each of which is what 16 items of the level below come to.

ghost use Rattle.std.specs.Prelude.{◌≡◌, ◌+◌, ◌-◌, ◌*◌, ◌<◌, ◌≤◌, ◌^◌, length, slice_index, slice_set, OnOk, IfSome};
ghost use Rattle.std.specs.List.{sum_by};
ghost use Rattle.counted_bits.specs.Counts.{one, itself, before, IsReached, IsGrown};

use chor_base::Memory;

// Where an amount is reached, and what of it the items before that place leave.
#[derive(Clone, Copy)]
pub struct Reached {
    pub place: usize,
    pub rest: u32,
}

// What a bit counts.
pub fn one(bit: bool) -> u32
    ensures { result ≡ one bit }
{
    if bit { 1 } else { 0 }
}

// A count becomes one more.
pub fn raise(counts: &mut Vec<u32>, place: usize)
    requires place { place < length counts.old.items }
    requires room { slice_index counts.old.items place + 1 < 2 ^ 32 }
    ensures { counts.new.items ≡ slice_set counts.old.items place (slice_index counts.old.items place + 1) }
{
    counts[place] += 1;
}

// A count becomes one less.
pub fn lower(counts: &mut Vec<u32>, place: usize)
    requires place { place < length counts.old.items }
    requires some { 0 < slice_index counts.old.items place }
    ensures { counts.new.items ≡ slice_set counts.old.items place (slice_index counts.old.items place - 1) }
{
    counts[place] -= 1;
}

// Has a count for one item more than there are below.
pub fn make_room(counts: &mut Vec<u32>, items: usize) -> Result<(), Memory>
    requires { items ≤ 16 * length counts.old.items }
    ensures ok { OnOk result (items < 16 * length counts.new.items) }
    ensures grown { IsGrown counts.old.items counts.new.items }
{
    if items / 16 >= counts.len() {
        counts.push(0)?;
    }
    Ok(())
}

// Where an amount is reached among the items from a place on, where the items before it are done with.
pub fn find(counts: &[u32], start: usize, rest: u32) -> Reached
    requires { before itself start counts.now + rest < sum_by itself counts.now }
    ensures { IsReached itself counts.now (before itself start counts.now + rest) result.place result.rest }
{
    let mut place = start;
    let mut rest = rest;
    while rest >= counts[place] {
        rest -= counts[place];
        place += 1;
    }
    Reached { place, rest }
}

// The same among bits.
pub fn find_bit(bits: &[bool], start: usize, rest: u32) -> Reached
    requires { before one start bits.now + rest < sum_by one bits.now }
    ensures { IsReached one bits.now (before one start bits.now + rest) result.place result.rest }
{
    let mut place = start;
    let mut rest = rest;
    while rest >= one(bits[place]) {
        rest -= one(bits[place]);
        place += 1;
    }
    Reached { place, rest }
}

// What of an amount the items before a place leave, if it is reached at that place, where those items
// come to `start`.
pub fn rest_at(counts: &[u32], place: usize, start: u32, amount: u32) -> Option<u32>
    requires { start ≡ before itself place counts.now }
    ensures { IfSome result (IsReached itself counts.now amount place) }
{
    let count = *counts.get(place)?;
    if amount < start || amount - start >= count {
        return None;
    }
    Some(amount - start)
}
