//! Bits with counts above them.

ghost use Rattle.std.specs.Prelude.{◌≡◌, ◌<◌, ◌+◌, ◌++◌, ◌∷◌, [], ◌^◌, true, false, length, slice_get, slice_set, Some, OnOk, OnErr};
ghost use Rattle.std.specs.List.{sum_by};
ghost use Rattle.counted_bits.specs.Counts.{one, IsInBlock};
ghost use Rattle.counted_bits.specs.Places.{places};

use crate::counts::{Reached, find, find_bit, lower, make_room, one, raise, rest_at};
use chor_base::Memory;
use std::alloc::Global;
use std::marker::Model;

/// Bits in order, fewer than 2^32 of them. Contracts see the list of the bits. A push takes constant
/// time but for the growing of vectors, and `set` constant time. The block of 16 bits where `nth`
/// found the last bit is kept, so that `nth` mostly looks at these 16 bits alone where it is asked
/// for one number after the other. Elsewhere it looks at 16 counts of each level at most, and at one
/// for each 4,096 bits.
pub struct CountedBits {
    bits: Vec<bool>,
    total: u32,
    // How many of each 16 bits are set, of each 16 blocks, and of each 16 groups.
    blocks: Vec<u32>,
    groups: Vec<u32>,
    tops: Vec<u32>,
    // The block where the last bit was found, and how many set bits stand before it.
    block: usize,
    start: u32,
}

impl Drop for CountedBits {
    fn drop(self) {
        let CountedBits {
            bits: _,
            total: _,
            blocks: _,
            groups: _,
            tops: _,
            block: _,
            start: _,
        } = self;
    }
}

impl Model for CountedBits {
    ghost use Rattle.std.specs.Prelude.{List, Bool};

    ghost Value = { List Bool };

    ghost use Rattle.counted_bits.specs.Counts.{IsKept};

    ghost view = { λ a. a.bits.items };

    ghost invariant = { λ a. IsKept a.bits.items a.total a.blocks.items a.groups.items a.tops.items a.block a.start };
}

impl CountedBits {
    /// No bits. It takes no memory.
    pub fn new(alloc: Global) -> Self
        ensures { result ≡ [] }
    {
        CountedBits {
            bits: Vec::new(alloc),
            total: 0,
            blocks: Vec::new(alloc),
            groups: Vec::new(alloc),
            tops: Vec::new(alloc),
            block: 0,
            start: 0,
        }
    }

    /// How many bits there are.
    pub fn len(&self) -> u32
        ensures { result ≡ length self.now }
    {
        self.bits.len() as u32
    }

    /// Adds a bit after all others. 2^32 - 1 bits answer `Memory`.
    pub fn push(&mut self, bit: bool) -> Result<(), Memory>
        ensures ok { OnOk result (self.new ≡ self.old ++ bit ∷ []) }
        ensures err { OnErr result (self.new ≡ self.old) }
        ensures short { length self.new < 2 ^ 32 }
    {
        let place = self.bits.len();
        if place >= u32::MAX as usize {
            return Err(Memory);
        }
        self.push_clear()?;
        if bit {
            self.raise(place);
        }
        Ok(())
    }

    /// Whether the bit at a place is set.
    pub fn get(&self, place: u32) -> bool
        requires { place < length self.now }
        ensures { slice_get self.now place ≡ Some result }
    {
        self.bits[place as usize]
    }

    /// Sets the bit at a place, or clears it. It takes no memory.
    pub fn set(&mut self, place: u32, bit: bool)
        requires { place < length self.old }
        ensures { self.new ≡ slice_set self.old place bit }
    {
        if self.get(place) == bit {
            return;
        }
        if bit {
            self.raise(place as usize);
        } else {
            self.lower(place as usize);
        }
    }

    /// How many bits are set.
    pub fn count(&self) -> u32
        ensures { result ≡ length (places 0 self.now) }
    {
        self.total
    }

    /// The place of the set bit that so many set bits stand before, if there is one. It is found by a
    /// look at 16 bits where it is in the block of the last one, and the block is kept for the next.
    pub fn nth(&mut self, number: u32) -> Option<u32>
        ensures stays { self.new ≡ self.old }
        ensures place { result ≡ slice_get (places 0 self.old) number }
    {
        if number >= self.total {
            return None;
        }
        let block = self.find_block(number);
        self.block = block.place;
        self.start = number - block.rest;
        let bit = find_bit(&self.bits, 16 * block.place, block.rest);
        Some(bit.place as u32)
    }

    // The block of the set bit that so many set bits stand before, and how many of those are in it.
    fn find_block(&self, number: u32) -> Reached
        requires { number < sum_by one self.now }
        ensures { IsInBlock self.now number result.place result.rest }
    {
        match rest_at(&self.blocks, self.block, self.start, number) {
            Some(rest) => Reached {
                place: self.block,
                rest,
            },
            None => self.search_block(number),
        }
    }

    // The same, without the block that is kept.
    fn search_block(&self, number: u32) -> Reached
        requires { number < sum_by one self.now }
        ensures { IsInBlock self.now number result.place result.rest }
    {
        let top = find(&self.tops, 0, number);
        let group = find(&self.groups, 16 * top.place, top.rest);
        find(&self.blocks, 16 * group.place, group.rest)
    }

    // Adds a bit that isn't set.
    fn push_clear(&mut self) -> Result<(), Memory>
        requires { length self.old + 1 < 2 ^ 32 }
        ensures ok { OnOk result (self.new ≡ self.old ++ false ∷ []) }
        ensures err { OnErr result (self.new ≡ self.old) }
    {
        make_room(&mut self.tops, self.groups.len())?;
        make_room(&mut self.groups, self.blocks.len())?;
        make_room(&mut self.blocks, self.bits.len())?;
        self.bits.push(false)?;
        Ok(())
    }

    // Sets a bit that isn't set.
    fn raise(&mut self, place: usize)
        requires { slice_get self.old place ≡ Some false }
        ensures { self.new ≡ slice_set self.old place true }
    {
        let block = place / 16;
        let group = block / 16;
        self.bits[place] = true;
        self.total += 1;
        self.start += one(block < self.block);
        raise(&mut self.blocks, block);
        raise(&mut self.groups, group);
        raise(&mut self.tops, group / 16);
    }

    // Clears a bit that is set.
    fn lower(&mut self, place: usize)
        requires { slice_get self.old place ≡ Some true }
        ensures { self.new ≡ slice_set self.old place false }
    {
        let block = place / 16;
        let group = block / 16;
        self.bits[place] = false;
        self.total -= 1;
        self.start -= one(block < self.block);
        lower(&mut self.blocks, block);
        lower(&mut self.groups, group);
        lower(&mut self.tops, group / 16);
    }
}
