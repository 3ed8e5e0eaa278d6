//! Up to 128 channels, and which of them have a name.

ghost use Rattle.std.specs.Prelude.{ℕ, ◌≡◌, ◌<◌, ◌≤◌, not, false, length};
ghost use Rattle.linearity.specs.Marks.{is_marked};
ghost use Rattle.linear_check.specs.Tracks.{channel_at};
ghost use Rattle.linear_check.specs.Starts.{has_name};

use chor_base::NameId;
use linearity::Marks;

// Up to 128 channels, with the least and the greatest number of their names. In a file with many
// channels most starts are of none of these, and mostly the bounds alone tell so.
#[derive(Clone, Copy)]
pub struct Channels<'a> {
    pub names: &'a [NameId],
    least: u32,
    greatest: u32,
    ghost few: { length names.now ≤ 128 },
    ghost above: { (c : ℕ) → c < length names.now → least ≤ (channel_at names.now c).0 },
    ghost below: { (c : ℕ) → c < length names.now → (channel_at names.now c).0 ≤ greatest },
}

impl<'a> Channels<'a> {
    // The channels of these names.
    pub fn new(names: &'a [NameId]) -> Self
        requires { length names.now ≤ 128 }
        ensures { result.names.now ≡ names.now }
    {
        let mut least = u32::MAX;
        let mut greatest = 0;
        for name in names {
            least = least.min(name.0);
            greatest = greatest.max(name.0);
        }
        Channels {
            names,
            least,
            greatest,
        }
    }

    // Whether one of them may have a name.
    pub fn may_have(&self, name: NameId) -> bool
        ensures { result ≡ false → (c : ℕ) → c < length self.now.names.now → has_name self.now.names.now c name ≡ false }
    {
        self.least <= name.0 && name.0 <= self.greatest
    }

    // Those that have a name.
    pub fn named(&self, name: NameId) -> Marks
        ensures { (c : ℕ) → c < length self.now.names.now → is_marked result c ≡ has_name self.now.names.now c name }
    {
        let mut marks = Marks::none();
        if !self.may_have(name) {
            return marks;
        }
        for (number, channel) in self.names.iter().enumerate() {
            if name == *channel {
                marks = marks.with(number as u32);
            }
        }
        marks
    }

    // Those that have another name.
    pub fn not_named(&self, name: NameId) -> Marks
        ensures { (c : ℕ) → c < length self.now.names.now → is_marked result c ≡ not (has_name self.now.names.now c name) }
    {
        let mut marks = Marks::all();
        for (number, channel) in self.names.iter().enumerate() {
            if name == *channel {
                marks = marks.without(number as u32);
            }
        }
        marks
    }
}
