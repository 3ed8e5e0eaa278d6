//! Who has heard of a channel after a node.

ghost use Rattle.std.specs.Prelude.{ℕ, ◌≡◌, ◌<◌, ◌||◌, ◌&&◌, ◌==◌, ◌↔◌, not, length, OnOk, IsTrue};
ghost use Rattle.chor_tree.specs.Forms.{head_of};
ghost use Rattle.well_formed.specs.Linear.{Members};
ghost use Rattle.linearity.specs.Marks.{is_marked};
ghost use Rattle.linear_check.specs.Heard.{hears};
ghost use Rattle.linear_check.specs.Tracks.{Tracks, all_members_by, Misses};
ghost use Rattle.linear_check.specs.Starts.{has_name, members_after_start, IsMissed};

use crate::channels::Channels;
use crate::heard::Heard;
use chor_base::{Memory, NameId};
use chor_tree::{Form, Part};
use linearity::Marks;
use std::alloc::Global;

impl Heard {
    // What a node makes known.
    pub fn after(
        &mut self,
        alloc: Global,
        channels: &Channels<'_>,
        form: &Form,
    ) -> Result<(), Memory>
        ensures { let names = channels.now.names.now in OnOk result ((m : ℕ → Members) → Tracks names self.old m → Tracks names self.new (all_members_by names m (head_of form.now))) }
    {
        match form {
            Form::Start {
                channel,
                active,
                serve,
                ..
            } => {
                let (active, serve) = (active.as_slice(), serve.as_slice());
                self.after_start(alloc, channels, channel.name, active, serve)
            }
            Form::Value { from, to, .. }
            | Form::Label { from, to, .. }
            | Form::Give { from, to, .. } => self.after_message(from, to),
            _ => Ok(()),
        }
    }

    // A message brings its receiver what its sender has heard.
    fn after_message(&mut self, from: &Part, to: &Part) -> Result<(), Memory>
        ensures { OnOk result ((c x : ℕ) → hears self.new c x ≡ (hears self.old c x || ((to.now.process.name.0 == x) && hears self.old c from.now.process.name.0))) }
    {
        let marks = self.get(from.process.name);
        self.add(to.process.name, marks)
    }

    // The processes of a start have heard of its channel, and no other has. Where one of its active
    // processes has heard of another channel, all of them have.
    fn after_start(
        &mut self,
        alloc: Global,
        channels: &Channels<'_>,
        channel: NameId,
        active: &[Part],
        serve: &[Part],
    ) -> Result<(), Memory>
        ensures { let names = channels.now.names.now in OnOk result ((m : ℕ → Members) → Tracks names self.old m → Tracks names self.new (members_after_start names m channel active.now serve.now)) }
    {
        let own = channels.named(channel);
        let brought = self.any_of(active).or(own);
        self.forget(alloc, channels, channel, own)?;
        self.add_all(active, brought)?;
        self.add_all(serve, brought)
    }

    // No process has heard of the channels that have a name, which are these own ones. Where no
    // channel has it, nothing is done.
    fn forget(
        &mut self,
        alloc: Global,
        channels: &Channels<'_>,
        channel: NameId,
        own: Marks,
    ) -> Result<(), Memory>
        requires { (c : ℕ) → c < length channels.now.names.now → is_marked own c ≡ has_name channels.now.names.now c channel }
        ensures { OnOk result ((c x : ℕ) → c < length channels.now.names.now → hears self.new c x ≡ (hears self.old c x && not (has_name channels.now.names.now c channel))) }
    {
        if own == Marks::none() {
            return Ok(());
        }
        let others = channels.not_named(channel);
        self.keep(alloc, others)
    }

    // Whether a node is a start of one of the channels, and one of its active processes hasn't heard
    // of the start of that channel before.
    pub fn misses(&self, channels: &Channels<'_>, form: &Form) -> bool
        ensures { (m : ℕ → Members) → Tracks channels.now.names.now self.now m → IsTrue result ↔ Misses channels.now.names.now m (head_of form.now) }
    {
        match form {
            Form::Start {
                channel,
                active,
                ..
            } => self.misses_start(channels, channel.name, active.as_slice()),
            _ => false,
        }
    }

    // The same for a start of the channel of a name.
    fn misses_start(&self, channels: &Channels<'_>, channel: NameId, active: &[Part]) -> bool
        ensures { IsTrue result ↔ IsMissed channels.now.names.now self.now channel active.now }
    {
        if !channels.may_have(channel) {
            return false;
        }
        let joined = self.all_of(active);
        for (number, name) in channels.names.iter().enumerate() {
            if channel == *name && !joined.has(number as u32) {
                return true;
            }
        }
        false
    }
}
