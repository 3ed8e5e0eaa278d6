//! Walks of bodies.

ghost use Rattle.std.specs.Prelude.{ℕ, ◌≡◌, true, false, IfOk, OnOk, option_copied, slice_get};
ghost use Rattle.chor_base.specs.Faults.{IsFirst, earlier, fault_if, first_of_all};
ghost use Rattle.chor_tree.specs.Source.{body_of};
ghost use Rattle.well_formed.specs.Linear.{Members};
ghost use Rattle.linear_check.specs.Takes.{TakesAway};
ghost use Rattle.linear_check.specs.Weights.{IsLighter, IsNoHeavier};
ghost use Rattle.linear_check.specs.Tracks.{Tracks, IsUnorderedOfAny};

use crate::group::Group;
use crate::heard::Heard;
use crate::sets::Sets;
use chor_base::{Fault, Memory, Place, Rule, earlier};
use chor_tree::{Following, Node, NodeId, what_follows};
use std::alloc::Global;

impl<'a> Group<'a> {
    fn node_at(&self, id: NodeId) -> Option<&'a Node>
        ensures { option_copied result ≡ slice_get self.now.file.now.tree.nodes id.0 }
    {
        self.file.tree.nodes.as_slice().get(id.0 as usize)
    }

    // Takes away the parameters for which a call from a node on passes a process that hasn't heard,
    // and whether there was one.
    pub fn take_from(
        &self,
        alloc: Global,
        heard: Heard,
        id: NodeId,
        sets: &mut Sets,
    ) -> Result<bool, Memory>
        ensures taken { let channels = self.now.channels.names.now in OnOk result ((m : ℕ → Members) → Tracks channels heard m → TakesAway channels m (body_of self.now.file.now id) sets.old sets.new) }
        ensures same { IfOk result (λ changed. changed ≡ false → sets.new ≡ sets.old) }
        ensures lighter { OnOk result (IsNoHeavier sets.new sets.old) }
        ensures falls { IfOk result (λ changed. changed ≡ true → IsLighter self.now.file.now.tree.nodes sets.new sets.old) }
    {
        let mut heard = heard;
        let mut at = id;
        while let Some(node) = self.node_at(at) {
            match what_follows(&node.form) {
                Following::Nothing => return heard.take_at(&node.form, sets),
                Following::One(next) => {
                    heard.after(alloc, &self.channels, &node.form)?;
                    at = next;
                }
                Following::Either(one, other) => {
                    let same = heard.copy(alloc)?;
                    let first = self.take_from(alloc, same, one, sets)?;
                    let second = self.take_from(alloc, heard, other, sets)?;
                    return Ok(first | second);
                }
            }
        }
        Ok(false)
    }

    // The first unordered start from a node on.
    pub fn first_from(
        &self,
        alloc: Global,
        heard: Heard,
        id: NodeId,
    ) -> Result<Option<Fault>, Memory>
        ensures { let channels = self.now.channels.names.now in IfOk result (λ first. (m : ℕ → Members) → Tracks channels heard m → IsFirst (IsUnorderedOfAny channels m (body_of self.now.file.now id)) first) }
    {
        let mut heard = heard;
        let mut first = None;
        let mut at = id;
        while let Some(node) = self.node_at(at) {
            let misses = heard.misses(&self.channels, &node.form);
            first = first_with(first, misses, node.place);
            match what_follows(&node.form) {
                Following::Nothing => return Ok(first),
                Following::One(next) => {
                    heard.after(alloc, &self.channels, &node.form)?;
                    at = next;
                }
                Following::Either(one, other) => {
                    let same = heard.copy(alloc)?;
                    let here = self.first_from(alloc, same, one)?;
                    let there = self.first_from(alloc, heard, other)?;
                    let branches = earlier(here, there);
                    return Ok(earlier(first, branches));
                }
            }
        }
        Ok(first)
    }
}

// The first of what was found before and of the fault at a node, if the node misses.
fn first_with(first: Option<Fault>, misses: bool, place: Place) -> Option<Fault>
    ensures { result ≡ earlier first (first_of_all (fault_if misses Rule.U2 place)) }
{
    if misses {
        let fault = Fault {
            rule: Rule::U2,
            place,
        };
        return earlier(first, Some(fault));
    }
    first
}
