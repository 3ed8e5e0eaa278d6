//! The greatest sets of the channels of a group, and the first unordered start under these.

ghost use Rattle.std.specs.Prelude.{ℕ, ◌≡◌, true, false, IfOk, OnOk};
ghost use Rattle.chor_base.specs.Faults.{IsFirst};
ghost use Rattle.linear_check.specs.Weights.{IsLighter, IsNoHeavier};
ghost use Rattle.linear_check.specs.Greatest.{HearsInSet, TakesIn, AreAllUpper, AreAllGreatest, IsUnorderedUnder};

use crate::group::Group;
use crate::heard::Heard;
use crate::sets::{Parameter, Sets};
use chor_base::{Fault, Memory, earlier};
use chor_tree::Proc;
use std::alloc::Global;

impl<'a> Group<'a> {
    // The greatest sets of these channels. Walks of all bodies take parameters away until a walk
    // of all takes none, which comes to an end since there are so many to take. Every other walk
    // goes backwards, so that it doesn't matter whether procedures call earlier or later ones.
    pub fn greatest_sets(&self, alloc: Global) -> Result<Sets, Memory>
        ensures { IfOk result (AreAllGreatest self.now.file.now self.now.channels.names.now) }
    {
        let mut sets = Sets::full(alloc);
        loop {
            let changed = self.take_in_all(alloc, &mut sets)?;
            if !changed {
                return Ok(sets);
            }
            self.take_backwards(alloc, &mut sets)?;
        }
    }

    // One walk of all bodies, and whether it took a parameter away.
    fn take_in_all(&self, alloc: Global, sets: &mut Sets) -> Result<bool, Memory>
        ensures upper { let channels = self.now.channels.names.now in OnOk result (AreAllUpper self.now.file.now channels sets.old → AreAllUpper self.now.file.now channels sets.new) }
        ensures settled { let channels = self.now.channels.names.now in IfOk result (λ changed. changed ≡ false → AreAllUpper self.now.file.now channels sets.old → AreAllGreatest self.now.file.now channels sets.new) }
        ensures falls { IfOk result (λ changed. changed ≡ true → IsLighter self.now.file.now.tree.nodes sets.new sets.old) }
    {
        let mut changed = false;
        for procedure in self.file.procs.as_slice() {
            let taken = self.take_in_procedure(alloc, procedure, sets)?;
            changed |= taken;
        }
        let everyone = Heard::everyone(alloc);
        let last = self.take_from(alloc, everyone, self.file.body, sets)?;
        Ok(changed | last)
    }

    // One walk of all procedures, the last one first.
    fn take_backwards(&self, alloc: Global, sets: &mut Sets) -> Result<(), Memory>
        ensures upper { let channels = self.now.channels.names.now in OnOk result (AreAllUpper self.now.file.now channels sets.old → AreAllUpper self.now.file.now channels sets.new) }
        ensures lighter { OnOk result (IsNoHeavier sets.new sets.old) }
    {
        let mut left = self.file.procs.len();
        while left > 0 {
            left -= 1;
            self.take_in_procedure(alloc, self.file.procs.at(left), sets)?;
        }
        Ok(())
    }

    fn take_in_procedure(
        &self,
        alloc: Global,
        procedure: &Proc,
        sets: &mut Sets,
    ) -> Result<bool, Memory>
        ensures taken { OnOk result (TakesIn self.now.file.now self.now.channels.names.now procedure.now sets.old sets.new) }
        ensures same { IfOk result (λ changed. changed ≡ false → sets.new ≡ sets.old) }
        ensures lighter { OnOk result (IsNoHeavier sets.new sets.old) }
        ensures falls { IfOk result (λ changed. changed ≡ true → IsLighter self.now.file.now.tree.nodes sets.new sets.old) }
    {
        let heard = heard_in(alloc, procedure, sets)?;
        self.take_from(alloc, heard, procedure.body, sets)
    }

    // The first start that isn't ordered under these sets.
    pub fn first_under(&self, alloc: Global, sets: &Sets) -> Result<Option<Fault>, Memory>
        ensures { IfOk result (IsFirst (IsUnorderedUnder self.now.file.now self.now.channels.names.now sets.now)) }
    {
        let everyone = Heard::everyone(alloc);
        let mut first = self.first_from(alloc, everyone, self.file.body)?;
        for procedure in self.file.procs.as_slice() {
            let heard = heard_in(alloc, procedure, sets)?;
            let found = self.first_from(alloc, heard, procedure.body)?;
            first = earlier(first, found);
        }
        Ok(first)
    }
}

// Who has heard of what where a procedure begins: the parameters in its sets.
fn heard_in(alloc: Global, procedure: &Proc, sets: &Sets) -> Result<Heard, Memory>
    ensures { IfOk result (HearsInSet sets.now procedure.now) }
{
    let mut heard = Heard::nobody(alloc);
    for place in 0..procedure.params.count() {
        let param = procedure.params.at(place as usize);
        let parameter = Parameter {
            procedure: procedure.name.name,
            place,
        };
        heard.add(param.name.name, sets.get(parameter))?;
    }
    Ok(heard)
}
