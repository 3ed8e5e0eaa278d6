//! What a call takes away.

ghost use Rattle.std.specs.Prelude.{ℕ, ◌≡◌, ◌<◌, [], true, false, map, length, IfOk, OnOk};
ghost use Rattle.chor_base.specs.declared.names.NameId.{NameId};
ghost use Rattle.chor_tree.specs.Children.{children_of};
ghost use Rattle.chor_tree.specs.Forms.{head_of};
ghost use Rattle.linear_check.specs.Sets.{holds};
ghost use Rattle.linear_check.specs.Takes.{TakesInCall, TakesAtTail};
ghost use Rattle.linear_check.specs.Weights.{form_weight, IsLighterBelow, IsNoHeavier};

use crate::heard::Heard;
use crate::sets::{Parameter, Sets};
use chor_base::{List, Memory, NameId};
use chor_tree::{Form, Named};

impl Heard {
    // Takes away the parameters for which a tail passes a process that hasn't heard, and whether
    // there was one.
    pub fn take_at(&self, form: &Form, sets: &mut Sets) -> Result<bool, Memory>
        requires { children_of form.now ≡ [] }
        ensures taken { OnOk result (TakesAtTail self.now (head_of form.now) sets.old sets.new) }
        ensures same { IfOk result (λ changed. changed ≡ false → sets.new ≡ sets.old) }
        ensures lighter { OnOk result (IsNoHeavier sets.new sets.old) }
        ensures falls { IfOk result (λ changed. changed ≡ true → form_weight sets.new form.now < form_weight sets.old form.now) }
    {
        match form {
            Form::Call {
                name,
                processes,
                ..
            } => self.take_in_call(name.name, processes, sets),
            _ => Ok(false),
        }
    }

    fn take_in_call(
        &self,
        procedure: NameId,
        processes: &List<Named>,
        sets: &mut Sets,
    ) -> Result<bool, Memory>
        ensures taken { OnOk result (TakesInCall self.now procedure processes.now sets.old sets.new) }
        ensures same { IfOk result (λ changed. changed ≡ false → sets.new ≡ sets.old) }
        ensures lighter { OnOk result (IsNoHeavier sets.new sets.old) }
        ensures falls { IfOk result (λ changed. changed ≡ true → IsLighterBelow procedure (length processes.now) sets.new sets.old) }
    {
        let mut changed = false;
        for place in 0..processes.count() {
            let process = processes.at(place as usize);
            let taken = sets.take(Parameter { procedure, place }, self.get(process.name))?;
            changed |= taken;
        }
        Ok(changed)
    }
}
