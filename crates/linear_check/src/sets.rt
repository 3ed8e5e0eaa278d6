//! The parameters in the sets of procedures, for up to 128 channels at a time.

ghost use Rattle.std.specs.Prelude.{ℕ, ◌≡◌, ◌<◌, ◌≤◌, ◌&&◌, ◌==◌, true, false, IfOk, OnOk, if◌then◌else◌};
ghost use Rattle.chor_base.specs.declared.names.NameId.{NameId};
ghost use Rattle.linearity.specs.Marks.{is_marked};
ghost use Rattle.linearity.specs.Marks.{bits_of};
ghost use Rattle.linear_check.specs.Sets.{holds};
ghost use Rattle.linear_check.specs.Weights.{weight_at, IsLighterAt, IsNoHeavier};

use chor_base::{Memory, NameId};
use linearity::Marks;
use std::alloc::Global;
use std::collections::HashMap;

// A parameter of the procedures of a name, by its place.
#[derive(Clone, Copy, PartialEq, Eq, Hash)]
pub struct Parameter {
    pub procedure: NameId,
    pub place: u32,
}

// For each parameter the channels in whose sets it is.
pub struct Sets {
    marks: HashMap<Parameter, Marks>,
}

impl Drop for Sets {
    fn drop(self) {
        let Sets { marks: _ } = self;
    }
}

impl Sets {
    // All parameters are in all sets.
    pub fn full(alloc: Global) -> Self
        ensures { (c : ℕ) (f : NameId) (i : ℕ) → c < 128 → holds result c f i ≡ true }
    {
        Sets {
            marks: HashMap::new(alloc),
        }
    }

    // The channels in whose sets a parameter is.
    pub fn get(&self, parameter: Parameter) -> Marks
        ensures weight { bits_of result ≤ weight_at self.now parameter.procedure parameter.place }
        ensures holds { (c : ℕ) → c < 128 → is_marked result c ≡ holds self.now c parameter.procedure parameter.place }
    {
        match self.marks.get(&parameter) {
            Some(marks) => *marks,
            None => Marks::all(),
        }
    }

    // A parameter leaves the sets of all channels but these, and whether it was in one of those.
    pub fn take(&mut self, parameter: Parameter, marks: Marks) -> Result<bool, Memory>
        ensures taken { OnOk result ((c : ℕ) (f : NameId) (i : ℕ) → c < 128 → holds self.new c f i ≡ (if (parameter.procedure.0 == f.0) && (parameter.place == i) then holds self.old c f i && is_marked marks c else holds self.old c f i)) }
        ensures same { IfOk result (λ changed. changed ≡ false → self.new ≡ self.old) }
        ensures lighter { OnOk result (IsNoHeavier self.new self.old) }
        ensures falls { IfOk result (λ changed. changed ≡ true → IsLighterAt parameter.procedure parameter.place self.new self.old) }
    {
        let old = self.get(parameter);
        let new = old.and(marks);
        if new == old {
            return Ok(false);
        }
        self.marks.insert(parameter, new)?;
        Ok(true)
    }
}
