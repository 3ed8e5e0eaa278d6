//! Sets of names.

ghost use Rattle.std.specs.Prelude.{◌≡◌, [], length, take, not, IfOk, OnOk};
ghost use Rattle.chor_base.specs.declared.rule.Rule.TheVariants.{N1, N2};
ghost use Rattle.chor_tree.specs.Names.{is_among, fault_at, unknown};
ghost use Rattle.chor_base.specs.Faults.{first_of_all};
ghost use Rattle.name_resolution.specs.Sets.{with_name};

use chor_base::{Fault, Memory, NameId, Rule, fault_if};
use chor_tree::Named;
use indexmap::IndexSet;
use std::alloc::Global;
use std::marker::Model;

// Names, each once, in the order in which they came.
pub struct NameSet {
    names: IndexSet<NameId>,
}

impl Drop for NameSet {
    fn drop(self) {
        let NameSet { names: _ } = self;
    }
}

impl Model for NameSet {
    ghost use Rattle.std.specs.Prelude.{List};
    ghost use Rattle.chor_base.specs.declared.names.NameId.{NameId};

    ghost Value = { List NameId };

    ghost view = { λ a. a.names.keys };
}

impl NameSet {
    // No names. It takes no memory.
    pub fn new(alloc: Global) -> Self
        ensures { result ≡ [] }
    {
        NameSet {
            names: IndexSet::new(alloc),
        }
    }

    pub fn len(&self) -> usize
        ensures { result ≡ length self.now }
    {
        self.names.len()
    }

    #[tactic(auto, using(crate::proofs::Members::among_turned))]
    pub fn has(&self, name: NameId) -> bool
        ensures { result ≡ is_among self.now name }
    {
        self.names.contains(&name)
    }

    // A name comes into the set, and whether it is new there.
    #[tactic(auto, using(crate::proofs::Members::among_turned))]
    pub fn add(&mut self, name: NameId) -> Result<bool, Memory>
        ensures names { OnOk result (self.new ≡ with_name self.old name) }
        ensures new { IfOk result (λ b. b ≡ not (is_among self.old name)) }
    {
        let (_, is_new) = self.names.insert_full(name)?;
        Ok(is_new)
    }

    // Only so many of the names stay, the first ones.
    pub fn back_to(&mut self, len: usize)
        ensures { self.new ≡ take len self.old }
    {
        self.names.truncate(len);
    }

    // A name that isn't in the set.
    pub fn unknown(&self, name: &Named) -> Option<Fault>
        ensures { result ≡ first_of_all (unknown self.now name.now) }
    {
        fault_if(!self.has(name.name), Rule::N1, name.place)
    }

    // A name that is in the set already. It is in the set afterwards.
    pub fn add_once(&mut self, name: &Named) -> Result<Option<Fault>, Memory>
        ensures names { OnOk result (self.new ≡ with_name self.old name.now.name) }
        ensures fault { IfOk result (λ o. o ≡ first_of_all (fault_at (is_among self.old name.now.name) N2 name.now)) }
    {
        let is_new = self.add(name.name)?;
        Ok(fault_if(!is_new, Rule::N2, name.place))
    }
}
