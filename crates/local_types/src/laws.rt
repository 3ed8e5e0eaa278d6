//! What holds of every type that stands for a role's view, and so of each that `local` answers.

ghost use Rattle.std.specs.Prelude.{◌≡◌, ◌↔◌, ℕ, List, Some, slice_get};
ghost use Rattle.chor_base.specs.declared.names.NameId.{NameId};
ghost use Rattle.chor_base.specs.Words.{AllDistinct};
ghost use Rattle.chor_tree.specs.declared.protocol.State.{State};
ghost use Rattle.global_types.specs.Paths.{Action, IsView, At};
ghost use Rattle.local_types.specs.declared.local_type.LocalState.{LocalState};
ghost use Rattle.local_types.specs.Reading.{LeadsTo, AreSame, IsTypeOf};
ghost use Rattle.local_types.specs.Numbers.{IsCarriedOver};
ghost use Rattle.local_types.specs.Text.{HasNamedLabels, HasOneText};

/// A list of actions leads to a state of the type exactly if the role's view holds it.
pub fn view_leads_to_states()
    ensures { (ss : List State) (r : NameId) (ts : List LocalState) (w : List Action) → IsTypeOf ss r ts → (IsView ss r w) ↔ ((n : ℕ) × (t : LocalState) × LeadsTo ts 0 w n × (slice_get ts n ≡ Some t)) }
{}

/// A list of actions leads to one state at most.
pub fn one_state()
    ensures { (ss : List State) (r : NameId) (ts : List LocalState) (w : List Action) (n m : ℕ) → IsTypeOf ss r ts → LeadsTo ts 0 w n → LeadsTo ts 0 w m → n ≡ m }
{}

/// Two lists of actions lead to the same state exactly if they leave the protocol in the same set of
/// states: a state of the type is such a set.
pub fn states_are_sets()
    ensures { (ss : List State) (r : NameId) (ts : List LocalState) (v w : List Action) (n m : ℕ) → IsTypeOf ss r ts → LeadsTo ts 0 v n → LeadsTo ts 0 w m → (n ≡ m) ↔ AreSame (At ss r v) (At ss r w) }
{}

/// The text of a role's type is one text, where each label has a name of its own: what `local` says of
/// its types leaves nothing free that is printed.
pub fn one_text()
    ensures { (names : List (List ℕ)) (ss : List State) (r : NameId) → AllDistinct names → HasNamedLabels names ss → HasOneText names ss r }
{}

/// Two types of a role differ in the numbers of their states alone: each state of the one is one
/// state of the other.
pub fn only_numbers_are_free()
    ensures { (ss : List State) (r : NameId) (ts us : List LocalState) → IsTypeOf ss r ts → IsTypeOf ss r us → IsCarriedOver ts us × IsCarriedOver us ts }
{}
