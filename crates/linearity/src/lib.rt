//! Which files are linear.
#![tactic(auto)]

ghost use Rattle.std.specs.Prelude.{◌≡◌, List, All, Contains, true};
ghost use Rattle.chor_base.specs.declared.names.NameId.{NameId};
ghost use Rattle.chor_base.specs.declared.fault.Fault.{Fault};
ghost use Rattle.chor_tree.specs.declared.file.File.{File};
ghost use Rattle.chor_tree.specs.declared.file.Service.{Service};
ghost use Rattle.chor_semantics.specs.Choreography.{Choreography};
ghost use Rattle.chor_semantics.specs.Sources.{Procedure, procedures_of};
ghost use Rattle.well_formed.specs.Linear.{ParameterSets, everyone, IsLinear, AllLinear};
ghost use Rattle.linearity.specs.Linear.{set_of, MeetsStarts, AreWithin, IsLinearFor, IsGreatest};
ghost use Rattle.linearity.specs.Taken.{taken, AreUpper};
ghost use Rattle.linearity.specs.OrderFaults.{main_of, IsOrderFault, IsLinearFile};

mod marks;

pub use marks::Marks;

/// The greatest sets decide: a file is linear for a channel exactly where each start of the channel
/// is ordered under them. There is one greatest assignment.
pub fn greatest_sets_decide()
    ensures needed { (procs : List Procedure) (main : Choreography) (a : NameId) (sets : ParameterSets) → IsGreatest procs main a sets → IsLinearFor procs main a → MeetsStarts procs main a sets }
    ensures enough { (procs : List Procedure) (main : Choreography) (a : NameId) (sets : ParameterSets) → IsGreatest procs main a sets → MeetsStarts procs main a sets → IsLinearFor procs main a }
    ensures one { (procs : List Procedure) (main : Choreography) (a : NameId) (sets others : ParameterSets) → IsGreatest procs main a sets → IsGreatest procs main a others → AreWithin sets others × AreWithin others sets }
{}

/// The greatest sets are found by taking parameters away, from full sets on: a walk of a body keeps
/// all sets that meet the condition on calls within, and sets from which no walk takes anything are
/// the greatest.
pub fn settled_sets_are_greatest()
    ensures full { (procs : List Procedure) (main : Choreography) (a : NameId) → AreUpper procs main a (λ f i. true) }
    ensures procedure { (procs : List Procedure) (main : Choreography) (a : NameId) (sets : ParameterSets) (h : Procedure) → Contains procs h → AreUpper procs main a sets → AreUpper procs main a (taken a sets (set_of sets h) h.body) }
    ensures main { (procs : List Procedure) (main : Choreography) (a : NameId) (sets : ParameterSets) → AreUpper procs main a sets → AreUpper procs main a (taken a sets everyone main) }
    ensures settled { (procs : List Procedure) (main : Choreography) (a : NameId) (sets : ParameterSets) → AreUpper procs main a sets → All (λ h. AreWithin sets (taken a sets (set_of sets h) h.body)) procs → AreWithin sets (taken a sets everyone main) → IsGreatest procs main a sets }
{}

/// A linear file has no fault of U2. A file without one is linear, where each channel has greatest
/// sets.
pub fn faults_tell_linear_files()
    ensures linear { (f : File) → IsLinearFile f → (x : Fault) → IsOrderFault f x → ⊥ }
    ensures free { (f : File) → ((s : Service) → Contains f.services s → (sets : ParameterSets) × IsGreatest (procedures_of f) (main_of f) s.name.name sets) → ((x : Fault) → IsOrderFault f x → ⊥) → IsLinearFile f }
{}

/// What the correspondence of choreographies and networks asks of a channel holds of one for which
/// the file is linear.
pub fn linear_channels_are_ordered()
    ensures procedures { (procs : List Procedure) (main : Choreography) (a : NameId) (l : IsLinearFor procs main a) → AllLinear a l.sets procs }
    ensures main { (procs : List Procedure) (main : Choreography) (a : NameId) (l : IsLinearFor procs main a) → IsLinear a l.sets everyone main }
{}
