//! What a generated file is, and that it violates no rule: its names, protocols and views, its types
//! and calls, the order of its starts and the merging of its codes are without fault.
#![tactic(auto)]

ghost use Rattle.std.specs.Prelude.{◌≡◌, ◌≤◌, [], IfOk};
ghost use Rattle.generated_files.specs.Laws.{GeneratedNamesAreResolved, GeneratedProtocolsAreFine, GeneratedViewsAreFine, GeneratedIsTyped, GeneratedIsGuarded, GeneratedIsOrdered, GeneratedBranchesMerge, GeneratedStartsMerge, HasNoFault, GeneratedHasNoFault, GeneratedIsDeniedByMemory};
ghost use Rattle.generated_files.specs.Generated.{IsGenerated};

use chor_base::Memory;
use chor_tree::File;
use std::alloc::Global;

/// Each name of a generated file is declared where it is used, and once.
pub fn generated_names_are_resolved()
    ensures { GeneratedNamesAreResolved }
{}

/// Both protocols name states that are there, and use their roles.
pub fn generated_protocols_are_fine()
    ensures { GeneratedProtocolsAreFine }
{}

/// Neither protocol has a circle, and each exchange is seen by those who act on it.
pub fn generated_views_are_fine()
    ensures { GeneratedViewsAreFine }
{}

/// Each procedure of a generated file is typed: its session ends before the next one is called, and
/// an odd round sets the number that an even one needs.
pub fn generated_is_typed()
    ensures { GeneratedIsTyped }
{}

/// Each procedure of a generated file begins with a start by both of its parameters.
pub fn generated_is_guarded()
    ensures { GeneratedIsGuarded }
{}

/// Each round starts its channel by p and q, which hear of all starts.
pub fn generated_is_ordered()
    ensures { GeneratedIsOrdered }
{}

/// In an even round q learns by a label which branch p took.
pub fn generated_branches_merge()
    ensures { GeneratedBranchesMerge }
{}

/// The new process of each odd round does the same, whatever the round.
pub fn generated_starts_merge()
    ensures { GeneratedStartsMerge }
{}

/// A generated file has no fault of names, protocols, views, types, linearity and merging, so that it
/// is refused by no rule.
pub fn generated_is_accepted()
    ensures faultless { GeneratedHasNoFault }
    ensures denied { GeneratedIsDeniedByMemory }
{}

/// The file of `chor_gen::generate`, with what is known of it.
pub fn generate_faultless(alloc: Global, count: u32) -> Result<File, Memory>
    requires some { 1 ≤ count }
    requires few { count ≤ 4000 }
    ensures generated { IfOk result (λ file. IsGenerated file count) }
    ensures texts { IfOk result (λ file. file.texts ≡ []) }
    ensures faultless { IfOk result HasNoFault }
{
    let file = chor_gen::generate(alloc, count)?;
    generated_is_accepted();
    Ok(file)
}
