//! Both checks together, as one class of rules.

ghost use Rattle.std.specs.Prelude.{◌≡◌, None, IfOk, OnOk, IfErr};
ghost use Rattle.chor_base.specs.Faults.{IsFirst, IsDenial};
ghost use Rattle.typing_rules.specs.Guarded.{IsGuarded};
ghost use Rattle.linearity.specs.OrderFaults.{IsLinearFile};
ghost use Rattle.linear_check.specs.Class.{IsLinearityFault};

use crate::checking::first_unordered;
use chor_base::{Denied, Fault, Memory, earlier};
use chor_tree::File;
use guard_check::first_unguarded;
use std::alloc::Global;

/// Checks that a file is guarded and linear.
///
/// The first of the calls that violate U1 and the starts that violate U2 is refused by its rule.
pub fn check_linearity(alloc: Global, file: &File) -> Result<(), Denied>
    ensures guarded { OnOk result (IsGuarded file.now) }
    ensures linear { OnOk result (IsLinearFile file.now) }
    ensures refused { IfErr result (IsDenial (IsLinearityFault file.now)) }
{
    match first_fault(alloc, file)? {
        None => Ok(()),
        Some(fault) => Err(fault.denied()),
    }
}

/// The first of the calls of a file that violate U1 and of the starts that violate U2.
pub fn first_fault(alloc: Global, file: &File) -> Result<Option<Fault>, Memory>
    ensures first { IfOk result (IsFirst (IsLinearityFault file.now)) }
    ensures linear { IfOk result (λ first. first ≡ None → IsLinearFile file.now) }
{
    let unguarded = first_unguarded(alloc, file)?;
    let unordered = first_unordered(alloc, file)?;
    Ok(earlier(unguarded, unordered))
}
