//! Endpoint programs with the same units have the same faults.

ghost use Rattle.projected_programs.specs.CopyLaws.{CopiesAreFaultless, CopiesAreMutual, CopiesAskKnown};

/// A copy of programs without a fault has none, so what holds of a copy holds of what it is a copy of.
pub fn copies_are_faultless()
    ensures faultless { CopiesAreFaultless }
    ensures back { CopiesAreMutual }
{}

/// A copy asks the same host functions.
pub fn copies_ask_known()
    ensures { CopiesAskKnown }
{}
