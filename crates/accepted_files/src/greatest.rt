//! Greatest sets exist, so that a file in which no start is a fault is linear.

ghost use Rattle.accepted_files.specs.GreatestSets.{GreatestSetsExist, FaultlessIsLinear};

/// Each channel has greatest sets of parameters that meet the condition on calls.
pub fn greatest_sets_exist()
    ensures { GreatestSetsExist }
{}

/// A file without a fault of U2 is linear.
pub fn faultless_is_linear()
    ensures { FaultlessIsLinear }
{}
