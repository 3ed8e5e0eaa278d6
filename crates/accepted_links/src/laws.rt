//! What holds of all given endpoint programs that can't be linked.

ghost use Rattle.accepted_links.specs.Laws.{LinkedHasNoFault, OneLinkFault};

/// Where there are linked programs, no given unit fails.
pub fn linked_has_no_fault()
    ensures { LinkedHasNoFault }
{}

/// One unit at most is the first that fails, by one rule.
pub fn one_link_fault()
    ensures { OneLinkFault }
{}
