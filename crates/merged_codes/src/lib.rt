//! What the least code above others is made of; that it asks only known host functions and uses its
//! session names well where they do, and codes that do so.
#![tactic(auto)]

ghost use Rattle.merged_codes.specs.Laws.{LeastIsMade, LeastAsksKnown, TreesTellScopes, LeastIsScoped};

/// The least code above some in which no branch has a label twice is made of them by merging, up to
/// the order of labels. So what merging keeps and the order of labels doesn't change, it keeps.
pub fn least_is_made()
    ensures { LeastIsMade }
{}

/// The least code above some that ask only known host functions asks only known ones.
pub fn least_asks_known()
    ensures { LeastAsksKnown }
{}

/// Where the tree at a number of a table uses its session names well, the code at that number does.
pub fn trees_tell_scopes()
    ensures { TreesTellScopes }
{}

/// The least code above some that use their session names well uses its own well.
pub fn least_is_scoped()
    ensures { LeastIsScoped }
{}
