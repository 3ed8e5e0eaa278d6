//! Lists of arms.

ghost use Rattle.std.specs.Prelude.{◌≡◌, ◌++◌, false, IfSome, IfNone, OnOk, List};
ghost use Rattle.endpoint_code.specs.Trees.{CodeTree, arms_in};
ghost use Rattle.endpoint_code.specs.Labels.{has_label};
ghost use Rattle.branch_merge.specs.Merging.{IsPlaceOf};

use chor_base::{List, Memory, NameId};
use endpoint_code::CodeId;

/// The place of an arm of this label.
pub fn place_of(arms: &[(NameId, CodeId)], label: NameId) -> Option<usize>
    ensures found { IfSome result (IsPlaceOf arms.now label) }
    ensures absent { IfNone result ((ts : List CodeTree) → has_label label (arms_in ts arms.now) ≡ false) }
{
    for place in 0..arms.len() {
        if arms[place].0 == label {
            return Some(place);
        }
    }
    None
}

/// Adds arms after all others.
pub fn append(list: &mut List<(NameId, CodeId)>, more: &[(NameId, CodeId)]) -> Result<(), Memory>
    ensures { OnOk result (list.new ≡ list.old ++ more.now) }
{
    for arm in more {
        list.push(*arm)?;
    }
    Ok(())
}
