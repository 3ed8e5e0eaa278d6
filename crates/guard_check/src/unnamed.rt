//! Lists of the parameters that no node has named.

ghost use Rattle.std.specs.Prelude.{◌≡◌, ◌&&◌, not, map, IfOk};
ghost use Rattle.chor_base.specs.declared.names.NameId.{NameId};
ghost use Rattle.chor_tree.specs.Forms.{head_of};
ghost use Rattle.chor_tree.specs.Names.{is_among};
ghost use Rattle.typing_rules.specs.Guarded.{named_by};

use crate::nodes::names;
use chor_base::{List, Memory, NameId};
use chor_tree::{Form, ProcParam};
use std::alloc::Global;

pub fn names_of_params(alloc: Global, params: &[ProcParam]) -> Result<List<NameId>, Memory>
    ensures { IfOk result (λ list. list ≡ map (λ q. q.name.name) params.now) }
{
    let mut list = List::new(alloc);
    for param in params {
        list.push(param.name.name)?;
    }
    Ok(list)
}

// Those of some processes that a node doesn't name.
pub fn unnamed_after(
    alloc: Global,
    processes: &[NameId],
    form: &Form,
) -> Result<List<NameId>, Memory>
    ensures { IfOk result (λ list. (p : NameId) → is_among list p ≡ (is_among processes.now p && not (is_among (named_by (head_of form.now)) p))) }
{
    let mut list = List::new(alloc);
    for process in processes {
        let named = names(form, *process);
        if !named {
            list.push(*process)?;
        }
    }
    Ok(list)
}
