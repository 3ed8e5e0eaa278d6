//! Merging of all codes of a list, as of all starts of a service.
#![tactic(auto)]

ghost use Rattle.std.specs.Prelude.{◌≡◌, ◌<◌, All, IfOk, Err, length};
ghost use Rattle.endpoint_code.specs.Trees.{code_at};
ghost use Rattle.endpoint_code.specs.Labels.{HasDistinctLabels};
ghost use Rattle.branch_merge.specs.declared.fault.MergeFault.TheVariants.{Clash};
ghost use Rattle.endpoint_code.specs.LeastAbove.{HasNoneAbove};
ghost use Rattle.branch_merge.specs.Merged.{Keeps};
ghost use Rattle.service_merge.specs.Merged.{codes_at, IsMergedOfAll};

use branch_merge::{MergeFault, merge};
use endpoint_code::{Code, CodeId};
use std::alloc::Global;

/// Adds the least code above all of a list. `Clash` comes exactly where no code is above all. The
/// table may have grown; its old nodes stay. Halves are merged first, so that many branches with a
/// label each cost little more than their number.
pub fn merge_all(alloc: Global, code: &mut Code, list: &[CodeId]) -> Result<CodeId, MergeFault>
    requires some { 0 < length list.now }
    requires inside { All (λ id. id.0 < length code.old.nodes) list.now }
    requires distinct { All (λ id. HasDistinctLabels (code_at code.old.nodes id)) list.now }
    ensures merged { IfOk result (IsMergedOfAll code.old.nodes code.new.nodes list.now) }
    ensures clash { result ≡ Err Clash → HasNoneAbove (codes_at code.old.nodes list.now) }
    ensures kept { Keeps code.old.nodes code.new.nodes }
{
    if list.len() == 1 {
        return Ok(list[0]);
    }
    let half = list.len() / 2;
    let first = merge_all(alloc, code, &list[..half])?;
    let second = merge_all(alloc, code, &list[half..])?;
    merge(alloc, code, first, second)
}
