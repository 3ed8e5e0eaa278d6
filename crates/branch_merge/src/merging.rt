//! The least code above two codes.

ghost use Rattle.std.specs.Prelude.{◌≡◌, ◌<◌, ◌∷◌, [], All, IfOk, Err, length};
ghost use Rattle.endpoint_code.specs.Trees.{code_at};
ghost use Rattle.endpoint_code.specs.Labels.{HasDistinctLabels, AreDistinctArms};
ghost use Rattle.endpoint_code.specs.LeastAbove.{HasNoneAbove};
ghost use Rattle.branch_merge.specs.declared.fault.MergeFault.TheVariants.{Clash};
ghost use Rattle.branch_merge.specs.Merged.{Keeps, IsMerged};
ghost use Rattle.branch_merge.specs.Bounds.{HaveNone};
ghost use Rattle.branch_merge.specs.Merging.{arms_at, AreMerged, IsStuck, Takes, AreInside, DoSame, TestSame, IsMeetingAt};

use crate::arms::{append, place_of};
use crate::fault::MergeFault;
use crate::meeting::{Meeting, Pair, meet, with_branches, with_next};
use chor_base::{List, Memory, NameId};
use endpoint_code::{Code, CodeId, CodeNode};
use std::alloc::Global;

/// Adds the least code above those at `a` and `b`. `Clash` comes exactly where no code is above
/// both. The table may have grown, whatever the answer; its old nodes stay.
#[cycle(merging)]
pub fn merge(alloc: Global, code: &mut Code, a: CodeId, b: CodeId) -> Result<CodeId, MergeFault>
    requires a { a.0 < length code.old.nodes }
    requires b { b.0 < length code.old.nodes }
    requires distinct_a { HasDistinctLabels (code_at code.old.nodes a) }
    requires distinct_b { HasDistinctLabels (code_at code.old.nodes b) }
    ensures merged { IfOk result (IsMerged code.old.nodes code.new.nodes a b) }
    ensures clash { result ≡ Err Clash → HasNoneAbove (code_at code.old.nodes a ∷ code_at code.old.nodes b ∷ []) }
    ensures kept { Keeps code.old.nodes code.new.nodes }
{
    if a == b {
        return Ok(a);
    }
    let pair = Pair { left: a, right: b };
    match meet_at(alloc, code, pair)? {
        Meeting::Apart => Err(MergeFault::Clash),
        Meeting::Alike => Ok(a),
        Meeting::Next(next) => merge_next(alloc, code, pair, next),
        Meeting::Either(first, second) => merge_branches(alloc, code, pair, first, second),
        Meeting::Arms(session, from, qs, ps) => {
            let arms = merge_arms(alloc, code, pair, &qs, ps)?;
            Ok(code.push(CodeNode::Branch(session, from, arms))?)
        }
    }
}

// What two codes have in common.
fn meet_at(alloc: Global, code: &Code, pair: Pair) -> Result<Meeting, Memory>
    requires { AreInside code.now.nodes pair }
    ensures { IfOk result (IsMeetingAt code.now.nodes pair) }
{
    meet(alloc, code.node_at(pair.left), code.node_at(pair.right))
}

// After an action that both do.
#[cycle(merging)]
fn merge_next(alloc: Global, code: &mut Code, pair: Pair, next: Pair) -> Result<CodeId, MergeFault>
    requires inside { AreInside code.old.nodes pair }
    requires same { DoSame code.old.nodes pair next }
    requires left { HasDistinctLabels (code_at code.old.nodes pair.left) }
    requires right { HasDistinctLabels (code_at code.old.nodes pair.right) }
    ensures merged { IfOk result (IsMerged code.old.nodes code.new.nodes pair.left pair.right) }
    ensures clash { result ≡ Err Clash → HasNoneAbove (code_at code.old.nodes pair.left ∷ code_at code.old.nodes pair.right ∷ []) }
    ensures kept { Keeps code.old.nodes code.new.nodes }
{
    let id = merge(alloc, code, next.left, next.right)?;
    let node = with_next(alloc, code.node_at(pair.left), id)?;
    Ok(code.push(node)?)
}

// After a test that both make.
#[cycle(merging)]
fn merge_branches(
    alloc: Global,
    code: &mut Code,
    pair: Pair,
    first: Pair,
    second: Pair,
) -> Result<CodeId, MergeFault>
    requires inside { AreInside code.old.nodes pair }
    requires same { TestSame code.old.nodes pair first second }
    requires left { HasDistinctLabels (code_at code.old.nodes pair.left) }
    requires right { HasDistinctLabels (code_at code.old.nodes pair.right) }
    ensures merged { IfOk result (IsMerged code.old.nodes code.new.nodes pair.left pair.right) }
    ensures clash { result ≡ Err Clash → HasNoneAbove (code_at code.old.nodes pair.left ∷ code_at code.old.nodes pair.right ∷ []) }
    ensures kept { Keeps code.old.nodes code.new.nodes }
{
    let holds = merge(alloc, code, first.left, first.right)?;
    let fails = merge(alloc, code, second.left, second.right)?;
    let node = with_branches(alloc, code.node_at(pair.left), holds, fails)?;
    Ok(code.push(node)?)
}

// The least arms above those of both.
#[cycle(merging)]
fn merge_arms(
    alloc: Global,
    code: &mut Code,
    pair: Pair,
    qs: &[(NameId, CodeId)],
    ps: Vec<(NameId, CodeId)>,
) -> Result<List<(NameId, CodeId)>, MergeFault>
    requires inside { AreInside code.old.nodes pair }
    requires qs { All (λ arm. arm.1.0 < pair.left.0) qs.now }
    requires ps { All (λ arm. arm.1.0 < pair.right.0) ps.items }
    requires distinct_qs { AreDistinctArms (arms_at code.old.nodes qs.now) }
    requires distinct_ps { AreDistinctArms (arms_at code.old.nodes ps.items) }
    ensures merged { IfOk result (AreMerged code.old.nodes code.new.nodes qs.now ps.items) }
    ensures clash { result ≡ Err Clash → HaveNone (arms_at code.old.nodes qs.now) (arms_at code.old.nodes ps.items) }
    ensures kept { Keeps code.old.nodes code.new.nodes }
{
    let mut rest = ps;
    let mut made = List::new(alloc);
    for arm in qs {
        let id = take(alloc, code, pair, *arm, &mut rest)?;
        made.push((arm.0, id))?;
    }
    append(&mut made, rest.as_slice())?;
    Ok(made)
}

// Where an arm of the left code goes on: as it is, or merged with the arm of its label, which is
// taken out of the rest.
#[cycle(merging)]
fn take(
    alloc: Global,
    code: &mut Code,
    pair: Pair,
    arm: (NameId, CodeId),
    rest: &mut Vec<(NameId, CodeId)>,
) -> Result<CodeId, MergeFault>
    requires inside { AreInside code.old.nodes pair }
    requires arm { arm.1.0 < pair.left.0 }
    requires rest { All (λ r. r.1.0 < pair.right.0) rest.old.items }
    requires distinct { HasDistinctLabels (code_at code.old.nodes arm.1) }
    requires distinct_rest { AreDistinctArms (arms_at code.old.nodes rest.old.items) }
    ensures taken { IfOk result (Takes code.old.nodes code.new.nodes arm rest.old.items rest.new.items) }
    ensures left { All (λ r. r.1.0 < pair.right.0) rest.new.items }
    ensures clash { result ≡ Err Clash → IsStuck arm.0 (code_at code.old.nodes arm.1) (arms_at code.old.nodes rest.old.items) }
    ensures kept { Keeps code.old.nodes code.new.nodes }
{
    match place_of(rest.as_slice(), arm.0) {
        None => Ok(arm.1),
        Some(place) => {
            let other = rest.remove(place);
            merge(alloc, code, arm.1, other.1)
        }
    }
}
