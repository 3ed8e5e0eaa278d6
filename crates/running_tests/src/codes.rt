//! Whether a code is above another.

use chor_base::{List, NameId};
use endpoint_code::{Code, CodeNode};
use std::test::Fail;

#[test]
fn a_branch_is_above_one_with_fewer_labels(rt: HostRuntime) -> Result<(), Fail> {
    let alloc = rt.alloc();
    let mut code = Code::new(alloc);
    let end = code.push(CodeNode::End)?;
    let mut both = List::new(alloc);
    both.push((NameId(2), end))?;
    both.push((NameId(3), end))?;
    let more = code.push(CodeNode::Branch(NameId(0), NameId(1), both))?;
    let mut one = List::new(alloc);
    one.push((NameId(3), end))?;
    let fewer = code.push(CodeNode::Branch(NameId(0), NameId(1), one))?;
    assert!(rt; code.is_above(more, fewer));
    assert!(rt; !code.is_above(fewer, more));
    Ok(())
}
