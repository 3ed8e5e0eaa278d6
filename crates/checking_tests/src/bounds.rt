//! How many sets of states a role may tell apart.

ghost use Rattle.std.specs.Prelude.{◌<◌};

use chor_base::Memory;
use chor_tree::File;
use source_check::read;
use state_sets::sight_of;
use std::alloc::Global;
use std::process::Abort;
use std::test::Fail;

// A knows each state. B learns the label and does nothing more, so that it tells apart the first state, `t` with `e`,
// and `u` with `e`. C tells apart what comes before its number and the end.
const SOURCE: &[u8] = b"protocol P (A, B, C) {
  s = A -> B { one then t, two then u };
  t = A -> C : int then e;
  u = A -> C : int then e;
  e = end;
}
main () { end }
";

// How many sets of states a role of the first protocol tells apart, where these aren't too many.
fn counted(alloc: Global, file: &File, role: &[u8], most: usize) -> Result<Option<usize>, Memory>
    requires { 0 < most }
{
    let (Some(protocol), Some(role)) = (file.protocols.as_slice().first(), file.names.find(role))
    else {
        return Ok(None);
    };
    let sight = sight_of(alloc, protocol, role, &file.names, most)?;
    Ok(sight.map(|sight| sight.rows.len()))
}

// A role tells apart so many sets of states: they are all there where so many or more are asked for, and too many where
// fewer are.
fn tells_apart(
    rt: &impl Abort,
    alloc: Global,
    file: &File,
    role: &[u8],
    count: usize,
) -> Result<(), Memory>
    requires { 1 < count }
{
    assert!(rt; counted(alloc, file, role, count)? == Some(count));
    assert!(rt; counted(alloc, file, role, 1_000)? == Some(count));
    assert!(rt; counted(alloc, file, role, count - 1)?.is_none());
    Ok(())
}

#[test]
fn as_many_sets_as_are_asked_for(rt: HostRuntime) -> Result<(), Fail> {
    let file = read(rt.alloc(), SOURCE)?;
    tells_apart(&rt, rt.alloc(), &file, b"A", 4)?;
    tells_apart(&rt, rt.alloc(), &file, b"B", 3)?;
    tells_apart(&rt, rt.alloc(), &file, b"C", 2)?;
    Ok(())
}
