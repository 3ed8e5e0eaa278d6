//! What classes of rules say of a file by themselves: names, protocols, views, guarded procedures and linear channels.
//! Types and merging are judged only where a file has no fault of these.

use chor_base::{Denied, Rule};
use chor_host::HostTable;
use chor_tree::File;
use global_types::check_protocols;
use guard_check::check_guarded;
use linear_check::check_linearity;
use local_types::check_views;
use name_resolution::resolve;
use source_check::{check, read};
use std::alloc::Global;
use std::test::Fail;

// One fault of each: a view's in line 2, a protocol's in line 3, a call's in line 5, a start's in line 9,
// and a name's in line 11.
const FAULTY: &[u8] = b"protocol P (A, B) { s = A -> B : int then t; t = end; }
protocol V (A, B, C) { s = A -> B { l then t, r then u }; t = B -> C : int then e; u = B -> A : int then e; e = end; }
protocol W (A, B) { s = A -> B : int then t; t = B -> B : int then u; u = end; }
service a : P (A, B);
proc Idle (p, q) { p show 1; call Idle(p, q) }
main (p, q, r, s) {
  start a(k): p[A], q[B];
  p[A].1 -> q[B].x : k;
  start a(h): r[A], s[B];
  r[A].2 -> s[B].y : h;
  z show 1;
  end
}
";

// The same with a procedure whose processes act before its call.
const UNORDERED: &[u8] = b"protocol P (A, B) { s = A -> B : int then t; t = end; }
service a : P (A, B);
proc Busy (p, q) { p show 1; q show 2; call Busy(p, q) }
main (p, q, r, s) {
  start a(k): p[A], q[B];
  p[A].1 -> q[B].x : k;
  start a(h): r[A], s[B];
  r[A].2 -> s[B].y : h;
  end
}
";

// The same where the second start is made by those of the first one.
const FAULTLESS: &[u8] = b"protocol P (A, B) { s = A -> B : int then t; t = end; }
service a : P (A, B);
proc Busy (p, q) { p show 1; q show 2; call Busy(p, q) }
main (p, q) {
  start a(k): p[A], q[B];
  p[A].1 -> q[B].x : k;
  start a(h): p[A], q[B];
  p[A].2 -> q[B].y : h;
  end
}
";

// The rule that is violated, with its line and column.
type Said = Option<(Rule, u32, u32)>;

// What a class says.
fn said(judged: Result<(), Denied>) -> Result<Said, Fail> {
    match judged {
        Ok(()) => Ok(None),
        Err(Denied::Refused(refusal)) => {
            let place = refusal.place;
            Ok(Some((refusal.rule, place.line, place.col)))
        }
        Err(denied) => Err(denied)?,
    }
}

// What is said of a file by names, protocols, views, guarded procedures, guarded procedures and linear channels, and the
// first three of these together.
fn all_said(alloc: Global, file: &File) -> Result<[Said; 6], Fail> {
    let hosts = HostTable::new(alloc);
    Ok([
        said(resolve(alloc, file, &hosts))?,
        said(check_protocols(file))?,
        said(check_views(alloc, file))?,
        said(check_guarded(alloc, file))?,
        said(check_linearity(alloc, file))?,
        said(check(alloc, file, &hosts))?,
    ])
}

#[test]
fn each_class_has_its_own_fault(rt: HostRuntime) -> Result<(), Fail> {
    let file = read(rt.alloc(), FAULTY)?;
    let [names, protocols, views, guarded, linear, first] = all_said(rt.alloc(), &file)?;
    assert!(rt; names == Some((Rule::N1, 11, 3)));
    assert!(rt; protocols == Some((Rule::G2, 3, 55)));
    assert!(rt; views == Some((Rule::V1, 2, 19)));
    assert!(rt; guarded == Some((Rule::U1, 5, 30)));
    assert!(rt; linear == Some((Rule::U1, 5, 30)));
    assert!(rt; first == Some((Rule::N1, 11, 3)));
    Ok(())
}

#[test]
fn starts_are_judged_where_calls_are_guarded(rt: HostRuntime) -> Result<(), Fail> {
    let file = read(rt.alloc(), UNORDERED)?;
    let [names, protocols, views, guarded, linear, first] = all_said(rt.alloc(), &file)?;
    assert!(rt; linear == Some((Rule::U2, 7, 3)));
    for other in [names, protocols, views, guarded, first] {
        assert!(rt; other.is_none());
    }
    Ok(())
}

#[test]
fn no_class_has_a_fault(rt: HostRuntime) -> Result<(), Fail> {
    let file = read(rt.alloc(), FAULTLESS)?;
    for said in all_said(rt.alloc(), &file)? {
        assert!(rt; said.is_none());
    }
    Ok(())
}
