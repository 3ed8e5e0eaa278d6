//! Projection side by side: the worked endpoint programs, and clashes at their places, the first of several.

use chor_base::{Denied, Memory, Refusal, Rule, put_bytes, put_number};
use chor_host::HostTable;
use endpoint_code::Endpoints;
use endpoint_text::print_endpoints;
use file_codes::project;
use name_resolution::resolve;
use par_project::{project_all, project_beside};
use source_check::read;
use std::alloc::Global;
use std::process::Abort;
use std::test::Fail;
use std::thread::Threads;
use worked::endpoints::{HELLO, SERVICE, TOLD};

const HELLO_SOURCE: &[u8] = b"protocol P (A, B) { s = A -> B : int then t; t = end; }
service a : P (A, B);
main (p, q) {
  start a(k): p[A], q[B];
  p[A].3 -> q[B].x : k;
  end
}
";

const TOLD_SOURCE: &[u8] = b"protocol Deal (Buyer, Seller, Depot) {
  s = Seller -> Buyer : int then t;
  t = Buyer -> Seller {yes then u, no then v};
  u = Seller -> Depot {pack then e};
  v = Seller -> Depot {rest then e};
  e = end;
}
service deal : Deal (Buyer, Seller, Depot);
main (b, s, d) {
  start deal(k): b[Buyer], s[Seller], d[Depot];
  s[Seller].20 -> b[Buyer].price : k;
  if b.price <= 25 {
    b[Buyer] -> s[Seller] : k.yes;
    s[Seller] -> d[Depot] : k.pack;
    d show \"pack\";
    end
  } else {
    b[Buyer] -> s[Seller] : k.no;
    s[Seller] -> d[Depot] : k.rest;
    end
  }
}
";

const SERVICE_SOURCE: &[u8] = b"protocol D (A, S) {
  s = A -> S {up then t, down then t};
  t = S -> A : int then u;
  u = end;
}
service d : D (A | S);
main (p, q) {
  start d(k): p[A] new s[S];
  p[A] -> s[S] : k.up;
  s[S].1 -> p[A].x : k;
  start d(h): q[A] new z[S];
  q[A] -> z[S] : h.down;
  z[S].2 -> q[A].y : h;
  end
}
";

// A process can't tell the branches apart in the second procedure, and another in main.
const TWO_BODIES: &[u8] = b"proc Fine (a, b) { if a.true { b show 1; end } else { b show 1; end } }
proc Clash (a, b) { if a.true { b show 1; end } else { b show 2; end } }
main (r, p) { if r.true { p show 1; end } else { p show 2; end } }
";

// Two processes can't: p is declared first, and q has to show first.
const TWO_PROCESSES: &[u8] =
    b"main (r, p, q) { if r.true { q show 1; p show 1; end } else { q show 2; p show 2; end } }
";

// Inner conditionals come first, though there a later process is at fault.
const INNER: &[u8] = b"main (r, p, q) {
  if r.true {
    p show 1;
    if r.false { q show 1; end } else { q show 2; end }
  } else {
    p show 2;
    end
  }
}
";

// The process that a start makes can't tell the branches apart.
const MADE: &[u8] = b"protocol P (A, S) { s = A -> S : int then t; t = end; }
service c : P (A | S);
main (r, p) {
  start c(k): p[A] new n[S];
  p[A].1 -> n[S].x : k;
  if r.true { n show 1; end } else { n show 2; end }
}
";

// One program for S can't answer both starts, and nobody fails to tell branches apart.
const TWO_ANSWERS: &[u8] =
    b"protocol D (A, S) { s = A -> S {up then t}; t = S -> A : int then u; u = end; }
service d : D (A | S);
main (p, q) {
  start d(k): p[A] new s[S];
  p[A] -> s[S] : k.up;
  s[S].1 -> p[A].x : k;
  start d(h): q[A] new z[S];
  q[A] -> z[S] : h.up;
  z[S].2 -> q[A].y : h;
  end
}
";

// How a file is projected: by `project`, by `project_all`, or by threads whatever its size.
#[derive(Clone, Copy)]
enum Way {
    Alone,
    All,
    Beside,
}

const WAYS: [Way; 3] = [Way::Alone, Way::All, Way::Beside];

// How many bytes a source has at most: 1 MiB.
const LONGEST: usize = 1_048_576;

// A rule that is violated, its line and column, and who is named.
type Said<'a> = (Rule, u32, u32, &'a [u8]);

// What the projection of a source says.
fn projected<R: Threads + Abort + Sync>(
    rt: &R,
    alloc: Global,
    bytes: &[u8],
    way: Way,
) -> Result<Endpoints, Denied> {
    if bytes.len() > LONGEST {
        panic!(rt; "it is too long");
    }
    let file = read(alloc, bytes)?;
    let hosts = HostTable::new(alloc);
    resolve(alloc, &file, &hosts)?;
    match way {
        Way::Alone => project(alloc, &file),
        Way::All => project_all(rt, alloc, &file),
        Way::Beside => project_beside(rt, alloc, &file),
    }
}

// Whether a source has these endpoint programs, however it is projected.
fn has_programs<R: Threads + Abort + Sync>(
    rt: &R,
    alloc: Global,
    bytes: &[u8],
    text: &[u8],
) -> Result<bool, Fail> {
    for way in WAYS {
        let endpoints = projected(rt, alloc, bytes, way)?;
        let mut out = Vec::new(alloc);
        print_endpoints(alloc, &endpoints, &mut out)?;
        if out.as_slice() != text {
            return Ok(false);
        }
    }
    Ok(true)
}

// Whether a refusal says this.
fn says(refusal: &Refusal, said: Said<'_>) -> bool {
    let place = (refusal.place.line, refusal.place.col);
    let named = refusal
        .who
        .as_ref()
        .is_some_and(|who| who.as_slice() == said.3);
    refusal.rule == said.0 && place == (said.1, said.2) && named
}

// Whether this is a refusal that says this.
fn is_said(denied: Denied, said: Said<'_>) -> Result<bool, Memory> {
    match denied {
        Denied::Refused(refusal) => Ok(says(&refusal, said)),
        Denied::Memory => Err(Memory),
    }
}

// Whether a source is refused so, when it is projected so.
fn is_refused_by<R: Threads + Abort + Sync>(
    rt: &R,
    alloc: Global,
    bytes: &[u8],
    way: Way,
    said: Said<'_>,
) -> Result<bool, Memory> {
    match projected(rt, alloc, bytes, way) {
        Ok(_) => Ok(false),
        Err(denied) => is_said(denied, said),
    }
}

// Whether this is the refusal of a source, however it is projected.
fn is_refused<R: Threads + Abort + Sync>(
    rt: &R,
    alloc: Global,
    bytes: &[u8],
    said: Said<'_>,
) -> Result<bool, Memory> {
    let alone = is_refused_by(rt, alloc, bytes, Way::Alone, said)?;
    let all = is_refused_by(rt, alloc, bytes, Way::All, said)?;
    let beside = is_refused_by(rt, alloc, bytes, Way::Beside, said)?;
    Ok(alone && all && beside)
}

#[test]
fn worked_sources_have_their_programs(rt: HostRuntime) -> Result<(), Fail> {
    assert!(&rt; has_programs(&rt, rt.alloc(), HELLO_SOURCE, HELLO)?);
    assert!(&rt; has_programs(&rt, rt.alloc(), TOLD_SOURCE, TOLD)?);
    assert!(&rt; has_programs(&rt, rt.alloc(), SERVICE_SOURCE, SERVICE)?);
    Ok(())
}

#[test]
fn the_first_clash_is_told(rt: HostRuntime) -> Result<(), Fail> {
    assert!(&rt; is_refused(&rt, rt.alloc(), TWO_BODIES, (Rule::M1, 2, 21, b"b"))?);
    assert!(&rt; is_refused(&rt, rt.alloc(), TWO_PROCESSES, (Rule::M1, 1, 18, b"p"))?);
    assert!(&rt; is_refused(&rt, rt.alloc(), INNER, (Rule::M1, 4, 5, b"q"))?);
    assert!(&rt; is_refused(&rt, rt.alloc(), MADE, (Rule::M1, 6, 3, b"n"))?);
    assert!(&rt; is_refused(&rt, rt.alloc(), TWO_ANSWERS, (Rule::M2, 2, 9, b"S"))?);
    Ok(())
}

// How many processes a large source has.
const PROCESSES: u64 = 40;

// A source of so many processes, of which the first one shows 900 numbers.
fn large_source(alloc: Global) -> Result<Vec<u8>, Memory> {
    let mut source = b"main (p0".to_vec(alloc)?;
    for number in 1..PROCESSES {
        put_bytes(&mut source, b", p".as_slice())?;
        put_number(&mut source, alloc, number)?;
    }
    put_bytes(&mut source, b") { ".as_slice())?;
    put_repeated(&mut source, b"p0 show 1; ".as_slice(), 900)?;
    put_bytes(&mut source, b"end }".as_slice())?;
    Ok(source)
}

// Its endpoint programs.
fn large_programs(alloc: Global) -> Result<Vec<u8>, Memory> {
    let mut text = b"endpoints 1;\nprocess p0 { ".to_vec(alloc)?;
    put_repeated(&mut text, b"show 1; ".as_slice(), 900)?;
    for number in 1..PROCESSES {
        put_bytes(&mut text, b"end }\nprocess p".as_slice())?;
        put_number(&mut text, alloc, number)?;
        put_bytes(&mut text, b" { ".as_slice())?;
    }
    put_bytes(&mut text, b"end }\n".as_slice())?;
    Ok(text)
}

// Appends the same bytes so many times.
fn put_repeated(out: &mut Vec<u8>, bytes: &[u8], times: u32) -> Result<(), Memory> {
    for _ in 0..times {
        put_bytes(out, bytes)?;
    }
    Ok(())
}

#[test]
fn many_large_units_are_projected(rt: HostRuntime) -> Result<(), Fail> {
    let source = large_source(rt.alloc())?;
    let programs = large_programs(rt.alloc())?;
    assert!(&rt; has_programs(&rt, rt.alloc(), source.as_slice(), programs.as_slice())?);
    Ok(())
}
