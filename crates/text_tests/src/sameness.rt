//! Which sources say the same.

use chor_base::{Denied, Names, Texts};
use chor_lexer::tokens;
use chor_parser::parse;
use chor_tree::{File, same};
use std::alloc::Global;
use std::test::Fail;

// The file that a source is, with tables of its own. Other sources are much shorter than these tests
// take them.
#[tactic(auto, using(source_grammar::proofs::KnownTexts::texts_known))]
fn read(alloc: Global, source: &[u8]) -> Result<File, Denied> {
    let mut names = Names::new(alloc);
    let mut texts = Texts::new(alloc);
    let front = &source[..source.len().min(100_000)];
    let tokens = tokens(alloc, front, &mut names, &mut texts)?;
    let file = parse(alloc, &tokens, names, texts);
    drop(tokens);
    file
}

// Whether a source says the same as a file.
fn says_the_same(alloc: Global, file: &File, source: &[u8]) -> Result<bool, Fail> {
    let other = read(alloc, source)?;
    let is_same = same(file, &other);
    drop(other);
    Ok(is_same)
}

// Whether two sources say the same.
fn say_the_same(alloc: Global, source: &[u8], other: &[u8]) -> Result<bool, Fail> {
    let file = read(alloc, source)?;
    let is_same = says_the_same(alloc, &file, other);
    drop(file);
    is_same
}

// What a small file says, and others that differ in one thing.
const SAID: &[u8] = b"service a:P(A|B);main(p,q){if p.x<1{p show \"hi\";end}else{q show 1;end}}";

const OTHERS: [&[u8]; 8] = [
    // a variable
    b"service a:P(A|B);main(p,q){if p.y<1{p show \"hi\";end}else{q show 1;end}}",
    // a process: of the statement, of the test, and of main
    b"service a:P(A|B);main(p,q){if p.x<1{p show \"hi\";end}else{p show 1;end}}",
    b"service a:P(A|B);main(p,q){if q.x<1{p show \"hi\";end}else{q show 1;end}}",
    b"service a:P(A|B);main(p){if p.x<1{p show \"hi\";end}else{q show 1;end}}",
    // a service role that is left out
    b"service a:P(A);main(p,q){if p.x<1{p show \"hi\";end}else{q show 1;end}}",
    // a text
    b"service a:P(A|B);main(p,q){if p.x<1{p show \"ho\";end}else{q show 1;end}}",
    // an operator
    b"service a:P(A|B);main(p,q){if p.x<=1{p show \"hi\";end}else{q show 1;end}}",
    // the branches exchanged
    b"service a:P(A|B);main(p,q){if p.x<1{q show 1;end}else{p show \"hi\";end}}",
];

#[test]
fn one_thing_makes_a_difference_both_ways_round(rt: HostRuntime) -> Result<(), Fail> {
    let alloc = rt.alloc();
    let elsewhere =
        b"service a : P (A | B);\nmain (p, q) {\n  if p.x < 01 { p show \"hi\"; end }\n  else { q show 1; end } }".as_slice();
    assert!(rt; say_the_same(alloc, SAID, elsewhere)?);
    assert!(rt; say_the_same(alloc, elsewhere, SAID)?);
    for other in OTHERS.iter() {
        assert!(rt; !say_the_same(alloc, SAID, other)?, "{other:?}");
        assert!(rt; !say_the_same(alloc, other, SAID)?, "{other:?}");
    }
    Ok(())
}

// Headers: none, a version alone, and two capacities.
const HEADERS: [&[u8]; 4] = [
    b"main(){end}",
    b"chor 2;main(){end}",
    b"chor 2;capacity 1;main(){end}",
    b"chor 2;capacity 2;main(){end}",
];

#[test]
fn headers_make_a_difference(rt: HostRuntime) -> Result<(), Fail> {
    let alloc = rt.alloc();
    for (place, header) in HEADERS.iter().enumerate() {
        for (other_place, other) in HEADERS.iter().enumerate() {
            let is_same = say_the_same(alloc, header, other)?;
            assert_eq!(rt; is_same, place == other_place, "{header:?} {other:?}");
        }
    }
    let elsewhere = b"chor 02 ; // a comment\ncapacity 1 ; main ( ) { end }".as_slice();
    assert!(rt; say_the_same(alloc, HEADERS[2], elsewhere)?);
    Ok(())
}

#[test]
fn order_within_a_kind_makes_a_difference(rt: HostRuntime) -> Result<(), Fail> {
    let alloc = rt.alloc();
    let source = b"proc F(){end}proc G(){end}service a:P(A);main(p){end}".as_slice();
    let kinds_mixed = b"service a:P(A);proc F(){end}proc G(){end}main(p){end}".as_slice();
    let exchanged = b"proc G(){end}proc F(){end}service a:P(A);main(p){end}".as_slice();
    assert!(rt; say_the_same(alloc, source, kinds_mixed)?);
    assert!(rt; !say_the_same(alloc, source, exchanged)?);
    Ok(())
}

// The units in two orders of their kinds, so that their words come in other orders too
#[test]
fn numbers_of_words_make_no_difference(rt: HostRuntime) -> Result<(), Fail> {
    let alloc = rt.alloc();
    let source =
        b"proc F(r){r show \"one\";end}service a:P(A);main(p){p show \"two\";end}".as_slice();
    let other =
        b"service a:P(A);proc F(r){r show \"one\";end}main(p){p show \"two\";end}".as_slice();
    assert!(rt; say_the_same(alloc, source, other)?);
    assert!(rt; say_the_same(alloc, other, source)?);
    Ok(())
}
