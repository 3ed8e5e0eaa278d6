//! Both ends of a stream, in one thread.

use chor_base::{Entry, Event, List, Memory, NameId, Names, Texts};
use chor_io::MemorySink;
use chor_stream::{Drained, Finished, stream};
use std::alloc::Global;
use std::test::Fail;
use transcript::Book;

// Events of as many processes, one of each.
fn tests_of(alloc: Global, count: u32) -> Result<Vec<Entry>, Memory> {
    let mut entries = Vec::new(alloc);
    for pid in 0..count {
        entries.push(Entry {
            worker: 1,
            event: Event::Test { pid, answer: true },
        })?;
    }
    Ok(entries)
}

// What is pushed beyond the three slots finds no room, and is written from the list at the end.
#[test]
fn a_ring_of_three_takes_three(rt: HostRuntime) -> Result<(), Fail> {
    let alloc = rt.alloc();
    let entries = tests_of(alloc, 5)?;
    let list = entries.as_slice();
    let names = Names::new(alloc);
    let texts = Texts::new(alloc);
    let processes: List<NameId> = List::new(alloc);
    let book = Book {
        names: &names,
        texts: &texts,
        processes: &processes,
    };
    let mut out = MemorySink::new(alloc, 1000, List::new(alloc))?;
    let (mut feed, mut printer) = stream(alloc, 3)?;
    assert!(&rt; feed.push(list) == 3);
    assert!(&rt; printer.drain(&book, &mut out) == Drained::Dry);
    let three = b"1 test %0 true\n2 test %1 true\n3 test %2 true\n".as_slice();
    assert!(&rt; out.bytes() == three);
    assert!(&rt; printer.finish(feed, list, &book, &mut out) == Finished::Written);
    let rest = b"3 test %2 true\n4 test %3 true\n5 test %4 true\n".as_slice();
    assert!(&rt; out.bytes().ends_with(rest) && out.bytes().len() == 75);
    Ok(())
}
