//! A new stream.

ghost use Rattle.std.specs.Prelude.{◌≡◌, ◌≤◌, [], IfOk};
ghost use Rattle.chor_stream.specs.Ends.{feed_ring, printer_ring, pushed_of, taken_by, slots_of};

use crate::ends::{Feed, Numbered, Printer};
use chor_base::Memory;
use rtrb::RingBuffer;
use std::alloc::Global;

/// The two ends of a stream that holds so many entries, 1 to 65,536.
pub fn stream(alloc: Global, slots: u32) -> Result<(Feed, Printer), Memory>
    requires { (1 ≤ slots) × (slots ≤ 65536) }
    ensures pair { IfOk result (λ ends. feed_ring ends.0 ≡ printer_ring ends.1) }
    ensures fresh { IfOk result (λ ends. (pushed_of ends.0 ≡ []) × (taken_by ends.1 ≡ [])) }
    ensures slots { IfOk result (λ ends. slots_of ends.1 ≡ slots) }
{
    let (producer, consumer) = RingBuffer::with_protocol::<Global, Numbered>(
        alloc,
        slots as usize,
    )?;
    let feed = Feed {
        producer,
        pushed: 0,
        alloc,
    };
    let printer = Printer {
        consumer,
        taken: 0,
        alloc,
    };
    Ok((feed, printer))
}
