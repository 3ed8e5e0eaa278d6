//! A start of a session that an office is told.

ghost use Rattle.std.specs.Prelude.{◌≡◌, OnOk, IfOk, IfSome, length, true, None, All};
ghost use Rattle.chor_base.specs.declared.event.Event.TheVariants as made;
ghost use Rattle.post_office.specs.Answers.{HasNoted};
ghost use Rattle.post_office.specs.Starts.{is_joining};
ghost use Rattle.post_office.specs.Views.{post_at};
ghost use Rattle.office_runs.specs.Told.{AllBusy, AreOthers, MayCome, MayPost, HasPosted, joined_board};

use chor_base::{Memory, NameId};
use post_office::{Office, Post, Started};

// Posts each process that is there and has one of these parts as joining the channel. Answers the
// last one.
fn post_all(
    office: &mut Office<'_>,
    count: u32,
    channel: NameId,
    parts: &[(NameId, u32)],
) -> Result<Option<u32>, Memory>
    requires may { MayPost office.old count channel parts.now }
    requires count { count ≡ length office.old.desks }
    ensures posted { HasPosted office.old office.new }
    ensures board { OnOk result (office.new.desks ≡ joined_board office.old.desks channel count parts.now) }
    ensures joins { IfOk result (λ last. IfSome last (λ pid. is_joining (post_at office.new.desks pid) ≡ true)) }
    ensures none { IfOk result (λ last. last ≡ None → AreOthers count parts.now) }
{
    let mut last = None;
    for part in parts {
        if part.1 < count {
            office.board(part.1, Post::Joining(channel, part.0))?;
            last = Some(part.1);
        }
    }
    Ok(last)
}

// Has an office start a session with these parts. Nobody else is posted as joining, so these are the
// partners that it takes.
pub fn make_start(
    office: &mut Office<'_>,
    count: u32,
    channel: NameId,
    sid: u32,
    parts: &[(NameId, u32)],
) -> Result<(), Memory>
    requires may { MayCome office.old count (made.Start channel sid parts.now) }
    requires busy { AllBusy office.old }
    ensures noted { OnOk result (HasNoted office.old 0 (made.Start channel sid parts.now) office.new) }
    ensures busy { OnOk result (AllBusy office.new) }
{
    let _ = office.history();
    let Some(pid) = post_all(office, count, channel, parts)? else {
        unreachable!()
    };
    match office.start(0, pid) {
        Started::Started(_) => Ok(()),
        Started::Absent(_) => unreachable!(),
        Started::Memory => Err(Memory),
    }
}
