//! An event that an office is told.

ghost use Rattle.std.specs.Prelude.{◌≡◌, OnOk, true, false};
ghost use Rattle.chor_base.specs.declared.event.Event.TheVariants as event;
ghost use Rattle.post_office.specs.Answers.{HasNoted, is_local};
ghost use Rattle.post_office.specs.Views.{CanMake, is_full};
ghost use Rattle.office_runs.specs.Told.{AllBusy, MayCome};

use crate::starting::make_start;
use chor_base::{Event, Load, Memory, NameId};
use post_office::{Office, Received, Sent};
use std::alloc::Global;

// Has an office send a load on a queue that takes one more.
fn make_sent(
    office: &mut Office<'_>,
    pid: u32,
    lane: (u32, NameId, NameId),
    load: Load,
) -> Result<(), Memory>
    requires can { CanMake office.old (event.Send pid lane.0 lane.1 lane.2 load) }
    requires room { is_full office.old lane ≡ false }
    ensures noted { OnOk result (HasNoted office.old 0 (event.Send pid lane.0 lane.1 lane.2 load) office.new) }
    ensures busy { OnOk result (AllBusy office.old → AllBusy office.new) }
{
    let (sid, from, to) = lane;
    office.reserve(sid, from, to)?;
    match office.send(0, pid, sid, from, to, load) {
        Sent::Sent => Ok(()),
        Sent::Full => unreachable!(),
    }
}

// Has an office receive a load.
fn make_received(
    office: &mut Office<'_>,
    pid: u32,
    lane: (u32, NameId, NameId),
    load: Load,
) -> Result<(), Memory>
    requires { CanMake office.old (event.Recv pid lane.0 lane.1 lane.2 load) }
    ensures noted { OnOk result (HasNoted office.old 0 (event.Recv pid lane.0 lane.1 lane.2 load) office.new) }
    ensures busy { OnOk result (AllBusy office.old → AllBusy office.new) }
{
    let (sid, from, to) = lane;
    let _ = office.history();
    office.reserve_notes(1)?;
    match office.recv(0, pid, sid, from, to) {
        Received::Got(_) => Ok(()),
        Received::Empty => unreachable!(),
    }
}

// Has an office note an event that touches no queue.
fn make_local(alloc: Global, office: &mut Office<'_>, event: &Event) -> Result<(), Memory>
    requires local { is_local event.now ≡ true }
    requires can { CanMake office.old event.now }
    ensures noted { OnOk result (HasNoted office.old 0 event.now office.new) }
    ensures busy { OnOk result (AllBusy office.old → AllBusy office.new) }
{
    let event = event.copy(alloc)?;
    office.reserve_notes(1)?;
    office.note(0, event);
    Ok(())
}

// Has an office make an event that can be its next, where there are so many processes and nothing is
// posted.
pub fn make(alloc: Global, office: &mut Office<'_>, count: u32, event: &Event) -> Result<(), Memory>
    requires may { MayCome office.old count event.now }
    requires busy { AllBusy office.old }
    ensures noted { OnOk result (HasNoted office.old 0 event.now office.new) }
    ensures busy { OnOk result (AllBusy office.new) }
{
    match event {
        Event::Start {
            channel,
            sid,
            parts,
        } => make_start(office, count, *channel, *sid, parts.as_slice()),
        Event::Send {
            pid,
            sid,
            from,
            to,
            load,
        } => {
            let _ = office.history();
            make_sent(office, *pid, (*sid, *from, *to), *load)
        }
        Event::Recv {
            pid,
            sid,
            from,
            to,
            load,
        } => make_received(office, *pid, (*sid, *from, *to), *load),
        Event::Test { .. } | Event::Set { .. } | Event::Show { .. } | Event::Host { .. } => {
            make_local(alloc, office, event)
        }
    }
}
