//! What the callers of turns put together.

ghost use Rattle.std.specs.Prelude.{◌≡◌, ◌≤◌, ◌<◌, ◌+◌, ◌*◌, ◌^◌, ◌⊎◌, ◌↔◌, ℕ, List, Some, None, true, length, slice_get, All};
ghost use Rattle.endpoint_code.specs.declared.endpoints.Endpoints.{Endpoints as AnyEndpoints};
ghost use Rattle.endpoint_code.specs.Network.{Machine as AnyMachine};
ghost use Rattle.endpoint_code.specs.NetworkRuns.{has_ended, all_ended};
ghost use Rattle.post_office.specs.Kept.{IsKept};
ghost use Rattle.post_office.specs.Starts.{FitsStart, most_served};
ghost use Rattle.post_office.specs.Standings.{born_of};
ghost use Rattle.post_office.specs.Views.{OfficeView};
ghost use Rattle.crew.specs.declared.share.Share.{Share as AnyShare};
ghost use Rattle.post_office.specs.Owners.{IsMadeByOwner};
ghost use Rattle.crew.specs.Turns.{Adds};

/// Where the events asked for are few enough, each turn has room for its start.
pub fn starts_fit()
    ensures { (v : OfficeView) → IsKept v → (steps : ℕ) → length v.history ≤ steps → steps + 1 < 2 ^ 32 → length v.endpoints.processes + (steps + 1) * most_served v.endpoints.channels < 2 ^ 32 → FitsStart v }
{}

/// Each entry of a history has the worker that owns a process which makes it, if those before a turn
/// have.
pub fn entries_stay_owned()
    ensures { (h : AnyShare) (old new : OfficeView) → Adds h old new → All (IsMadeByOwner h.workers old.endpoints) old.history → All (IsMadeByOwner h.workers old.endpoints) new.history }
{}

/// All processes have ended where those of each worker have.
pub fn all_have_ended()
    ensures { (e : AnyEndpoints) (ms : List AnyMachine) (workers : ℕ) → 0 < workers → ((w : ℕ) → w < workers → (i : ℕ) (m : AnyMachine) → slice_get ms (i * workers + w) ≡ Some m → has_ended e m ≡ true) → all_ended e ms ≡ true }
{}

/// No start has made a process exactly where it is there from the beginning, or isn't there.
pub fn born_by_no_start()
    ensures { (v : OfficeView) → IsKept v → (p : ℕ) → (born_of v p ≡ None) ↔ ((p < length v.endpoints.processes) ⊎ (length v.desks ≤ p)) }
{}
