//! Accepting a source.

ghost use Rattle.std.specs.Prelude.{◌≡◌, [], true, IfOk, OnOk, IfErr};
ghost use Rattle.chor_base.specs.Faults.{IsDenial};
ghost use Rattle.chor_host.specs.Functions.{names_of};
ghost use Rattle.chor_host.specs.Tables.{functions_of};
ghost use Rattle.endpoint_code.specs.AboveUnits.{AreUnitsAbove};
ghost use Rattle.endpoint_code.specs.Faults.{IsFaultlessWith};
ghost use Rattle.endpoint_code.specs.Network.{has_room};
ghost use Rattle.accepted_files.specs.AboveProjection.{ProjectionIsAbove, AboveStaysAbove};
ghost use Rattle.accepted_files.specs.FaultlessLaws.{ProjectionAsksKnown, ProjectionIsFaultless};
ghost use Rattle.linear_check.specs.Class.{IsLinearityFault};
ghost use Rattle.projection.specs.MergeFaults.{IsMergeDenial};
ghost use Rattle.projection.specs.Projects.{Projects};
ghost use Rattle.source_check.specs.Classes.{IsFaultless, HasNone, HasNoMergeFault, classes_of};
ghost use Rattle.source_check.specs.Source.{IsBroken};
ghost use Rattle.source_check.specs.declared.rules.Rules.TheVariants.{All};
ghost use Rattle.source_check.specs.declared.rules.Class.TheVariants.{Linearity};
ghost use Rattle.simulation.specs.Accepted.{IsAccepted};
ghost use Rattle.simulation.specs.Capacity.{capacity_of};

use chor_base::Denied;
use chor_host::HostTable;
use chor_tree::File;
use endpoint_code::Endpoints;
use linear_check::first_fault;
use par_project::project_all;
use source_check::check;
use std::alloc::Global;
use std::marker::Model;
use std::thread::Threads;
use type_check::{Typed, check_types};

/// A file without faults of names, protocols, views, types, linearity and merging, and endpoint programs
/// that are its projection or, unit by unit, above it.
pub struct Accepted {
    typed: Typed,
    endpoints: Endpoints,
}

impl Drop for Accepted {
    fn drop(self) {
        let Accepted {
            typed: _,
            endpoints: _,
        } = self;
    }
}

impl Model for Accepted {
    ghost use Rattle.simulation.specs.Accepted.{AcceptedView, IsAccepted};

    ghost Value = { AcceptedView };

    ghost view = { λ a. record { typed = a.typed; endpoints = a.endpoints } };

    ghost use Rattle.type_check.specs.contracts.typed.Typed as judged;
    ghost use Rattle.endpoint_code.specs.contracts.endpoints.Endpoints as programs;
    ghost use Rattle.std.specs.Coded.{codes};

    ghost coded = { Prim.hlevel (codes, judged.the_row.coded, programs.the_row.coded) };

    ghost invariant = { λ a. IsAccepted a.typed.hosts a.typed.file a.endpoints };
}

impl Accepted {
    /// The typed file. It takes no memory.
    pub fn typed(&self) -> &Typed
        ensures { result.now ≡ self.now.typed }
    {
        &self.typed
    }

    /// The endpoint programs. It takes no memory.
    pub fn endpoints(&self) -> &Endpoints
        ensures endpoints { result.now ≡ self.now.endpoints }
        ensures accepted { IsAccepted self.now.typed.hosts self.now.typed.file result.now }
    {
        &self.endpoints
    }

    /// The capacity that the file declares for its queues, if any. It leaves room in an empty queue. It takes
    /// no memory.
    #[tactic(auto, using(crate::proofs::Capacity::capacity_of_same, crate::proofs::Capacity::room_of_file))]
    pub fn capacity(&self) -> Option<u32>
        ensures capacity { result ≡ capacity_of self.now.typed.file }
        ensures room { has_room result [] ≡ true }
    {
        self.typed.file().header.capacity
    }

    /// The same file with other endpoint programs, which are, unit by unit, above the ones that it has. It
    /// takes no memory.
    pub fn linked(mut self, programs: Endpoints) -> Self
        requires above { AreUnitsAbove self.endpoints programs }
        requires faultless { IsFaultlessWith self.typed.hosts programs }
        ensures typed { result.typed ≡ self.typed }
        ensures endpoints { result.endpoints ≡ programs }
    {
        accepted_files::above_stays_above();
        self.endpoints = programs;
        self
    }
}

/// Judges a file by the rules of names, protocols, views, types, linearity and merging, in this
/// order, where it may call these host functions. The first class with a fault decides; on any
/// refusal the file is dropped. The units of a large file are projected side by side.
#[tactic(auto, using(crate::proofs::Judged::checked_broken, crate::proofs::Judged::typed_broken, crate::proofs::Judged::linear_broken, crate::proofs::Judged::merged_broken, crate::proofs::Judged::all_fine))]
pub fn accept<R: Threads + Sync>(
    rt: &R,
    alloc: Global,
    file: File,
    hosts: &HostTable,
) -> Result<Accepted, Denied>
    ensures file { IfOk result (λ accepted. accepted.typed.file ≡ file) }
    ensures hosts { IfOk result (λ accepted. accepted.typed.hosts ≡ names_of (functions_of hosts.now)) }
    ensures projects { IfOk result (λ accepted. Projects file accepted.endpoints) }
    ensures faultless { OnOk result (IsFaultless (names_of (functions_of hosts.now)) file (classes_of All)) }
    ensures denied { IfErr result (IsBroken (classes_of All) (names_of (functions_of hosts.now)) file) }
{
    if let Err(denied) = check(alloc, &file, hosts) {
        drop(file);
        return Err(denied);
    }
    let typed = check_types(alloc, file, hosts)?;
    if let Err(denied) = check_linearity(alloc, typed.file()) {
        drop(typed);
        return Err(denied);
    }
    projected(rt, alloc, typed)
}

// A typed file without faults of linearity, with its endpoint programs.
fn projected<R: Threads + Sync>(rt: &R, alloc: Global, typed: Typed) -> Result<Accepted, Denied>
    requires linear { HasNone [] typed.file Linearity }
    ensures typed { IfOk result (λ accepted. accepted.typed ≡ typed) }
    ensures projects { IfOk result (λ accepted. Projects typed.file accepted.endpoints) }
    ensures merges { OnOk result (HasNoMergeFault typed.file) }
    ensures denied { IfErr result (IsMergeDenial typed.file) }
{
    projection_laws();
    match project_all(rt, alloc, typed.file()) {
        Ok(endpoints) => Ok(Accepted { typed, endpoints }),
        Err(denied) => {
            drop(typed);
            Err(denied)
        }
    }
}

// What is proved of the projection of a file without faults.
fn projection_laws()
    ensures above { ProjectionIsAbove }
    ensures faultless { ProjectionIsFaultless }
    ensures asks { ProjectionAsksKnown }
{
    accepted_files::projection_is_above();
    accepted_files::projection_is_faultless();
    accepted_files::projection_asks_known();
}

// Judges a file by the rules of linearity.
fn check_linearity(alloc: Global, file: &File) -> Result<(), Denied>
    ensures linear { OnOk result (HasNone [] file.now Linearity) }
    ensures denied { IfErr result (IsDenial (IsLinearityFault file.now)) }
{
    match first_fault(alloc, file)? {
        Some(fault) => Err(fault.denied()),
        None => Ok(()),
    }
}
