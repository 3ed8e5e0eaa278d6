//! The first given unit that can't be put in place of one of the base.

ghost use Rattle.std.specs.Prelude.{IfOk, IfErr};
ghost use Rattle.endpoint_link.specs.Linked.{AllSuit};
ghost use Rattle.endpoint_link.specs.Joined.{AreProgramsJoined};
ghost use Rattle.endpoint_link.specs.Judged.{FindsFirstChannel, FindsFirstProcedure, FindsFirstService, FindsFirstProcess, IsLinkFault};

use crate::fault::{LinkFault, LinkRule, Unit};
use crate::index::Index;
use crate::joined::Joined;
use crate::unit_name::names_of;
use chor_base::Memory;
use endpoint_code::Endpoints;
use std::alloc::Global;

impl Joined {
    // The first given channel that violates a rule, if any.
    fn first_channel(
        &self,
        alloc: Global,
        base: &Endpoints,
        given: &Endpoints,
    ) -> Result<Option<(LinkRule, u32)>, Memory>
        requires { AreProgramsJoined base.now given.now self.now }
        ensures { IfOk result (FindsFirstChannel base.now given.now) }
    {
        let units = base.channels.as_slice();
        let index = Index::new(alloc, names_of(alloc, units)?)?;
        for place in 0..given.channels.count() {
            if let Some(rule) = self.judge_channel(
                alloc,
                given.channels.at(place as usize),
                units,
                &index,
            )? {
                return Ok(Some((rule, place)));
            }
        }
        Ok(None)
    }

    // The first given procedure that violates a rule, if any.
    fn first_procedure(
        &self,
        alloc: Global,
        base: &Endpoints,
        given: &Endpoints,
    ) -> Result<Option<(LinkRule, u32)>, Memory>
        requires { AreProgramsJoined base.now given.now self.now }
        ensures { IfOk result (FindsFirstProcedure base.now given.now) }
    {
        let units = base.procedures.as_slice();
        let index = Index::new(alloc, names_of(alloc, units)?)?;
        for place in 0..given.procedures.count() {
            if let Some(rule) = self.judge_procedure(
                alloc,
                given.procedures.at(place as usize),
                units,
                &index,
            )? {
                return Ok(Some((rule, place)));
            }
        }
        Ok(None)
    }

    // The first given service that violates a rule, if any.
    fn first_service(
        &self,
        alloc: Global,
        base: &Endpoints,
        given: &Endpoints,
    ) -> Result<Option<(LinkRule, u32)>, Memory>
        requires { AreProgramsJoined base.now given.now self.now }
        ensures { IfOk result (FindsFirstService base.now given.now) }
    {
        let units = base.services.as_slice();
        let index = Index::new(alloc, names_of(alloc, units)?)?;
        for place in 0..given.services.count() {
            if let Some(rule) = self.judge_service(
                *given.services.at(place as usize),
                units,
                &index,
            )? {
                return Ok(Some((rule, place)));
            }
        }
        Ok(None)
    }

    // The first given process that violates a rule, if any.
    fn first_process(
        &self,
        alloc: Global,
        base: &Endpoints,
        given: &Endpoints,
    ) -> Result<Option<(LinkRule, u32)>, Memory>
        requires { AreProgramsJoined base.now given.now self.now }
        ensures { IfOk result (FindsFirstProcess base.now given.now) }
    {
        let units = base.processes.as_slice();
        let index = Index::new(alloc, names_of(alloc, units)?)?;
        for place in 0..given.processes.count() {
            if let Some(rule) = self.judge_process(
                *given.processes.at(place as usize),
                units,
                &index,
            )? {
                return Ok(Some((rule, place)));
            }
        }
        Ok(None)
    }

    /// Checks each given unit, in the order channels, procedures, services, processes, each list in its
    /// order.
    ///
    /// # Errors
    ///
    /// The first one that violates a rule.
    pub fn check(&self, alloc: Global, base: &Endpoints, given: &Endpoints) -> Result<(), LinkFault>
        requires { AreProgramsJoined base.now given.now self.now }
        ensures suit { IfOk result (λ _. AllSuit base.now given.now) }
        ensures refused { IfErr result (IsLinkFault base.now given.now) }
    {
        if let Some((rule, place)) = self.first_channel(alloc, base, given)? {
            return Err(LinkFault::Refused(rule, Unit::Channel(place)));
        }
        if let Some((rule, place)) = self.first_procedure(alloc, base, given)? {
            return Err(LinkFault::Refused(rule, Unit::Procedure(place)));
        }
        if let Some((rule, place)) = self.first_service(alloc, base, given)? {
            return Err(LinkFault::Refused(rule, Unit::Service(place)));
        }
        if let Some((rule, place)) = self.first_process(alloc, base, given)? {
            return Err(LinkFault::Refused(rule, Unit::Process(place)));
        }
        Ok(())
    }
}
