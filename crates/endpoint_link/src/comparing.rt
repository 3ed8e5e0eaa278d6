//! A given unit compared with one unit of the base.

ghost use Rattle.std.specs.Prelude.{◌≡◌, ◌↔◌, IfOk, IsTrue, map};
ghost use Rattle.endpoint_link.specs.Renumbered.{renumbered_name};
ghost use Rattle.endpoint_link.specs.Judged.{IsComparison};
ghost use Rattle.endpoint_link.specs.InTables.{IsAboveInTables, IsInside, IsGivenInside, IsCodeComparison, ReplacesChannelIn, SuitsChannelIn, ReplacesProcedureIn, SuitsProcedureIn, ReplacesServiceIn, SuitsServiceIn, ReplacesProcessIn, SuitsProcessIn};

use crate::joined::Joined;
use crate::verdict::Comparison;
use chor_base::{Memory, NameId};
use endpoint_code::{Channel, CodeId, Procedure, Process, ServiceCode};
use std::alloc::Global;

impl Joined {
    // Whether given names, renumbered, are these.
    fn are_names(&self, alloc: Global, given: &[NameId], names: &[NameId]) -> Result<bool, Memory>
        ensures { IfOk result (λ alike. IsTrue alike ↔ (map (renumbered_name self.now.numbers) given.now ≡ names.now)) }
    {
        let given = self.numbers.names(alloc, given)?;
        Ok(given.as_slice() == names)
    }

    // Whether given code is above code of the base.
    fn compare_code(&self, given: CodeId, base: CodeId) -> Result<Comparison, Memory>
        requires given { IsGivenInside self.now given }
        requires base { IsInside self.now base }
        ensures { IfOk result (IsCodeComparison self.now given base) }
    {
        let given = self.numbers.code(given)?;
        if self.code.is_above(given, base) {
            Ok(Comparison::Suited)
        } else {
            Ok(Comparison::Unsuited)
        }
    }

    /// How a given channel compares with one of the base.
    pub fn compare_channel(
        &self,
        alloc: Global,
        given: &Channel,
        base: &Channel,
    ) -> Result<Comparison, Memory>
        ensures { IfOk result (IsComparison (ReplacesChannelIn self.now) (SuitsChannelIn self.now) given.now base.now) }
    {
        if self.numbers.name(given.name) != base.name {
            return Ok(Comparison::Other);
        }
        let active = self.are_names(alloc, given.active.as_slice(), base.active.as_slice())?;
        let serve = self.are_names(alloc, given.serve.as_slice(), base.serve.as_slice())?;
        if active && serve {
            Ok(Comparison::Suited)
        } else {
            Ok(Comparison::Unsuited)
        }
    }

    /// How a given procedure compares with one of the base.
    pub fn compare_procedure(
        &self,
        alloc: Global,
        given: &Procedure,
        base: &Procedure,
    ) -> Result<Comparison, Memory>
        requires given { IsGivenInside self.now given.now.body }
        requires base { IsInside self.now base.now.body }
        ensures { IfOk result (IsComparison (ReplacesProcedureIn self.now) (SuitsProcedureIn self.now) given.now base.now) }
    {
        if self.numbers.name(given.name) != base.name {
            return Ok(Comparison::Other);
        }
        if self.numbers.name(given.param) != base.param {
            return Ok(Comparison::Other);
        }
        let sessions = self.are_names(alloc, given.sessions.as_slice(), base.sessions.as_slice())?;
        if !sessions {
            return Ok(Comparison::Unsuited);
        }
        self.compare_code(given.body, base.body)
    }

    /// How a given service compares with one of the base.
    pub fn compare_service(
        &self,
        given: ServiceCode,
        base: ServiceCode,
    ) -> Result<Comparison, Memory>
        requires given { IsGivenInside self.now given.body }
        requires base { IsInside self.now base.body }
        ensures { IfOk result (IsComparison (ReplacesServiceIn self.now) (SuitsServiceIn self.now) given base) }
    {
        if self.numbers.name(given.channel) != base.channel {
            return Ok(Comparison::Other);
        }
        if self.numbers.name(given.role) != base.role {
            return Ok(Comparison::Other);
        }
        self.compare_code(given.body, base.body)
    }

    /// How a given process compares with one of the base.
    pub fn compare_process(&self, given: Process, base: Process) -> Result<Comparison, Memory>
        requires given { IsGivenInside self.now given.body }
        requires base { IsInside self.now base.body }
        ensures { IfOk result (IsComparison (ReplacesProcessIn self.now) (SuitsProcessIn self.now) given base) }
    {
        if self.numbers.name(given.name) != base.name {
            return Ok(Comparison::Other);
        }
        self.compare_code(given.body, base.body)
    }
}
