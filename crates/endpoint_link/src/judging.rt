//! The verdict on a given unit, from its comparison with each unit of the base that has its name.

ghost use Rattle.std.specs.Prelude.{◌≡◌, All, IfOk, map};
ghost use Rattle.endpoint_link.specs.Judged.{IsVerdict};
ghost use Rattle.endpoint_link.specs.Indexes.{name_of_channel, name_of_procedure, name_of_service, name_of_process};
ghost use Rattle.endpoint_link.specs.InTables.{IsInside, IsGivenInside, ReplacesChannelIn, SuitsChannelIn, ReplacesProcedureIn, SuitsProcedureIn, ReplacesServiceIn, SuitsServiceIn, ReplacesProcessIn, SuitsProcessIn};

use crate::fault::LinkRule;
use crate::index::Index;
use crate::joined::Joined;
use crate::unit_name::HasUnitName;
use crate::verdict::verdict_after;
use chor_base::Memory;
use endpoint_code::{Channel, Procedure, Process, ServiceCode};
use std::alloc::Global;

impl Joined {
    /// The rule that a given channel violates, if any.
    pub(crate) fn judge_channel(
        &self,
        alloc: Global,
        given: &Channel,
        base: &[Channel],
        index: &Index,
    ) -> Result<Option<LinkRule>, Memory>
        requires index { index.now.names ≡ map name_of_channel base.now }
        ensures { IfOk result (IsVerdict (ReplacesChannelIn self.now) (SuitsChannelIn self.now) base.now given.now) }
    {
        let mut verdict = Some(LinkRule::K2);
        let name = self.numbers.unit_name(given.unit_name());
        let part = index.part(base, name);
        for unit in part {
            verdict = verdict_after(verdict, self.compare_channel(alloc, given, unit)?);
        }
        Ok(verdict)
    }

    /// The rule that a given procedure violates, if any.
    pub(crate) fn judge_procedure(
        &self,
        alloc: Global,
        given: &Procedure,
        base: &[Procedure],
        index: &Index,
    ) -> Result<Option<LinkRule>, Memory>
        requires given { IsGivenInside self.now given.now.body }
        requires base { All (λ u. IsInside self.now u.body) base.now }
        requires index { index.now.names ≡ map name_of_procedure base.now }
        ensures { IfOk result (IsVerdict (ReplacesProcedureIn self.now) (SuitsProcedureIn self.now) base.now given.now) }
    {
        let mut verdict = Some(LinkRule::K2);
        let name = self.numbers.unit_name(given.unit_name());
        let part = index.part(base, name);
        for unit in part {
            verdict = verdict_after(verdict, self.compare_procedure(alloc, given, unit)?);
        }
        Ok(verdict)
    }

    /// The rule that a given service violates, if any.
    pub(crate) fn judge_service(
        &self,
        given: ServiceCode,
        base: &[ServiceCode],
        index: &Index,
    ) -> Result<Option<LinkRule>, Memory>
        requires given { IsGivenInside self.now given.body }
        requires base { All (λ u. IsInside self.now u.body) base.now }
        requires index { index.now.names ≡ map name_of_service base.now }
        ensures { IfOk result (IsVerdict (ReplacesServiceIn self.now) (SuitsServiceIn self.now) base.now given) }
    {
        let mut verdict = Some(LinkRule::K2);
        let name = self.numbers.unit_name(given.unit_name());
        let part = index.part(base, name);
        for unit in part {
            verdict = verdict_after(verdict, self.compare_service(given, *unit)?);
        }
        Ok(verdict)
    }

    /// The rule that a given process violates, if any.
    pub(crate) fn judge_process(
        &self,
        given: Process,
        base: &[Process],
        index: &Index,
    ) -> Result<Option<LinkRule>, Memory>
        requires given { IsGivenInside self.now given.body }
        requires base { All (λ u. IsInside self.now u.body) base.now }
        requires index { index.now.names ≡ map name_of_process base.now }
        ensures { IfOk result (IsVerdict (ReplacesProcessIn self.now) (SuitsProcessIn self.now) base.now given) }
    {
        let mut verdict = Some(LinkRule::K2);
        let name = self.numbers.unit_name(given.unit_name());
        let part = index.part(base, name);
        for unit in part {
            verdict = verdict_after(verdict, self.compare_process(given, *unit)?);
        }
        Ok(verdict)
    }
}
