//! The units of the linked programs.

ghost use Rattle.std.specs.Prelude.{◌≡◌, ◌↔◌, IfOk, IsTrue, map};
ghost use Rattle.std.specs.List.{AllZip};
ghost use Rattle.endpoint_link.specs.Indexes.{name_of_procedure, name_of_service, name_of_process, renumbered_unit};
ghost use Rattle.endpoint_link.specs.InTables.{ReplacesProcedureIn, ReplacesServiceIn, ReplacesProcessIn, IsLinkedCodeIn, IsProcedureLinkedIn, IsServiceLinkedIn, IsProcessLinkedIn};

use crate::index::Index;
use crate::joined::Joined;
use crate::unit_name::{HasUnitName, names_of};
use chor_base::{List, Memory};
use endpoint_code::{Channel, CodeId, Procedure, Process, ServiceCode};
use std::alloc::Global;

/// A copy of the channels.
pub fn copied_channels(alloc: Global, base: &[Channel]) -> Result<List<Channel>, Memory>
    ensures { IfOk result (λ list. list ≡ base.now) }
{
    let mut list = List::new(alloc);
    for unit in base {
        list.push(Channel {
            name: unit.name,
            active: unit.active.copy(alloc)?,
            serve: unit.serve.copy(alloc)?,
        })?;
    }
    Ok(list)
}

impl Joined {
    // Whether a given procedure has the name of one of the base.
    fn is_procedure(&self, given: &Procedure, base: &Procedure) -> bool
        ensures { IsTrue result ↔ ReplacesProcedureIn self.now given.now base.now }
    {
        self.numbers.name(given.name) == base.name && self.numbers.name(given.param) == base.param
    }

    // Whether a given service has the name of one of the base.
    fn is_service(&self, given: ServiceCode, base: ServiceCode) -> bool
        ensures { IsTrue result ↔ ReplacesServiceIn self.now given base }
    {
        self.numbers.name(given.channel) == base.channel
            && self.numbers.name(given.role) == base.role
    }

    // Whether a given process has the name of one of the base.
    fn is_process(&self, given: Process, base: Process) -> bool
        ensures { IsTrue result ↔ ReplacesProcessIn self.now given base }
    {
        self.numbers.name(given.name) == base.name
    }

    // An index of given units, by their names with the new numbers.
    fn given_index<T: HasUnitName>(&self, alloc: Global, given: &[T]) -> Result<Index, Memory>
        ensures { IfOk result (λ index. index.names ≡ map (λ x. renumbered_unit self.now.numbers (T.name_of x)) given.now) }
    {
        let names = names_of(alloc, given)?;
        let names = self.numbers.unit_names(alloc, names.as_slice())?;
        let index = Index::new(alloc, names)?;
        Ok(index)
    }

    // The linked code of a procedure of the base: that of the first given one of its name, or its own.
    fn procedure_body(
        &self,
        unit: &Procedure,
        given: &[Procedure],
        index: &Index,
    ) -> Result<CodeId, Memory>
        requires { index.now.names ≡ map (λ x. renumbered_unit self.now.numbers (name_of_procedure x)) given.now }
        ensures { IfOk result (IsLinkedCodeIn self.now (λ x. ReplacesProcedureIn self.now x unit.now) (λ x. x.body) given.now unit.now.body) }
    {
        let part = index.part(given, unit.unit_name());
        for other in part {
            if self.is_procedure(other, unit) {
                let body = self.numbers.code(other.body)?;
                return Ok(body);
            }
        }
        Ok(unit.body)
    }

    // The linked code of a service of the base.
    fn service_body(
        &self,
        unit: ServiceCode,
        given: &[ServiceCode],
        index: &Index,
    ) -> Result<CodeId, Memory>
        requires { index.now.names ≡ map (λ x. renumbered_unit self.now.numbers (name_of_service x)) given.now }
        ensures { IfOk result (IsLinkedCodeIn self.now (λ x. ReplacesServiceIn self.now x unit) (λ x. x.body) given.now unit.body) }
    {
        let part = index.part(given, unit.unit_name());
        for other in part {
            if self.is_service(*other, unit) {
                let body = self.numbers.code(other.body)?;
                return Ok(body);
            }
        }
        Ok(unit.body)
    }

    // The linked code of a process of the base.
    fn process_body(
        &self,
        unit: Process,
        given: &[Process],
        index: &Index,
    ) -> Result<CodeId, Memory>
        requires { index.now.names ≡ map (λ x. renumbered_unit self.now.numbers (name_of_process x)) given.now }
        ensures { IfOk result (IsLinkedCodeIn self.now (λ x. ReplacesProcessIn self.now x unit) (λ x. x.body) given.now unit.body) }
    {
        let part = index.part(given, unit.unit_name());
        for other in part {
            if self.is_process(*other, unit) {
                let body = self.numbers.code(other.body)?;
                return Ok(body);
            }
        }
        Ok(unit.body)
    }

    /// The procedures of the base, each with the code of the given one of its name, where there is one.
    pub fn linked_procedures(
        &self,
        alloc: Global,
        base: &[Procedure],
        given: &[Procedure],
    ) -> Result<List<Procedure>, Memory>
        ensures { IfOk result (AllZip (IsProcedureLinkedIn self.now given.now) base.now) }
    {
        let index = self.given_index(alloc, given)?;
        let mut list = List::new(alloc);
        for unit in base {
            list.push(Procedure {
                name: unit.name,
                param: unit.param,
                sessions: unit.sessions.copy(alloc)?,
                body: self.procedure_body(unit, given, &index)?,
            })?;
        }
        Ok(list)
    }

    /// The services of the base, each with the code of the given one of its name, where there is one.
    pub fn linked_services(
        &self,
        alloc: Global,
        base: &[ServiceCode],
        given: &[ServiceCode],
    ) -> Result<List<ServiceCode>, Memory>
        ensures { IfOk result (AllZip (IsServiceLinkedIn self.now given.now) base.now) }
    {
        let index = self.given_index(alloc, given)?;
        let mut list = List::new(alloc);
        for unit in base {
            list.push(ServiceCode {
                channel: unit.channel,
                role: unit.role,
                body: self.service_body(*unit, given, &index)?,
            })?;
        }
        Ok(list)
    }

    /// The processes of the base, each with the code of the given one of its name, where there is one.
    pub fn linked_processes(
        &self,
        alloc: Global,
        base: &[Process],
        given: &[Process],
    ) -> Result<List<Process>, Memory>
        ensures { IfOk result (AllZip (IsProcessLinkedIn self.now given.now) base.now) }
    {
        let index = self.given_index(alloc, given)?;
        let mut list = List::new(alloc);
        for unit in base {
            list.push(Process {
                name: unit.name,
                body: self.process_body(*unit, given, &index)?,
            })?;
        }
        Ok(list)
    }
}
