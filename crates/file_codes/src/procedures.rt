//! The endpoint procedures of the parameters of procedures.

ghost use Rattle.std.specs.Prelude.{◌≡◌, ◌++◌, IfOk, IfErr, OnOk, map};
ghost use Rattle.projection.specs.Codes.{holds, sessions_for};
ghost use Rattle.block_codes.specs.Walks.{StopsAt};
ghost use Rattle.file_codes.specs.Prepared.{ArePrepared};
ghost use Rattle.file_codes.specs.Units.{params_of, procedure_from, sites_in_procs, AreProcedures};

use crate::prepared::{Prepared, clean_at, codes_from};
use block_codes::{Coded, Stop};
use chor_base::{List, Memory, NameId};
use chor_tree::{File, Named, Proc, ProcParam, SessionParam};
use endpoint_code::{Code, Procedure};
use std::alloc::Global;

/// The code of each procedure for each of its process parameters, in the order in which the file
/// declares them, with prepared codes where these fit. `Clash` comes at the first branches that clash
/// in a procedure.
pub fn procedures(
    alloc: Global,
    file: &File,
    prepared: &Prepared<'_>,
    code: &mut Code,
) -> Result<List<Procedure>, Stop>
    requires { ArePrepared file.now prepared.now }
    ensures procedures { IfOk result (AreProcedures file.now file.now.procs code.old.nodes code.new.nodes) }
    ensures stopped { IfErr result (StopsAt file.now (sites_in_procs file.now file.now.procs)) }
{
    let mut procedures = List::new(alloc);
    let mut place = 0usize;
    let mut first = 0usize;
    for proc in file.procs.as_slice() {
        let scope = params_of(alloc, proc.params.as_slice())?;
        let made = (
            prepared.params,
            first,
            clean_at(prepared.clean, place, file),
        );
        let list = codes_from(alloc, file, proc.body, scope.as_slice(), made, code)?;
        first = first.saturating_add(proc.params.len());
        place = place.saturating_add(1);
        put_procedures(alloc, proc, list.as_slice(), &mut procedures)?;
    }
    Ok(procedures)
}

// The names of process parameters.
fn params_of(alloc: Global, params: &[ProcParam]) -> Result<List<NameId>, Memory>
    ensures { IfOk result (λ list. list ≡ params_of params.now) }
{
    let mut names = List::new(alloc);
    for param in params {
        names.push(param.name.name)?;
    }
    Ok(names)
}

// Adds the endpoint procedure of each parameter with its code.
fn put_procedures(
    alloc: Global,
    proc: &Proc,
    list: &[Coded],
    procedures: &mut List<Procedure>,
) -> Result<(), Memory>
    ensures { OnOk result (procedures.new ≡ procedures.old ++ map (procedure_from proc.now) list.now) }
{
    for coded in list {
        let sessions = sessions_for(alloc, coded.process, proc.sessions.as_slice())?;
        procedures.push(Procedure {
            name: proc.name.name,
            param: coded.process,
            sessions,
            body: coded.code,
        })?;
    }
    Ok(())
}

// The session parameters that list the process parameter as a holder.
fn sessions_for(
    alloc: Global,
    param: NameId,
    sessions: &[SessionParam],
) -> Result<List<NameId>, Memory>
    ensures { IfOk result (λ list. list ≡ sessions_for param sessions.now) }
{
    let mut names = List::new(alloc);
    for session in sessions {
        if holds(param, session.holders.as_slice()) {
            names.push(session.name.name)?;
        }
    }
    Ok(names)
}

// Whether the parameter is one of the holders.
fn holds(param: NameId, holders: &[(Named, Named)]) -> bool
    ensures { result ≡ holds param holders.now }
{
    for holder in holders {
        if holder.1.name == param {
            return true;
        }
    }
    false
}
