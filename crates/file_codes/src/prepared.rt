//! Codes that were made in advance, each in a table of its own.

ghost use Rattle.std.specs.Prelude.{◌≡◌, ◌<◌, ◌↔◌, IsTrue, All, IfOk, IfErr, IfSome, OnOk, Some, length};
ghost use Rattle.chor_tree.specs.Source.{body_of};
ghost use Rattle.projection.specs.MergeFaults.{sites_in};
ghost use Rattle.block_codes.specs.Walks.{AreCodes, StopsAt};
ghost use Rattle.branch_merge.specs.Merged.{Keeps};
ghost use Rattle.file_codes.specs.Shifted.{shift_id, IsAppended};
ghost use Rattle.file_codes.specs.UnitCodes.{MayBeUnitCode, MayBeCleanBody, IsUnitCode, AreScopeCodes};

use crate::shifted::{shifted_id, shifted_node};
use block_codes::{Coded, Stop, code_of, codes};
use chor_base::{List, Memory, NameId};
use chor_tree::{File, NodeId};
use endpoint_code::{Code, CodeId};
use std::alloc::Global;

/// The code of one process from the start of a body, in a table of its own.
#[derive(Drop)]
pub struct UnitCode {
    pub at: NodeId,
    pub process: NameId,
    pub code: Code,
    pub id: CodeId,
}

/// Codes of a file that were made in advance: of each parameter of a procedure and of each process of
/// main, in source order; and the bodies, of procedures and then of main, whose starts make only
/// processes without a clash. What is missing, or is of another body or process, is not used.
#[derive(Clone, Copy)]
pub struct Prepared<'a> {
    pub params: &'a [Option<UnitCode>],
    pub processes: &'a [Option<UnitCode>],
    pub clean: &'a [Option<NodeId>],
}

/// The code of a process from the start of a body. `None` where branches clash for it, or memory
/// runs out.
pub fn unit_code(alloc: Global, file: &File, at: NodeId, process: NameId) -> Option<UnitCode>
    ensures { MayBeUnitCode file.now result }
{
    if at.0 as usize >= file.tree.nodes.len() {
        return None;
    }
    let mut code = Code::new(alloc);
    match code_of(alloc, file, at, process, &mut code) {
        Ok(id) => Some(UnitCode {
            at,
            process,
            code,
            id,
        }),
        Err(_) => None,
    }
}

/// The body itself, where no branches clash for a process that one of its starts makes. `None` where
/// some do, or memory runs out.
pub fn clean_body(alloc: Global, file: &File, at: NodeId) -> Option<NodeId>
    ensures { MayBeCleanBody file.now result }
{
    if at.0 as usize >= file.tree.nodes.len() {
        return None;
    }
    let mut code = Code::new(alloc);
    match codes(alloc, file, at, &[], &mut code) {
        Ok(_) => Some(at),
        Err(_) => None,
    }
}

/// The codes of the processes in scope at a body. Prepared codes, from a place of their list on, are
/// used only if they are of that body and of exactly these processes, and if the body is clean.
pub fn codes_from(
    alloc: Global,
    file: &File,
    id: NodeId,
    scope: &[NameId],
    prepared: (&[Option<UnitCode>], usize, Option<NodeId>),
    code: &mut Code,
) -> Result<List<Coded>, Stop>
    requires inside { id.0 < length file.now.tree.nodes }
    requires units { All (MayBeUnitCode file.now) prepared.0.now }
    requires clean { MayBeCleanBody file.now prepared.2 }
    ensures codes { IfOk result (AreCodes file.now (body_of file.now id) scope.now code.old.nodes code.new.nodes) }
    ensures stopped { IfErr result (StopsAt file.now (sites_in scope.now (body_of file.now id))) }
{
    let (units, first, clean) = prepared;
    match prepared_codes(alloc, file, id, scope, (units, first), code)? {
        Some(list) if is_at(clean, id) => Ok(list),
        _ => codes(alloc, file, id, scope, code),
    }
}

// The prepared codes of these processes at a body, from a place of the list on. `None` where a code
// is missing or is of something else.
fn prepared_codes(
    alloc: Global,
    file: &File,
    id: NodeId,
    scope: &[NameId],
    units: (&[Option<UnitCode>], usize),
    code: &mut Code,
) -> Result<Option<List<Coded>>, Memory>
    requires { All (MayBeUnitCode file.now) units.0.now }
    ensures kept { OnOk result (Keeps code.old.nodes code.new.nodes) }
    ensures found { IfOk result (λ list. IfSome list (AreScopeCodes file.now (body_of file.now id) scope.now code.new.nodes)) }
{
    let (units, first) = units;
    let mut list = List::new(alloc);
    let mut place = first;
    for process in scope {
        let Some(unit) = unit_at(units, place, file) else {
            return Ok(None);
        };
        if !is_of(unit, id, *process) {
            return Ok(None);
        }
        let put = append_unit(alloc, unit, code)?;
        list.push(Coded {
            process: *process,
            code: put,
        })?;
        place = place.saturating_add(1);
    }
    Ok(Some(list))
}

// Whether this is the body.
fn is_at(clean: Option<NodeId>, id: NodeId) -> bool
    ensures { IsTrue result ↔ (clean ≡ Some id) }
{
    match clean {
        Some(at) => at == id,
        None => false,
    }
}

// Whether this is the code of the process at the body.
fn is_of(unit: &UnitCode, id: NodeId, process: NameId) -> bool
    ensures { IsTrue result ↔ ((unit.now.at ≡ id) × (unit.now.process ≡ process)) }
{
    unit.at == id && unit.process == process
}

// The prepared code at a place, if there is one.
fn unit_at<'a>(units: &'a [Option<UnitCode>], place: usize, file: &File) -> Option<&'a UnitCode>
    requires { All (MayBeUnitCode file.now) units.now }
    ensures { IfSome result (λ unit. IsUnitCode file.now unit.now) }
{
    units.get(place)?.as_ref()
}

/// The clean body at a place, if there is one.
pub fn clean_at(clean: &[Option<NodeId>], place: usize, file: &File) -> Option<NodeId>
    requires { All (MayBeCleanBody file.now) clean.now }
    ensures { MayBeCleanBody file.now result }
{
    *clean.get(place)?
}

// Appends a table to another. The number of the unit's code there.
fn append_unit(alloc: Global, unit: &UnitCode, code: &mut Code) -> Result<CodeId, Memory>
    ensures table { OnOk result (IsAppended unit.now.code.nodes code.old.nodes code.new.nodes) }
    ensures id { IfOk result (λ id. id ≡ shift_id (length code.old.nodes) unit.now.id) }
{
    let by = code.nodes.count();
    for node in unit.code.nodes.as_slice() {
        code.push(shifted_node(alloc, by, node)?)?;
    }
    shifted_id(by, unit.id)
}
