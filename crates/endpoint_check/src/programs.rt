//! Reading endpoint programs.

ghost use Rattle.std.specs.Prelude.{◌≤◌, ◌^◌, IfOk, IfErr, length};
ghost use Rattle.chor_host.specs.Functions.{names_of};
ghost use Rattle.chor_host.specs.Tables.{functions_of};
ghost use Rattle.endpoint_making.specs.Making.{AreNumbered};
ghost use Rattle.endpoint_check.specs.Programs.{AreProgramsOf, IsWrittenWithoutFault, IsDenialOfInput, IsDenialOfPrograms};

use crate::check::check_written;
use chor_base::{Denied, Names, Texts};
use chor_host::HostTable;
use chor_lexer::tokens;
use endpoint_code::Endpoints;
use endpoint_making::endpoints_of;
use endpoint_reader::{Input, Written};
use endpoint_units::read_endpoints;
use std::alloc::Global;

/// The endpoint programs that these bytes are, where they may ask these host functions.
///
/// They are refused by the rules of tokens (L1 to L5), of the grammar and its limits (E1 and E4, the
/// first place counts), of names (E2) and of how procedures begin (E3): the first of these classes that
/// is violated decides.
pub fn read_programs(alloc: Global, bytes: &[u8], hosts: &HostTable) -> Result<Endpoints, Denied>
    requires { length bytes.now ≤ 2 ^ 24 }
    ensures programs { IfOk result (AreProgramsOf (names_of (functions_of hosts.now)) bytes.now) }
    ensures denied { IfErr result (IsDenialOfPrograms (names_of (functions_of hosts.now)) bytes.now) }
{
    let mut names = Names::new(alloc);
    let mut texts = Texts::new(alloc);
    let list = tokens(alloc, bytes, &mut names, &mut texts)?;
    let input = Input {
        tokens: &list,
        names: &names,
        texts: &texts,
    };
    let written = written_of(alloc, &input, hosts)?;
    let programs = endpoints_of(alloc, &written, names, texts)?;
    Ok(programs)
}

// What is written, where it has no fault. Its names and texts are in the tables.
#[tactic(auto, using(crate::proofs::Denials::unread_so, crate::proofs::Denials::broken_so))]
fn written_of(alloc: Global, input: &Input, hosts: &HostTable) -> Result<Written, Denied>
    ensures fine { IfOk result (IsWrittenWithoutFault (names_of (functions_of hosts.now)) input.now) }
    ensures numbered { IfOk result (AreNumbered input.now.names.now input.now.texts.now) }
    ensures denied { IfErr result (IsDenialOfInput (names_of (functions_of hosts.now)) input.now) }
{
    let written = read_endpoints(alloc, input)?;
    check_written(alloc, &written, input.names, hosts)?;
    Ok(written)
}
