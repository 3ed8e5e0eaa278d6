//! The host functions of the program.

ghost use Rattle.std.specs.Prelude.{◌≡◌, ◌++◌, ◌∷◌, [], ℤ, false, OnOk, IfOk};
ghost use Rattle.std.specs.Int.{w64};
ghost use Rattle.std.specs.Int.RustNames.{FitsSigned};
ghost use Rattle.chor_base.specs.Meaning.{IsAllowed};
ghost use Rattle.chor_base.specs.declared.meaning.HostOp.TheVariants.{Min, Max, Gap};
ghost use Rattle.chor_base.specs.declared.meaning.Meaning.TheVariants.{Exact};
ghost use Rattle.chor_host.specs.Functions.{function_of, is_named};
ghost use Rattle.chor_host.specs.Program.{of_a_die, program_functions};
ghost use Rattle.chor_host.specs.Tables.{functions_of};

use crate::fault::AddFault;
use crate::function::HostFn;
use crate::table::HostTable;
use chor_base::{HostOp, Meaning, Memory, Word};
use std::alloc::Global;

/// The functions that each choreography may call: `min`, `max`, `gap` and `dice`, in this order. The
/// caller hands over the functions that compute them, which are `host_min`, `host_max`, `host_gap` and
/// `host_dice`.
pub fn program_hosts(
    alloc: Global,
    min: fn(i64, i64) -> i64,
    max: fn(i64, i64) -> i64,
    gap: fn(i64, i64) -> i64,
    dice: fn(i64, i64) -> i64,
) -> Result<HostTable, Memory>
    requires callable_min { (a b : ℤ) → FitsSigned w64 a → FitsSigned w64 b → pre min a b }
    requires allowed_min { (a b v : ℤ) → FitsSigned w64 a → FitsSigned w64 b → post min a b v → IsAllowed (Exact Min) a b v }
    requires callable_max { (a b : ℤ) → FitsSigned w64 a → FitsSigned w64 b → pre max a b }
    requires allowed_max { (a b v : ℤ) → FitsSigned w64 a → FitsSigned w64 b → post max a b v → IsAllowed (Exact Max) a b v }
    requires callable_gap { (a b : ℤ) → FitsSigned w64 a → FitsSigned w64 b → pre gap a b }
    requires allowed_gap { (a b v : ℤ) → FitsSigned w64 a → FitsSigned w64 b → post gap a b v → IsAllowed (Exact Gap) a b v }
    requires callable_dice { (a b : ℤ) → FitsSigned w64 a → FitsSigned w64 b → pre dice a b }
    requires allowed_dice { (a b v : ℤ) → FitsSigned w64 a → FitsSigned w64 b → post dice a b v → IsAllowed of_a_die a b v }
    ensures { IfOk result (λ hosts. functions_of hosts ≡ program_functions) }
{
    let mut hosts = HostTable::new(alloc);
    let name = Word::from_slice(alloc, b"min".as_slice())?;
    hosts.add_new(HostFn::new(name, Meaning::Exact(HostOp::Min), min))?;
    let name = Word::from_slice(alloc, b"max".as_slice())?;
    hosts.add_new(HostFn::new(name, Meaning::Exact(HostOp::Max), max))?;
    let name = Word::from_slice(alloc, b"gap".as_slice())?;
    hosts.add_new(HostFn::new(name, Meaning::Exact(HostOp::Gap), gap))?;
    let name = Word::from_slice(alloc, b"dice".as_slice())?;
    hosts.add_new(HostFn::new(name, Meaning::Within(1, 6), dice))?;
    Ok(hosts)
}

impl HostTable {
    // Adds a function of a name that isn't there.
    fn add_new(&mut self, function: HostFn) -> Result<(), Memory>
        requires { is_named (functions_of self.old) function.name ≡ false }
        ensures { OnOk result (functions_of self.new ≡ functions_of self.old ++ function_of function ∷ []) }
    {
        match self.add(function) {
            Ok(()) => Ok(()),
            Err(AddFault::Memory) => Err(Memory),
            Err(AddFault::Twice) => unreachable!(),
        }
    }
}
