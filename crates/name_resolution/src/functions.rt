//! Host functions that statements name.

ghost use Rattle.std.specs.Prelude.{◌≡◌, bytes_eq};
ghost use Rattle.std.specs.List.{list_any};
ghost use Rattle.chor_base.specs.Writing.{name_in};
ghost use Rattle.chor_host.specs.Functions.{names_of};
ghost use Rattle.chor_host.specs.Tables.{functions_of};
ghost use Rattle.chor_tree.specs.Names.{unknown_function};
ghost use Rattle.chor_base.specs.Faults.{first_of_all};

use chor_base::{Fault, NameId, Names, Rule, fault_if};
use chor_host::HostTable;
use chor_tree::{File, Named};

// A host function that isn't there.
pub fn unknown_function(file: &File, hosts: &HostTable, name: &Named) -> Option<Fault>
    ensures { result ≡ first_of_all (unknown_function file.now (names_of (functions_of hosts.now)) name.now) }
{
    let is_there = has_function(hosts, word_of(&file.names, name.name));
    fault_if(!is_there, Rule::N1, name.place)
}

fn has_function(hosts: &HostTable, word: &[u8]) -> bool
    ensures { result ≡ list_any (bytes_eq word.now) (names_of (functions_of hosts.now)) }
{
    match hosts.find(word) {
        Some(_) => true,
        None => false,
    }
}

// The bytes of a name. One that isn't in the table has none.
fn word_of(names: &Names, name: NameId) -> &[u8]
    ensures { result.now ≡ name_in names.now name }
{
    if (name.0 as usize) < names.len() {
        names.at(name)
    } else {
        &[]
    }
}
