//! Host functions by the names of a file.

ghost use Rattle.std.specs.Prelude.{◌≡◌, IfOk, bytes_eq};
ghost use Rattle.std.specs.List.{list_any};
ghost use Rattle.chor_base.specs.declared.names.NameId.{NameId as AnyName};
ghost use Rattle.chor_base.specs.Writing.{name_in};
ghost use Rattle.chor_host.specs.Functions.{names_of};
ghost use Rattle.chor_host.specs.Tables.{functions_of};
ghost use Rattle.endpoint_names.specs.Functions.{knows};

use chor_base::{Memory, NameId, Names};
use chor_host::HostTable;
use std::alloc::Global;

// Which names are those of host functions: for each name of a table, and for one that isn't in it.
pub struct Functions {
    known: Vec<bool>,
    unnamed: bool,
}

impl Drop for Functions {
    fn drop(self) {
        let Functions {
            known: _,
            unnamed: _,
        } = self;
    }
}

impl Functions {
    pub fn new(alloc: Global, names: &Names, hosts: &HostTable) -> Result<Self, Memory>
        ensures { IfOk result (λ f. (x : AnyName) → knows f x ≡ list_any (bytes_eq (name_in names.now x)) (names_of (functions_of hosts.now))) }
    {
        let mut known = Vec::new(alloc);
        for number in 0..names.len() {
            let word = names.at(NameId(number as u32));
            known.push(has_function(hosts, word))?;
        }
        let unnamed = has_function(hosts, b"".as_slice());
        Ok(Functions { known, unnamed })
    }

    // Whether a name is that of a host function.
    pub fn has(&self, name: NameId) -> bool
        ensures { result ≡ knows self.now name }
    {
        match self.known.as_slice().get(name.0 as usize) {
            Some(is_known) => *is_known,
            None => self.unnamed,
        }
    }
}

// Whether a host function has a name.
fn has_function(hosts: &HostTable, word: &[u8]) -> bool
    ensures { result ≡ list_any (bytes_eq word.now) (names_of (functions_of hosts.now)) }
{
    match hosts.find(word) {
        Some(_) => true,
        None => false,
    }
}
