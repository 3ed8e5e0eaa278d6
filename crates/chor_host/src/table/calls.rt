//! What a table of host functions does.

ghost use Rattle.std.specs.Prelude.{◌≡◌, ◌<◌, ◌++◌, ◌∷◌, [], ◌↔◌, ℤ, false, length, slice_get, OnOk, OnErr, IfErr, IfSome, IfNone, IsTrue};
ghost use Rattle.chor_base.specs.Meaning.{MayAnswer};
ghost use Rattle.chor_host.specs.Functions.{function_of, is_named, meaning_of, names_of};
ghost use Rattle.chor_host.specs.Tables.{functions_of};

use crate::fault::AddFault;
use crate::function::HostFn;
use crate::table::HostTable;
use chor_base::Names;
use std::alloc::Global;

impl HostTable {
    /// No functions. It takes no memory.
    pub fn new(alloc: Global) -> Self
        ensures { functions_of result ≡ [] }
    {
        HostTable {
            names: Names::new(alloc),
            functions: Vec::new(alloc),
        }
    }

    /// How many functions there are.
    pub fn len(&self) -> usize
        ensures { result ≡ length (functions_of self.now) }
    {
        self.functions.len()
    }

    /// Adds a function after all others. A table of 2^32 - 1 functions answers `Memory`.
    pub fn add(&mut self, f: HostFn) -> Result<(), AddFault>
        ensures ok { OnOk result (functions_of self.new ≡ functions_of self.old ++ function_of f ∷ []) }
        ensures twice { (result ≡ Err AddFault.Twice) ↔ IsTrue (is_named (functions_of self.old) f.name) }
        ensures err { OnErr result (functions_of self.new ≡ functions_of self.old) }
    {
        if self.has(f.name.as_slice()) {
            return Err(AddFault::Twice);
        }
        self.push(f)
    }

    // Whether a function has this name.
    #[tactic(auto, using(crate::proofs::Named::named_at))]
    fn has(&self, name: &[u8]) -> bool
        ensures { result ≡ is_named (functions_of self.now) name.now }
    {
        match self.find(name) {
            Some(_) => true,
            None => false,
        }
    }

    // One more function, of a name that isn't there.
    fn push(&mut self, f: HostFn) -> Result<(), AddFault>
        requires { is_named (functions_of self.old) f.name ≡ false }
        ensures ok { OnOk result (functions_of self.new ≡ functions_of self.old ++ function_of f ∷ []) }
        ensures memory { IfErr result (λ fault. fault ≡ AddFault.Memory) }
        ensures err { OnErr result (functions_of self.new ≡ functions_of self.old) }
    {
        self.functions.reserve(1).map_err(|_| AddFault::Memory)?;
        self.names
            .intern(f.name.as_slice())
            .map_err(|_| AddFault::Memory)?;
        match self.functions.push(f) {
            Ok(()) => Ok(()),
            Err(_) => unreachable!(),
        }
    }

    /// The number of the function of this name. It takes no memory.
    pub fn find(&self, name: &[u8]) -> Option<u32>
        ensures found { IfSome result (λ index. slice_get (names_of (functions_of self.now)) index ≡ Some name.now) }
        ensures absent { IfNone result (is_named (functions_of self.now) name.now ≡ false) }
    {
        match self.names.find(name) {
            Some(name) => Some(name.0),
            None => None,
        }
    }

    /// The function of this number. It takes no memory.
    pub fn at(&self, index: u32) -> &HostFn
        requires { index < length (functions_of self.now) }
        ensures { slice_get (functions_of self.now) index ≡ Some (function_of result.now) }
    {
        &self.functions[index as usize]
    }

    /// What the function of this name answers, if there is one. It takes no memory.
    pub fn ask(&self, name: &[u8], a: i64, b: i64) -> Option<i64>
        ensures allowed { IfSome result (λ v. MayAnswer (meaning_of (functions_of self.now) name.now) a b v) }
        ensures absent { IfNone result (is_named (functions_of self.now) name.now ≡ false) }
    {
        match self.find(name) {
            Some(index) => Some(self.at(index).ask(a, b)),
            None => None,
        }
    }

    /// Whether the function of this name may answer this value to two numbers: false where there is
    /// none. It takes no memory, and calls no function.
    pub fn allows(&self, name: &[u8], a: i64, b: i64, value: i64) -> bool
        ensures { IsTrue result ↔ MayAnswer (meaning_of (functions_of self.now) name.now) a b value }
    {
        match self.find(name) {
            Some(index) => self.at(index).allows(a, b, value),
            None => false,
        }
    }
}
