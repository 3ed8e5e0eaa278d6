//! Typed files.

ghost use Rattle.std.specs.Prelude.{◌≡◌};
ghost use Rattle.type_check.specs.Typed.{IsFine};

use chor_base::{List, Word};
use chor_tree::File;

/// A file without fault of names, protocols, views and types, where programs may call the host
/// functions of these names.
pub struct Typed {
    file: File,
    // The names of the host functions.
    hosts: List<Word>,
    pub ghost fine: { IsFine hosts file },
}

impl Drop for Typed {
    fn drop(self) {
        let Typed { file: _, hosts: _ } = self;
    }
}

impl Typed {
    pub(crate) fn new(file: File, hosts: List<Word>) -> Self
        requires { IsFine hosts file }
        ensures file { result.file ≡ file }
        ensures hosts { result.hosts ≡ hosts }
    {
        Typed { file, hosts }
    }

    /// The file. It takes no memory.
    pub fn file(&self) -> &File
        ensures file { result.now ≡ self.now.file }
        ensures fine { IsFine self.now.hosts result.now }
    {
        &self.file
    }

    /// The names of the host functions that programs may call, in their order. It takes no memory.
    pub fn hosts(&self) -> &List<Word>
        ensures { result.now ≡ self.now.hosts }
    {
        &self.hosts
    }
}
