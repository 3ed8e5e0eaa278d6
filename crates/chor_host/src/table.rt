//! Host functions by their names.

ghost use Rattle.std.specs.Prelude.{◌≡◌, map};
ghost use Rattle.chor_base.specs.Words.{AllDistinct};
ghost use Rattle.chor_host.specs.Functions.{function_of, names_of};

mod calls;

use crate::function::HostFn;
use chor_base::Names;

/// Host functions, no two of one name. The number of one is its place.
pub struct HostTable {
    // The names of the functions, in their order.
    names: Names,
    functions: Vec<HostFn>,
    ghost named: { names ≡ names_of (map function_of functions.items) },
    ghost distinct: { AllDistinct names },
}

impl Drop for HostTable {
    fn drop(self) {
        let HostTable {
            names: _,
            functions: _,
        } = self;
    }
}
