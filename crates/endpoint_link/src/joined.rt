//! The base and the given programs in one set of tables.

ghost use Rattle.std.specs.Prelude.{IfOk};
ghost use Rattle.endpoint_link.specs.Joined.{AreProgramsJoined};

use crate::renumbering::Renumbering;
use crate::table::add_nodes;
use crate::words::{joined_names, joined_texts};
use chor_base::{List, Memory, Names, Texts};
use endpoint_code::{Code, Endpoints};
use std::alloc::Global;

/// The names, texts and code nodes of the base and of the given programs. Those of the base keep their
/// numbers, those of the given programs get the numbers in `numbers`.
#[derive(Drop)]
pub struct Joined {
    pub names: Names,
    pub texts: Texts,
    pub code: Code,
    pub numbers: Renumbering,
}

/// The tables of `base` with those of `given` added.
pub fn join(alloc: Global, base: &Endpoints, given: &Endpoints) -> Result<Joined, Memory>
    ensures { IfOk result (AreProgramsJoined base.now given.now) }
{
    let names = joined_names(alloc, &base.names, &given.names)?;
    let texts = joined_texts(alloc, &base.texts, &given.texts)?;
    let mut code = Code::new(alloc);
    let own = Renumbering {
        names: List::new(alloc),
        texts: List::new(alloc),
        first: 0,
    };
    add_nodes(alloc, &mut code, &base.code, &own)?;
    let numbers = Renumbering {
        names: names.numbers,
        texts: texts.numbers,
        first: code.nodes.count(),
    };
    add_nodes(alloc, &mut code, &given.code, &numbers)?;
    Ok(Joined {
        names: names.names,
        texts: texts.texts,
        code,
        numbers,
    })
}
